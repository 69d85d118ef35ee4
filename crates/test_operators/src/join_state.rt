// The join by itself: pairs worked out by hand, and the rows that it keeps, also under a watch.
use keyed_store::{JoinKey, JoinState, Kept, MAX_JOIN_ROWS, Pair};
use std::alloc::Global;
use std::test::Fail;

// The slot of a row that is kept, its quantity and value, and its window.
type Place = (u32, i64, i64, i64);

// What is done with a join, and what has to come of it. Where a step names no account, it is account 7.
#[derive(Clone, Copy)]
enum Step {
    // It takes a row of the left side, or of the right one, with its window, quantity and value.
    Left(i64, i64, i64),
    Right(i64, i64, i64),
    // It takes such a row of the left side of another account.
    LeftOf(i64, i64, i64, i64),
    // All pairs so far, with their quantities and values.
    Paired(&'static [(i64, i64)]),
    // A row is put back.
    Put(Place),
    // A watch begins, or ends.
    Watch,
    Unwatch,
    // So many rows are kept.
    Counts(u64),
    // This row is next after a slot, or none is: of those that are kept, and of those that were when the watch began.
    Next(Option<u32>, Option<Place>),
    Old(Option<u32>, Option<Place>),
}

// A join, and the pairs that it has answered.
#[derive(Drop)]
struct Joined {
    join: JoinState,
    pairs: Vec<Pair>,
}

fn key(account: i64) -> JoinKey {
    JoinKey { account, symbol: 0 }
}

// The first step that doesn't come to what it has to, with a join of so many last rows.
fn first_wrong(alloc: Global, rows: u32, steps: &[Step]) -> Result<Option<usize>, Fail> {
    let mut joined = opened(alloc, rows)?;
    joined.first_wrong(steps)
}

fn opened(alloc: Global, rows: u32) -> Result<Joined, Fail> {
    if rows == 0 || rows > MAX_JOIN_ROWS {
        return Err(Fail::new("rows past their limits"));
    }
    let join = JoinState::new(alloc, rows);
    let pairs = Vec::new(alloc);
    Ok(Joined { join, pairs })
}

impl Joined {
    fn first_wrong(&mut self, steps: &[Step]) -> Result<Option<usize>, Fail> {
        for (place, step) in steps.iter().enumerate() {
            if !self.comes(step)? {
                return Ok(Some(place));
            }
        }
        Ok(None)
    }

    // Whether a step comes to what it has to.
    fn comes(&mut self, step: &Step) -> Result<bool, Fail> {
        match *step {
            Step::Left(window, qty, value) => self.takes(7, true, (window, qty, value)),
            Step::Right(window, qty, value) => self.takes(7, false, (window, qty, value)),
            Step::LeftOf(account, window, qty, value) => {
                self.takes(account, true, (window, qty, value))
            }
            Step::Paired(pairs) => Ok(self.has_paired(pairs)),
            Step::Put(row) => self.puts(row),
            Step::Watch => Ok(self.watches()),
            Step::Unwatch => Ok(self.unwatches()),
            Step::Counts(count) => Ok(self.join.entry_count() == count),
            Step::Next(slot, row) => Ok(place(self.join.entry_after(after(slot))) == row),
            Step::Old(slot, row) => Ok(place(self.join.old_after(after(slot))) == row),
        }
    }

    fn watches(&mut self) -> bool {
        self.join.watch();
        true
    }

    fn unwatches(&mut self) -> bool {
        self.join.unwatch();
        true
    }

    fn takes(
        &mut self,
        account: i64,
        left: bool,
        (window, qty, value): (i64, i64, i64),
    ) -> Result<bool, Fail> {
        let key = key(account);
        self.join
            .step(key, left, window, qty, value, &mut self.pairs)?;
        Ok(true)
    }

    fn has_paired(&self, wanted: &[(i64, i64)]) -> bool {
        let mut all = self.pairs.len() == wanted.len();
        for (pair, sums) in self.pairs.iter().zip(wanted) {
            all = all && (pair.qty, pair.value) == *sums;
        }
        all
    }

    fn puts(&mut self, (slot, qty, value, window): Place) -> Result<bool, Fail> {
        let key = key(7);
        self.join.put(Kept {
            key,
            slot,
            qty,
            value,
            window,
        })?;
        Ok(true)
    }
}

fn after(slot: Option<u32>) -> Option<(JoinKey, u32)> {
    match slot {
        Some(slot) => Some((key(7), slot)),
        None => None,
    }
}

fn place(kept: Option<Kept>) -> Option<Place> {
    match kept {
        Some(kept) => Some((kept.slot, kept.qty, kept.value, kept.window)),
        None => None,
    }
}

// How many rows of each side are kept, and what is done.
const CASES: &[(u32, &[Step])] = &[
    // The last row of the left side lies in the next window; then comes one of another account.
    (
        2,
        &[
            Step::Left(570, 0, 500),
            Step::Paired(&[]),
            Step::Right(570, 1, 100),
            Step::Left(570, 0, -100),
            Step::Right(570, 2, 200),
            Step::Left(571, 0, 900),
            Step::Paired(&[(1, 600), (1, 0), (2, 700), (2, 100)]),
            Step::LeftOf(8, 570, 0, 500),
            Step::Paired(&[(1, 600), (1, 0), (2, 700), (2, 100)]),
        ],
    ),
    // The last rows count, also where they lie in another window.
    (
        1,
        &[
            Step::Left(1, 0, 5),
            Step::Left(2, 0, 7),
            Step::Right(1, 1, 1),
            Step::Paired(&[]),
            Step::Right(2, 1, 1),
            Step::Paired(&[(1, 8)]),
        ],
    ),
    // The rows that are kept, one after another: the left ones from slot 0, the right ones from 4.
    (
        2,
        &[
            Step::Left(570, 0, 500),
            Step::Right(570, 1, 100),
            Step::Left(570, 0, -100),
            Step::Right(570, 2, 200),
            Step::Watch,
            Step::Left(571, 0, 900),
            Step::Next(None, Some((0, 0, -100, 570))),
            Step::Next(Some(0), Some((1, 0, 900, 571))),
            Step::Next(Some(1), Some((4, 1, 100, 570))),
            Step::Next(Some(4), Some((5, 2, 200, 570))),
            Step::Next(Some(5), None),
            Step::Old(Some(0), Some((1, 0, -100, 570))),
            Step::Old(Some(1), Some((4, 1, 100, 570))),
            Step::Unwatch,
            Step::Old(None, None),
        ],
    ),
    // Rows that are put back are kept on the side that their slot tells, and paired as if they had come.
    (
        2,
        &[
            Step::Put((0, 0, -100, 570)),
            Step::Put((1, 0, 900, 571)),
            Step::Put((4, 1, 100, 570)),
            Step::Put((5, 2, 200, 570)),
            Step::Counts(4),
            Step::Next(Some(0), Some((1, 0, 900, 571))),
            Step::Next(Some(1), Some((4, 1, 100, 570))),
            Step::Next(Some(4), Some((5, 2, 200, 570))),
            Step::Left(570, 0, 5),
            Step::Paired(&[(1, 105), (2, 205)]),
        ],
    ),
];

#[test]
fn pairs_rows_and_keeps_the_last_ones(rt: HostRuntime) -> Result<(), Fail> {
    for (nth, (rows, steps)) in CASES.iter().enumerate() {
        let wrong = first_wrong(rt.alloc(), *rows, steps)?;
        assert_eq!(rt; wrong, None, "in case {nth}");
    }
    Ok(())
}
