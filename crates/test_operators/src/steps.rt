// What is done with an operator, step by step, and what has to come of it.
ghost use Rattle.std.specs.Prelude.{IsTrue};
ghost use Rattle.stream_ops.specs.Spec.{IsSpec};

use crate::chance::Chance;
use std::alloc::Global;
use std::test::Fail;
use stream_ops::{MAX_JOIN_ROWS, MAX_LAST_ROWS, MAX_WINDOW_SECONDS, OpSpec, OpState, is_timely};
use tuple_edge::{Entry, Item, Key, Row};

// The time of a row, its account, symbol, quantity and value.
pub(crate) type Numbers = (i64, i64, i64, i64, i64);

// An entry of an account: the account, the slot, the sums of quantities and of values, and the number.
pub(crate) type Kept = (i64, u32, i64, i64, i64);

#[derive(Clone, Copy)]
pub(crate) enum Step {
    // It takes rows; a row of each of a thousand accounts and then one more of each, with a mark after each row; so many
    // rows drawn by chance; or the end.
    Take(&'static [Numbers]),
    TakeMany,
    TakeDrawn(u32),
    End,
    // To rows, each with a mark after it, and then the end it answers so.
    Answers(&'static [Numbers], &'static [Numbers]),
    // So many rows were answered since the last of the steps above but the end, and this is the last of them.
    Told(usize, Numbers),
    // At most so many rows would answer an item.
    Most(Item, u64),
    // So many entries are kept, and they are these.
    Counts(u64),
    Keeps(&'static [Kept]),
    // A watch begins, or ends.
    Watch,
    Unwatch,
    // Of those that were kept when the watch began, this one is next after an account's slot, or none is.
    Old(Option<(i64, u32)>, Option<Kept>),
    // A watch begins, and each entry of a copy that is made then is told after the one before it, once one more row came
    // that is drawn by chance, and none after the last; there are at most so many. The watch ends, and none is told.
    Walk(usize),
}

// An operator, and steps that are done with it.
pub(crate) type Case = (OpSpec, &'static [Step]);

// An operator, what it has answered, and what draws rows.
#[derive(Drop)]
struct Given {
    state: OpState,
    out: Vec<Row>,
    chance: Chance,
}

// Each step of these cases comes to what it has to.
pub(crate) fn check(alloc: Global, cases: &[Case]) -> Result<(), Fail> {
    for (nth, (spec, steps)) in cases.iter().enumerate() {
        if let Some(place) = first_wrong(alloc, spec, steps)? {
            return Err(Fail::new(format_args!("not so in case {nth} at step {place}")));
        }
    }
    Ok(())
}

// The first step of an operator that doesn't come to what it has to.
fn first_wrong(alloc: Global, spec: &OpSpec, steps: &[Step]) -> Result<Option<usize>, Fail> {
    let mut given = opened(alloc, spec)?;
    given.first_wrong(alloc, steps)
}

// Whether settings are within their limits.
fn is_spec(spec: &OpSpec) -> bool
    ensures { IsTrue result → IsSpec spec.now }
{
    match *spec {
        OpSpec::Keep { .. } | OpSpec::Total { .. } => true,
        OpSpec::Last { rows, .. } => 1 <= rows && rows <= MAX_LAST_ROWS,
        OpSpec::Window { width, .. } => 1 <= width && width <= MAX_WINDOW_SECONDS,
        OpSpec::Crossing { limit, .. } => 0 <= limit,
        OpSpec::Join { width, rows, .. } => {
            1 <= width && width <= MAX_WINDOW_SECONDS && 1 <= rows && rows <= MAX_JOIN_ROWS
        }
    }
}

fn opened(alloc: Global, spec: &OpSpec) -> Result<Given, Fail> {
    if !is_spec(spec) {
        return Err(Fail::new("settings past their limits"));
    }
    Ok(Given {
        state: OpState::new(alloc, *spec),
        out: Vec::new(alloc),
        chance: Chance::new(),
    })
}

fn row((time, account, symbol, qty, value): Numbers) -> Row {
    Row {
        time,
        account,
        symbol,
        qty,
        value,
    }
}

fn key(account: i64) -> Key {
    Key { account, symbol: 0 }
}

fn entry((account, slot, qty, value, window): Kept) -> Entry {
    let key = key(account);
    Entry::Keyed {
        key,
        slot,
        qty,
        value,
        window,
    }
}

fn place(entry: &Entry) -> Option<(Key, u32)> {
    match entry {
        Entry::Keyed { key, slot, .. } => Some((*key, *slot)),
        _ => None,
    }
}

// Whether these are the rows of these numbers.
fn are_rows(rows: &[Row], numbers: &[Numbers]) -> bool {
    let mut all = rows.len() == numbers.len();
    for (found, wanted) in rows.iter().zip(numbers) {
        all = all && *found == row(*wanted);
    }
    all
}

// Whether these entries are those.
fn are_entries(entries: &[Entry], kept: &[Kept]) -> bool {
    let mut all = entries.len() == kept.len();
    for (found, wanted) in entries.iter().zip(kept) {
        all = all && *found == entry(*wanted);
    }
    all
}

impl Given {
    fn first_wrong(&mut self, alloc: Global, steps: &[Step]) -> Result<Option<usize>, Fail> {
        for (place, step) in steps.iter().enumerate() {
            if !self.comes(alloc, step)? {
                return Ok(Some(place));
            }
        }
        Ok(None)
    }

    // Whether a step comes to what it has to.
    fn comes(&mut self, alloc: Global, step: &Step) -> Result<bool, Fail> {
        match *step {
            Step::Take(rows) => self.takes_all(rows),
            Step::TakeMany => self.takes_many(),
            Step::TakeDrawn(count) => self.takes_drawn(count),
            Step::End => self.takes(Item::End { stamp: 1 }),
            Step::Answers(rows, answers) => self.answers(rows, answers),
            Step::Told(count, last) => Ok(self.has_told(count, last)),
            Step::Most(item, count) => Ok(self.state.most(&item) == count),
            Step::Counts(count) => Ok(self.state.entry_count() == count),
            Step::Keeps(entries) => self.keeps(alloc, entries),
            Step::Watch => Ok(self.watches()),
            Step::Unwatch => Ok(self.unwatches()),
            Step::Old(after, wanted) => Ok(self.is_next(after, wanted)),
            Step::Walk(most) => self.walks(alloc, most),
        }
    }

    // Takes an item, where its time is within its limits.
    fn takes(&mut self, item: Item) -> Result<bool, Fail> {
        if !is_timely(&item) {
            return Ok(false);
        }
        self.state.step(item, &mut self.out)?;
        Ok(true)
    }

    fn takes_row(&mut self, numbers: Numbers) -> Result<bool, Fail> {
        let (stamp, row) = (1, row(numbers));
        self.takes(Item::Row { stamp, row })
    }

    fn takes_marked(&mut self, numbers: Numbers) -> Result<bool, Fail> {
        Ok(self.takes_row(numbers)? && self.takes(Item::Mark { stamp: 1 })?)
    }

    fn takes_all(&mut self, rows: &[Numbers]) -> Result<bool, Fail> {
        self.out.clear();
        let mut all = true;
        for row in rows {
            all = all && self.takes_row(*row)?;
        }
        Ok(all)
    }

    fn takes_many(&mut self) -> Result<bool, Fail> {
        self.out.clear();
        Ok(self.takes_thousand(60, 1, 2, 300)? && self.takes_thousand(61, 0, -1, 100)?)
    }

    // Takes a row of each of a thousand accounts.
    fn takes_thousand(
        &mut self,
        time: i64,
        symbol: i64,
        qty: i64,
        value: i64,
    ) -> Result<bool, Fail> {
        let mut all = true;
        for account in 0..1000 {
            all = all && self.takes_marked((time, account, symbol, qty, value))?;
        }
        Ok(all)
    }

    fn takes_drawn(&mut self, count: u32) -> Result<bool, Fail> {
        self.out.clear();
        let mut all = true;
        for _turn in 0..count {
            all = all && self.takes_one_drawn()?;
        }
        Ok(all)
    }

    fn takes_one_drawn(&mut self) -> Result<bool, Fail> {
        let drawn = self.chance.row();
        self.takes_row(drawn)
    }

    fn answers(&mut self, rows: &[Numbers], answers: &[Numbers]) -> Result<bool, Fail> {
        self.out.clear();
        let mut all = true;
        for row in rows {
            all = all && self.takes_marked(*row)?;
        }
        all = all && self.takes(Item::End { stamp: 1 })?;
        Ok(all && are_rows(self.out.as_slice(), answers))
    }

    fn has_told(&self, count: usize, last: Numbers) -> bool {
        self.out.len() == count && self.out.last() == Some(&row(last))
    }

    fn keeps(&self, alloc: Global, entries: &[Kept]) -> Result<bool, Fail> {
        let kept = self.state.entries(alloc)?;
        Ok(are_entries(kept.as_slice(), entries))
    }

    fn watches(&mut self) -> bool {
        self.state.watch();
        true
    }

    fn unwatches(&mut self) -> bool {
        self.state.unwatch();
        true
    }

    fn is_next(&self, after: Option<(i64, u32)>, wanted: Option<Kept>) -> bool {
        let after = match after {
            Some((account, slot)) => Some((key(account), slot)),
            None => None,
        };
        match wanted {
            Some(kept) => self.state.old_after(after) == Some(entry(kept)),
            None => self.state.old_after(after).is_none(),
        }
    }

    fn walks(&mut self, alloc: Global, most: usize) -> Result<bool, Fail> {
        let copy = self.state.entries(alloc)?;
        self.state.watch();
        let told = self.tells(copy.as_slice())?;
        self.state.unwatch();
        Ok(told && copy.len() <= most && self.state.old_after(None).is_none())
    }

    // Whether each of these entries is told after the one before it, once one more row came, and none after the last.
    fn tells(&mut self, entries: &[Entry]) -> Result<bool, Fail> {
        let mut after = None;
        let mut all = true;
        for old in entries {
            all = all && self.takes_one_drawn()? && self.state.old_after(after) == Some(*old);
            after = place(old);
        }
        Ok(all && self.state.old_after(after).is_none())
    }
}
