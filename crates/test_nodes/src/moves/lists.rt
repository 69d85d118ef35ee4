// The list of a move, worked out by hand.
ghost use Rattle.state_mover.specs.MoverView.{IsMidway};
ghost use Rattle.std.specs.Prelude.{◌≡◌, IfSome, IsSome};
ghost use Rattle.stream_ops.specs.Times.{IsTimely};

use crate::answer::none_is_wrong;
use crate::moves::rows::total;
use crate::moves::survivor::{Survivor, opened};
use state_mover::{Moved, Mover};
use std::alloc::Global;
use std::process::Abort;
use std::test::Fail;
use stream_ops::OpState;
use tuple_edge::{Entry, Item, Key, OutOfMemory, Row};

fn bought(account: i64, qty: i64) -> Item
    ensures { IsTimely result }
{
    let row = Row {
        time: 1,
        account,
        symbol: 1,
        qty,
        value: 0,
    };
    Item::Row { stamp: 1, row }
}

fn buy(alloc: Global, state: &mut OpState, account: i64, qty: i64) -> Result<(), OutOfMemory>
    ensures { state.new.old ≡ state.old.old }
{
    let mut out = Vec::new(alloc);
    state.step(bought(account, qty), &mut out)
}

// The first twenty parts of a move.
fn parts_of(alloc: Global, mover: &mut Mover, state: &OpState) -> Result<Vec<Moved>, OutOfMemory>
    requires watched { IsSome state.now.old }
    requires midway { IfSome state.now.old (IsMidway mover.old) }
{
    let mut parts = Vec::new(alloc);
    for _part in 0..20 {
        parts.extend(mover.next(state))?;
    }
    Ok(parts)
}

// The same where the operator is given two rows before the first part.
fn later_parts_of(
    alloc: Global,
    mover: &mut Mover,
    state: &mut OpState,
) -> Result<Vec<Moved>, OutOfMemory>
    requires watched { IsSome state.old.old }
    requires midway { IfSome state.old.old (IsMidway mover.old) }
{
    buy(alloc, state, 2, 5)?;
    buy(alloc, state, 3, 1)?;
    parts_of(alloc, mover, state)
}

// What is moved with an operator that was given two rows: two more come before the first part is given.
fn parts_of_two(alloc: Global, survivor: &mut Survivor) -> Result<Vec<Moved>, OutOfMemory> {
    buy(alloc, &mut survivor.state, 1, 1)?;
    buy(alloc, &mut survivor.state, 2, 2)?;
    survivor.state.watch();
    let mut mover = survivor.mover(alloc, 2)?;
    let parts = later_parts_of(alloc, &mut mover, &mut survivor.state);
    drop(mover);
    parts
}

fn moved_parts(rt: &impl Abort, alloc: Global) -> Result<Vec<Moved>, OutOfMemory> {
    let mut survivor = opened(rt, alloc, total())?;
    let parts = parts_of_two(alloc, &mut survivor);
    drop(survivor);
    parts
}

const FIRST: Item = Item::Mark { stamp: 1 };

const SECOND: Item = Item::Mark { stamp: 2 };

// Two items wait on the first in-edge; of the first out-edge the second item is kept, and the other one
// is acknowledged up to 3. The operator has a row of each of two accounts.
const ENTRIES: &[Entry] = &[
    Entry::Mark { edge: 0, upto: 2 },
    Entry::Mark { edge: 1, upto: 0 },
    Entry::Count { count: 0 },
    Entry::Head {
        edge: 0,
        number: 1,
        item: FIRST,
    },
    Entry::Head {
        edge: 0,
        number: 2,
        item: SECOND,
    },
    Entry::Low {
        edge: 0,
        upto: 1,
        produced: 2,
    },
    Entry::Low {
        edge: 1,
        upto: 3,
        produced: 0,
    },
    Entry::Kept {
        edge: 0,
        number: 2,
        item: FIRST,
    },
    Entry::Keyed {
        key: Key {
            account: 1,
            symbol: 0,
        },
        slot: 0,
        qty: 1,
        value: 0,
        window: 0,
    },
    Entry::Keyed {
        key: Key {
            account: 2,
            symbol: 0,
        },
        slot: 0,
        qty: 2,
        value: 0,
        window: 0,
    },
];

// Whether the part at a place of the move is this entry, under the next number.
fn is_entry(parts: &[Moved], place: usize, entry: Entry) -> bool {
    match parts.get(place) {
        Some(Moved::Chunk { number, entry: is }) => {
            *number == (place as u64).saturating_add(1) && *is == entry
        }
        _ => false,
    }
}

// The first entry that isn't where it has to be.
fn first_wrong(parts: &[Moved]) -> Option<usize> {
    for (place, entry) in ENTRIES.iter().enumerate() {
        if !is_entry(parts, place, *entry) {
            return Some(place);
        }
    }
    None
}

// Whether the move ends after its entries.
fn ends(parts: &[Moved]) -> bool {
    parts.len() == 11 && parts.last() == Some(&Moved::End { count: 10 })
}

#[test]
fn a_move_is_what_its_list_says(rt: HostRuntime) -> Result<(), Fail> {
    let parts = moved_parts(&rt, rt.alloc())?;
    assert!(rt; ends(&parts));
    none_is_wrong(first_wrong(&parts))
}
