// What no output shows of cash movements: their order before they are merged, for how many there is room, and the
// source of each row behind the merge.
use crate::fixture::none_is_wrong;
use std::alloc::Global;
use std::process::Abort;
use std::test::Fail;
use test_kit::NAMES;
use trade_text::{Cash, MAX_INPUTS, Trades, read_cash, read_trades};
use tuple_edge::Row;

// Trades of account 7, whose quantities count from 1.
const TRADES: &[u8] = b"7,7,A,B,1,1\n1,7,A,B,2,1\n7,7,A,B,3,1\n";

// Movements of account 8, whose cents count from 1.
const CASH: &[u8] = b"time,account,amount\n7,8,0.01\n0,8,0.02\n1,8,0.03\n";

fn trades(alloc: Global) -> Result<Trades, Fail> {
    let mut file = Vec::from_slice(alloc, NAMES)?;
    file.extend_from_slice(TRADES)?;
    Ok(read_trades(alloc, &file)?)
}

fn cash(alloc: Global) -> Result<Cash, Fail> {
    Ok(read_cash(alloc, CASH, 3)?)
}

// The second of them, as a row.
const SECOND: Row = Row {
    time: 0,
    account: 8,
    symbol: 0,
    qty: 0,
    value: 2,
};

const MOVEMENTS: &[Row] = &[
    Row {
        time: 7,
        value: 1,
        ..SECOND
    },
    SECOND,
    Row {
        time: 1,
        value: 3,
        ..SECOND
    },
];

#[test]
fn movements_stay_as_they_are(rt: HostRuntime) -> Result<(), Fail> {
    let cash = cash(rt.alloc())?;
    assert!(rt; cash.rows() == MOVEMENTS);
    Ok(())
}

const HEADER: &[u8] = b"time,account,amount\n";

const TWO: &[u8] = b"time,account,amount\n1,7,1\n2,7,2\n";

// A file, the room for movements, and what becomes of it: a line for each row, or what is said.
type Case = (&'static [u8], u32, &'static str);

const ROOMS: &[Case] = &[
    (TWO, 2, "1,7,100\n2,7,200\n"),
    (TWO, 3, "1,7,100\n2,7,200\n"),
    (TWO, 1, "too many movements"),
    (TWO, 0, "too many movements"),
    (HEADER, 0, ""),
    // A fault within the room comes before the record that has none.
    (
        b"time,account,amount\n1,7,x\n2,7,2\n",
        1,
        "record 2: field amount",
    ),
    // What stands in a record for which there is no room doesn't matter.
    (b"time,account,amount\n1,7,1\nx\n", 1, "too many movements"),
    (b"time,amount\n1,7\n", 0, "header"),
];

// A line for each row.
fn lines_of(alloc: Global, cash: &Cash) -> Result<String, Fail> {
    let mut lines = String::new(alloc);
    for row in cash.rows() {
        let (time, account, value) = (row.time, row.account, row.value);
        write!(lines, "{time},{account},{value}\n")?;
    }
    Ok(lines)
}

// What becomes of a file.
fn outcome(alloc: Global, file: &[u8], room: u32) -> Result<String, Fail> {
    match read_cash(alloc, file, room) {
        Ok(cash) => lines_of(alloc, &cash),
        Err(error) => Ok(format!(in alloc; "{error}")?),
    }
}

fn first_wrong(alloc: Global) -> Result<Option<usize>, Fail> {
    for (place, (file, room, wanted)) in ROOMS.iter().enumerate() {
        if outcome(alloc, file, *room)?.as_str() != *wanted {
            return Ok(Some(place));
        }
    }
    Ok(None)
}

#[test]
fn movements_have_room(rt: HostRuntime) -> Result<(), Fail> {
    none_is_wrong(first_wrong(rt.alloc())?)
}

// Merges the movements into trades that are alone so far, where there is room for all.
fn merge(rt: &impl Abort, trades: &mut Trades, cash: &Cash) -> Result<(), Fail> {
    let movements = cash.rows().len();
    assert!(rt; movements <= MAX_INPUTS);
    assert!(rt; trades.rows().len() <= MAX_INPUTS - movements);
    assert!(rt; !trades.merged());
    trades.merge_cash(cash)?;
    assert!(rt; trades.merged());
    Ok(())
}

// Where a row stood in its file, from 1.
fn place_of(row: &Row) -> i64 {
    match row.symbol {
        0 => row.value,
        _ => row.qty,
    }
}

// The rows of the merge: source, time, and the place in its file.
const MERGED: &[(u32, i64, i64)] = &[
    (1, 0, 2),
    (0, 1, 2),
    (1, 1, 3),
    (0, 7, 1),
    (0, 7, 3),
    (1, 7, 1),
];

// Whether the nth row is this one.
fn has_row(merged: &Trades, nth: usize, wanted: (u32, i64, i64)) -> bool {
    if nth >= merged.rows().len() {
        return false;
    }
    let row = merged.rows()[nth];
    (merged.source(nth), row.time, place_of(&row)) == wanted
}

fn first_other_row(merged: &Trades) -> Option<usize> {
    for (nth, wanted) in MERGED.iter().enumerate() {
        if !has_row(merged, nth, *wanted) {
            return Some(nth);
        }
    }
    None
}

#[test]
fn rows_have_sources(rt: HostRuntime) -> Result<(), Fail> {
    let mut merged = trades(rt.alloc())?;
    let cash = cash(rt.alloc())?;
    merge(&rt, &mut merged, &cash)?;
    assert!(rt; merged.rows().len() == MERGED.len());
    none_is_wrong(first_other_row(&merged))
}
