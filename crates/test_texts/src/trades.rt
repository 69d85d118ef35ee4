// What no output shows of trades: the numbers of their symbols, and rows that came from elsewhere.
use crate::fixture::none_is_wrong;
use std::alloc::Global;
use std::test::Fail;
use test_kit::NAMES;
use trade_text::{Trades, read_trades, write_output};
use tuple_edge::Row;

// The trades of these records.
fn trades_of(alloc: Global, records: &[u8]) -> Result<Trades, Fail> {
    let mut file = Vec::from_slice(alloc, NAMES)?;
    file.extend_from_slice(records)?;
    Ok(read_trades(alloc, &file)?)
}

// As many symbols as there may be, S0 to S4095.
fn most_symbols(alloc: Global) -> Result<String, Fail> {
    let mut records = String::new(alloc);
    for number in 0..4_096u32 {
        write!(records, "1,7,S{number},B,1,1\n")?;
    }
    Ok(records)
}

// The most symbols, and one of them again.
fn has_most_symbols(trades: &Trades) -> bool {
    trades.rows().len() == 4_097
        && trades.rows().last().map(|row| row.symbol) == Some(4_096)
        && trades.symbol(4_096) == b"S4095".as_slice()
}

// What is said of these records.
fn refusal(alloc: Global, records: &str) -> Result<Option<String>, Fail> {
    let mut file = Vec::from_slice(alloc, NAMES)?;
    file.extend_from_slice(records.as_bytes())?;
    match read_trades(alloc, &file) {
        Ok(_) => Ok(None),
        Err(error) => Ok(Some(format!(in alloc; "{error}")?)),
    }
}

#[test]
fn symbols_may_be_so_many(rt: HostRuntime) -> Result<(), Fail> {
    let mut records = most_symbols(rt.alloc())?;
    records.push_str("1,7,S4095,S,1,1\n")?;
    let trades = trades_of(rt.alloc(), records.as_bytes())?;
    assert!(rt; has_most_symbols(&trades));
    Ok(())
}

#[test]
fn symbols_have_a_limit(rt: HostRuntime) -> Result<(), Fail> {
    let mut records = most_symbols(rt.alloc())?;
    records.push_str("1,7,S4095,S,1,1\n1,7,S4096,X,1,1\n")?;
    let said = refusal(rt.alloc(), &records)?;
    assert!(rt; said.as_deref() == Some("record 4099: range symbol"));
    Ok(())
}

const RECORDS: &[u8] = b"1,7,M,B,1,1\n2,7,A,B,1,1\n3,7, M ,S,1,1\n4,7,m,B,1,1\n";

// Whether the rows have these symbols.
fn have_symbols(rows: &[Row], numbers: &[i64]) -> bool {
    let mut rows_and_numbers = rows.iter().zip(numbers.iter());
    rows.len() == numbers.len() && rows_and_numbers.all(|(row, number)| row.symbol == *number)
}

// The fourth row is of the first source, and no other one was merged.
fn are_alone(trades: &Trades) -> bool {
    3 < trades.rows().len() && trades.source(3) == 0 && !trades.merged()
}

#[test]
fn symbols_are_numbered_by_first_appearance(rt: HostRuntime) -> Result<(), Fail> {
    let trades = trades_of(rt.alloc(), RECORDS)?;
    assert!(rt; have_symbols(trades.rows(), &[1, 2, 1, 3]));
    assert!(rt; are_alone(&trades));
    Ok(())
}

const SYMBOLS: &[(i64, &str)] = &[
    (1, "M"),
    (3, "m"),
    (0, "-"),
    (4, "-"),
    (-1, "-"),
    (i64::MAX, "-"),
    (i64::MIN, "-"),
];

#[test]
fn symbols_have_names(rt: HostRuntime) -> Result<(), Fail> {
    let trades = trades_of(rt.alloc(), RECORDS)?;
    let mut symbols = SYMBOLS.iter();
    none_is_wrong(symbols.position(|(number, name)| trades.symbol(*number) != name.as_bytes()))
}

const ROW: Row = Row {
    time: 34200,
    account: 0,
    symbol: 2,
    qty: -5,
    value: -9_000_000_000_000_000_000,
};

#[test]
fn a_part_has_no_last_line(rt: HostRuntime) -> Result<(), Fail> {
    let trades = trades_of(rt.alloc(), RECORDS)?;
    let rows = [ROW, Row { symbol: 0, ..ROW }];
    let part = write_output(rt.alloc(), &rows, &trades, false)?;
    let wanted: &[u8] = b"time,account,symbol,qty,value
34200,0,A,-5,-9000000000000000000
34200,0,-,-5,-9000000000000000000
";
    assert!(rt; part.as_slice() == wanted);
    Ok(())
}
