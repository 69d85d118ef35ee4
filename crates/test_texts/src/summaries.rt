// Summaries, worked out by hand.
use std::test::Fail;
use trade_maker::{make_trades, write_summary};
use trade_text::read_trades;
use tuple_edge::{BIG, Row};

const ROW: Row = Row {
    time: 1,
    account: 1,
    symbol: 1,
    qty: -3,
    value: BIG,
};

const LESS: Row = Row {
    value: -1,
    qty: 5,
    ..ROW
};

#[test]
fn cuts_each_sum_to_the_bounds(rt: HostRuntime) -> Result<(), Fail> {
    let text = make_trades(rt.alloc(), 0, 2)?;
    let trades = read_trades(rt.alloc(), &text)?;
    let summary = write_summary(rt.alloc(), &trades, &[ROW, ROW, LESS])?;
    let wanted: &[u8] = b"trades,2\nrows,3\nqty,-1\nvalue,8999999999999999999\n";
    assert!(rt; summary.as_slice() == wanted);
    Ok(())
}
