// The names of symbols, as they are learnt.
use std::test::Fail;
use symbol_names::{SymbolName, SymbolNames};
use trade_text::HasSymbols;
use tuple_edge::Row;

// A row with this symbol.
fn row_of(symbol: i64) -> Row {
    Row {
        time: 1,
        account: 2,
        symbol,
        qty: 3,
        value: 4,
    }
}

#[test]
fn names_have_the_numbers_of_their_order(rt: HostRuntime) -> Result<(), Fail> {
    let mut names = SymbolNames::new(rt.alloc());
    let rows = [row_of(1), row_of(2), row_of(0), row_of(3)];
    assert_eq!(rt; names.known(&rows), 0);
    names.learn(SymbolName::new(b"M"))?;
    names.learn(SymbolName::new(b"ABCDEFGHIJKLMNOPQRSTUVWXYZ012345"))?;
    let known = names.known(&rows);
    assert_eq!(rt; known, 3);
    assert!(rt; names.symbol(1) == b"M".as_slice());
    assert!(rt; names.symbol(2) == b"ABCDEFGHIJKLMNOPQRSTUVWXYZ012345".as_slice());
    assert!(rt; names.symbol(3) == b"-".as_slice());
    assert!(rt; names.symbol(i64::MIN) == b"-".as_slice());
    let lines = names.lines(rt.alloc(), &rows[..known])?;
    assert!(rt;
        lines.as_slice()
            == b"1,2,M,3,4\n1,2,ABCDEFGHIJKLMNOPQRSTUVWXYZ012345,3,4\n1,2,-,3,4\n".as_slice()
    );
    Ok(())
}
