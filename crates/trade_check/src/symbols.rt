// The symbols that a plan keeps by their numbers.
ghost use Rattle.std.specs.Prelude.{◌≡◌, ◌≤◌, length};
ghost use Rattle.trade_check.specs.Symbols.{before_symbol, has_symbol, is_equal, is_symbol, kept_symbol, symbol_count};

use op_spec::{Compare, OpSpec};
use tuple_edge::{Column, Row};

// Whether a column is the symbol.
fn is_symbol(column: Column) -> bool
    ensures { result ≡ is_symbol column }
{
    matches!(column, Column::Symbol)
}

// Whether a comparison asks for the same number.
fn is_equal(compare: Compare) -> bool
    ensures { result ≡ is_equal compare }
{
    matches!(compare, Compare::Equal)
}

/// The number of the one symbol whose rows an operator passes on.
pub(crate) fn kept_symbol(op: &OpSpec) -> Option<i64>
    ensures { result ≡ kept_symbol op.now }
{
    match op {
        OpSpec::Keep {
            column,
            compare,
            limit,
        } => {
            if is_symbol(*column) && is_equal(*compare) && *limit > 0 {
                return Some(*limit);
            }
            None
        }
        _ => None,
    }
}

/// How many trades stand before the first one of a symbol.
pub(crate) fn before_symbol(number: i64, rows: &[Row]) -> usize
    ensures value { result ≡ before_symbol number rows.now }
    ensures within { result ≤ length rows.now }
{
    rows.iter().take_while(|row| row.symbol != number).count()
}

/// Whether a trade has the symbol of this number.
pub(crate) fn has_symbol(rows: &[Row], number: i64) -> bool
    ensures { result ≡ has_symbol rows.now number }
{
    before_symbol(number, rows) < rows.len()
}

/// How many symbols trades have.
pub(crate) fn symbol_count(rows: &[Row]) -> i64
    ensures { result ≡ symbol_count rows.now }
{
    let mut most = 0;
    for row in rows {
        most = most.max(row.symbol);
    }
    most
}
