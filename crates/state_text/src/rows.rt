// The lines of the rows that were emitted.
ghost use Rattle.state_text.specs.StateText.{emitted_line};
ghost use Rattle.std.specs.Fmt.{signed_decimal};
ghost use Rattle.std.specs.List.{flat_map};
ghost use Rattle.std.specs.Prelude.{◌≡◌, ◌++◌, OnOk, codes};

use itoa::Buffer;
use trade_text::{Trades, push_symbol};
use tuple_edge::{OutOfMemory, Row};

// The most bytes of a line: a word and a blank, four numbers of at most 20 bytes, a symbol of at most 32, and five
// bytes that end these.
const MAX_LINE_BYTES: usize = 121;

// Appends a text.
fn push_text(out: &mut Vec<u8>, text: &[u8]) -> Result<(), OutOfMemory>
    ensures { OnOk result (out.new.items ≡ out.old.items ++ text.now) }
{
    out.extend_from_slice(text)?;
    Ok(())
}

// Appends a number and a byte that ends it.
fn push_number(out: &mut Vec<u8>, number: i64, end: &[u8]) -> Result<(), OutOfMemory>
    ensures { OnOk result (out.new.items ≡ out.old.items ++ signed_decimal number ++ end.now) }
{
    let mut digits = Buffer::new();
    out.extend_from_slice(digits.format(number).as_bytes())?;
    out.extend_from_slice(end)?;
    Ok(())
}

// Appends two numbers with a comma between them, and a byte that ends them.
fn push_pair(out: &mut Vec<u8>, first: i64, second: i64, end: &[u8]) -> Result<(), OutOfMemory>
    ensures { OnOk result (out.new.items ≡ out.old.items ++ (signed_decimal first ++ codes "," ++ signed_decimal second ++ end.now)) }
{
    push_number(out, first, b",")?;
    push_number(out, second, end)?;
    Ok(())
}

// Appends the time and the account of a row.
fn push_times(out: &mut Vec<u8>, row: &Row) -> Result<(), OutOfMemory>
    ensures { OnOk result (out.new.items ≡ out.old.items ++ (signed_decimal row.now.time ++ codes "," ++ signed_decimal row.now.account ++ codes ",")) }
{
    push_pair(out, row.time, row.account, b",")
}

// Appends the quantity and the value of a row, which end its line.
fn push_sums(out: &mut Vec<u8>, row: &Row) -> Result<(), OutOfMemory>
    ensures { OnOk result (out.new.items ≡ out.old.items ++ (signed_decimal row.now.qty ++ codes "," ++ signed_decimal row.now.value ++ codes "\n")) }
{
    push_pair(out, row.qty, row.value, b"\n")
}

// Appends the line of a row.
fn push_row(out: &mut Vec<u8>, trades: &Trades, row: &Row) -> Result<(), OutOfMemory>
    ensures { OnOk result (out.new.items ≡ out.old.items ++ emitted_line trades.now.symbols row.now) }
{
    push_text(out, b"row ")?;
    push_times(out, row)?;
    push_symbol(out, trades, row)?;
    push_text(out, b",")?;
    push_sums(out, row)?;
    Ok(())
}

// Appends the lines of rows.
pub(crate) fn push_rows(out: &mut Vec<u8>, trades: &Trades, rows: &[Row]) -> Result<(), OutOfMemory>
    ensures { OnOk result (out.new.items ≡ out.old.items ++ flat_map (emitted_line trades.now.symbols) rows.now) }
{
    out.reserve(rows.len().saturating_mul(MAX_LINE_BYTES))?;
    for row in rows {
        push_row(out, trades, row)?;
    }
    Ok(())
}
