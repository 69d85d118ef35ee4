// The summary of a run.
ghost use Rattle.std.specs.Prelude.{◌≡◌, ◌++◌, ◌∷◌, [], IfOk, OnOk, length, map};
ghost use Rattle.std.specs.Fmt.{decimal, signed_decimal};
ghost use Rattle.tuple_edge.specs.Row.{column_of};
ghost use Rattle.tuple_edge.specs.Sum.{total_of};
ghost use Rattle.trade_maker.specs.Summary.{summary};

use itoa::Buffer;
use std::alloc::Global;
use trade_text::Trades;
use tuple_edge::{Column, OutOfMemory, Row, saturating_sum_of};

// Room for the four lines, which have 106 bytes at most: their names, and four numbers of at most 20 bytes.
const SUMMARY_BYTES: usize = 110;

// The sum of a column of rows, in order.
fn total_of(rows: &[Row], column: Column) -> i64
    ensures { result ≡ total_of (map (column_of column) rows.now) }
{
    let mut total = 0;
    for row in rows {
        total = saturating_sum_of(total, row.get(column));
    }
    total
}

// Appends a line: a name, and a number that isn't below zero.
fn push_count(
    out: &mut Vec<u8>,
    digits: &mut Buffer,
    name: &[u8],
    count: usize,
) -> Result<(), OutOfMemory>
    ensures { OnOk result (out.new.items ≡ out.old.items ++ name.now ++ decimal count ++ 10 ∷ []) }
{
    out.extend_from_slice(name)?;
    out.extend_from_slice(digits.format(count).as_bytes())?;
    out.push(b'\n')?;
    Ok(())
}

// Appends a line: a name, and a number.
fn push_sum(
    out: &mut Vec<u8>,
    digits: &mut Buffer,
    name: &[u8],
    sum: i64,
) -> Result<(), OutOfMemory>
    ensures { OnOk result (out.new.items ≡ out.old.items ++ name.now ++ signed_decimal sum ++ 10 ∷ []) }
{
    out.extend_from_slice(name)?;
    out.extend_from_slice(digits.format(sum).as_bytes())?;
    out.push(b'\n')?;
    Ok(())
}

/// The summary of what became of trades: how many they were, how many rows there are, and the sums of the
/// rows' quantities and values in order, each sum cut to plus and minus [`BIG`](tuple_edge::BIG).
pub fn write_summary(alloc: Global, trades: &Trades, rows: &[Row]) -> Result<Vec<u8>, OutOfMemory>
    ensures { IfOk result (λ bytes. bytes.items ≡ summary (length trades.now.rows) rows.now) }
{
    let qty = total_of(rows, Column::Qty);
    let value = total_of(rows, Column::Value);
    let mut digits = Buffer::new();
    let mut out = Vec::new(alloc);
    out.reserve(SUMMARY_BYTES)?;
    push_count(&mut out, &mut digits, b"trades,", trades.rows().len())?;
    push_count(&mut out, &mut digits, b"rows,", rows.len())?;
    push_sum(&mut out, &mut digits, b"qty,", qty)?;
    push_sum(&mut out, &mut digits, b"value,", value)?;
    Ok(out)
}
