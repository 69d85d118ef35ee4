// The text of rows.
ghost use Rattle.std.specs.Prelude.{◌≡◌, ◌+◌, ◌≤◌, ◌++◌, ◌∷◌, [], IfOk, OnOk, codes, drop, if◌then◌else◌, length};
ghost use Rattle.std.specs.Fmt.{signed_decimal};
ghost use Rattle.std.specs.List.{flat_map};
ghost use Rattle.trade_text.specs.Text.{count_line, part_text, row_line, text};

use crate::{HasSymbols, Trades};
use itoa::{Buffer, write_digits};
use std::alloc::Global;
use tuple_edge::{OutOfMemory, Row};

// The columns, and the words before the number of rows.
const HEADER: &[u8] = b"time,account,symbol,qty,value\n";

const ROWS: &[u8] = b"rows,";

// The most bytes of a line: four numbers of at most 20 bytes, a symbol of at most 32, and five that
// end these.
const MAX_LINE_BYTES: usize = 117;

// Writes a byte before a place, and says where it stands.
#[inline(always)]
fn write_byte(bytes: &mut [u8], end: usize, byte: u8) -> usize
    requires some { 1 ≤ end }
    requires within { end ≤ length bytes.old }
    ensures start { result + 1 ≡ end }
    ensures written { drop result bytes.new ≡ byte ∷ drop end bytes.old }
{
    bytes[end - 1] = byte;
    end - 1
}

// Writes a number so that it ends at a place, and says where it starts.
#[inline(always)]
fn write_number(bytes: &mut [u8], end: usize, number: i64) -> usize
    requires room { 20 ≤ end }
    requires within { end ≤ length bytes.old }
    ensures start { (result ≤ end) × (end ≤ result + 20) }
    ensures written { drop result bytes.new ≡ signed_decimal number ++ drop end bytes.old }
{
    let start = write_digits(number.unsigned_abs(), bytes, end);
    if number >= 0 {
        return start;
    }
    write_byte(bytes, start, b'-')
}

// Writes a text so that it ends at a place, and says where it starts.
#[inline(always)]
fn write_text(bytes: &mut [u8], end: usize, text: &[u8]) -> usize
    requires room { length text.now ≤ end }
    requires within { end ≤ length bytes.old }
    ensures start { result + length text.now ≡ end }
    ensures written { drop result bytes.new ≡ text.now ++ drop end bytes.old }
{
    let start = end - text.len();
    bytes[start..end].copy_from_slice(text);
    start
}

// Writes two numbers with a comma between them so that they end at a place, and says where they start.
#[inline(always)]
fn write_pair(bytes: &mut [u8], end: usize, first: i64, second: i64) -> usize
    requires room { 41 ≤ end }
    requires within { end ≤ length bytes.old }
    ensures start { (result ≤ end) × (end ≤ result + 41) }
    ensures written { drop result bytes.new ≡ signed_decimal first ++ codes "," ++ signed_decimal second ++ drop end bytes.old }
{
    let after_comma = write_number(bytes, end, second);
    let comma = write_byte(bytes, after_comma, b',');
    write_number(bytes, comma, first)
}

// Writes the line of a row so that it ends with the bytes, and says where it starts.
#[inline(always)]
fn write_line<N: HasSymbols>(bytes: &mut [u8; MAX_LINE_BYTES], names: &N, row: &Row) -> usize
    ensures within { result ≤ 117 }
    ensures written { drop result bytes.new ≡ row_line (N.symbols names.now) row.now }
{
    let after_value = write_byte(bytes, MAX_LINE_BYTES, b'\n');
    let qty = write_pair(bytes, after_value, row.qty, row.value);
    let after_symbol = write_byte(bytes, qty, b',');
    let symbol = write_text(bytes, after_symbol, names.symbol(row.symbol));
    let after_account = write_byte(bytes, symbol, b',');
    write_pair(bytes, after_account, row.time, row.account)
}

// Appends the line of a row. It is put together from its end on, and copied as one piece.
#[inline(always)]
fn push_row<N: HasSymbols>(
    out: &mut Vec<u8>,
    line: &mut [u8; MAX_LINE_BYTES],
    names: &N,
    row: &Row,
) -> Result<(), OutOfMemory>
    ensures { OnOk result (out.new.items ≡ out.old.items ++ row_line (N.symbols names.now) row.now) }
{
    let start = write_line(line, names, row);
    out.extend_from_slice(&line[start..])?;
    Ok(())
}

// Appends the lines of rows.
fn push_rows<N: HasSymbols>(out: &mut Vec<u8>, rows: &[Row], names: &N) -> Result<(), OutOfMemory>
    ensures { OnOk result (out.new.items ≡ out.old.items ++ flat_map (row_line (N.symbols names.now)) rows.now) }
{
    let mut line = [0; MAX_LINE_BYTES];
    for row in rows {
        push_row(out, &mut line, names, row)?;
    }
    Ok(())
}

/// A line for each row, with its symbol by the name that is had for it.
pub fn write_lines<N: HasSymbols>(
    alloc: Global,
    rows: &[Row],
    names: &N,
) -> Result<Vec<u8>, OutOfMemory>
    ensures { IfOk result (λ bytes. bytes.items ≡ flat_map (row_line (N.symbols names.now)) rows.now) }
{
    let mut out = Vec::new(alloc);
    out.reserve(rows.len().saturating_mul(MAX_LINE_BYTES))?;
    push_rows(&mut out, rows, names)?;
    Ok(out)
}

// Appends the last line.
fn push_count(out: &mut Vec<u8>, count: usize) -> Result<(), OutOfMemory>
    ensures { OnOk result (out.new.items ≡ out.old.items ++ count_line count) }
{
    let mut digits = Buffer::new();
    out.extend_from_slice(ROWS)?;
    out.extend_from_slice(digits.format(count).as_bytes())?;
    out.push(b'\n')?;
    Ok(())
}

/// The text of rows: the column names, a line for each row with its symbol by name, and, where
/// `whole`, a last line with the number of rows. Each line ends in LF.
pub fn write_output(
    alloc: Global,
    rows: &[Row],
    trades: &Trades,
    whole: bool,
) -> Result<Vec<u8>, OutOfMemory>
    ensures { IfOk result (λ bytes. bytes.items ≡ (if whole then text trades.now.symbols rows.now else part_text trades.now.symbols rows.now)) }
{
    let mut out = Vec::new(alloc);
    out.reserve(rows.len().saturating_add(2).saturating_mul(MAX_LINE_BYTES))?;
    out.extend_from_slice(HEADER)?;
    push_rows(&mut out, rows, trades)?;
    if !whole {
        return Ok(out);
    }
    push_count(&mut out, rows.len())?;
    Ok(out)
}
