// Pieces of texts that tell of rows.
ghost use Rattle.std.specs.Fmt.{decimal, signed_decimal};
ghost use Rattle.std.specs.Prelude.{◌≡◌, ◌++◌, OnOk, codes};
ghost use Rattle.trade_text.specs.Symbols.{symbol_at};
ghost use Rattle.trade_text.specs.Text.{row_text};

use crate::Trades;
use std::alloc::Global;
use tuple_edge::{OutOfMemory, Row};

/// Appends a text.
pub fn push_text(text: &mut Vec<u8>, said: &str) -> Result<(), OutOfMemory>
    ensures { OnOk result (text.new.items ≡ text.old.items ++ said.now) }
{
    text.extend_from_slice(said.as_bytes())?;
    Ok(())
}

/// Appends a number in digits.
pub fn push_number(alloc: Global, text: &mut Vec<u8>, number: u64) -> Result<(), OutOfMemory>
    ensures { OnOk result (text.new.items ≡ text.old.items ++ decimal number) }
{
    let said = format!(in alloc; "{number}")?;
    push_text(text, said.as_str())
}

/// Appends the symbol of a row by its name.
pub fn push_symbol(text: &mut Vec<u8>, trades: &Trades, row: &Row) -> Result<(), OutOfMemory>
    ensures { OnOk result (text.new.items ≡ text.old.items ++ symbol_at trades.now.symbols row.now.symbol) }
{
    text.extend_from_slice(trades.symbol(row.symbol))?;
    Ok(())
}

// Appends the time and the account of a row, each before a comma.
fn push_front(alloc: Global, text: &mut Vec<u8>, row: &Row) -> Result<(), OutOfMemory>
    ensures { OnOk result (text.new.items ≡ text.old.items ++ (signed_decimal row.now.time ++ codes "," ++ signed_decimal row.now.account ++ codes ",")) }
{
    let time = row.time;
    let account = row.account;
    let said = format!(in alloc; "{time},{account},")?;
    push_text(text, said.as_str())
}

// Appends the quantity and the value of a row, each behind a comma.
fn push_amounts(alloc: Global, text: &mut Vec<u8>, row: &Row) -> Result<(), OutOfMemory>
    ensures { OnOk result (text.new.items ≡ text.old.items ++ (codes "," ++ signed_decimal row.now.qty ++ codes "," ++ signed_decimal row.now.value)) }
{
    let qty = row.qty;
    let value = row.value;
    let said = format!(in alloc; ",{qty},{value}")?;
    push_text(text, said.as_str())
}

/// Appends a row as its line of the output has it, without the end of the line.
pub fn push_row(
    alloc: Global,
    text: &mut Vec<u8>,
    trades: &Trades,
    row: &Row,
) -> Result<(), OutOfMemory>
    ensures { OnOk result (text.new.items ≡ text.old.items ++ row_text trades.now.symbols row.now) }
{
    push_front(alloc, text, row)?;
    push_symbol(text, trades, row)?;
    push_amounts(alloc, text, row)
}
