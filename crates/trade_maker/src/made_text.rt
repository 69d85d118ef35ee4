// The text of made trades.
ghost use Rattle.std.specs.Prelude.{ℕ, ◌≡◌, ◌++◌, ◌∷◌, ◌<◌, ◌≤◌, [], IfOk, OnOk, codes};
ghost use Rattle.std.specs.Fmt.{decimal};
ghost use Rattle.trade_maker.specs.Limits.{max_inputs, states};
ghost use Rattle.trade_maker.specs.MadeText.{trade_fields, record_line, made_text, money, side_text, two_digits};
ghost use Rattle.trade_maker.specs.ReadBack.{SaysTrades};

use crate::generator::{Generator, MadeTrade};
use itoa::Buffer;
use std::alloc::Global;
use tuple_edge::OutOfMemory;

// The names of the fields.
const HEADER: &[u8] = b"time,account,symbol,side,qty,price\n";

// The most bytes of a line: a time of 6 digits, an account of 3, a symbol of 3, a side, a quantity of 4, a
// price of 6, and six that end these.
const MAX_LINE_BYTES: usize = 29;

// Appends a number and the byte that ends it.
fn push_number(
    out: &mut Vec<u8>,
    digits: &mut Buffer,
    number: u64,
    end: u8,
) -> Result<(), OutOfMemory>
    ensures { OnOk result (out.new.items ≡ out.old.items ++ decimal number ++ end ∷ []) }
{
    out.extend_from_slice(digits.format(number).as_bytes())?;
    out.push(end)?;
    Ok(())
}

// Appends two digits and the byte that ends them.
fn push_two_digits(out: &mut Vec<u8>, number: u64, end: u8) -> Result<(), OutOfMemory>
    requires { number < 100 }
    ensures { OnOk result (out.new.items ≡ out.old.items ++ two_digits number ++ end ∷ []) }
{
    let tens = b'0' + (number / 10) as u8;
    let units = b'0' + (number % 10) as u8;
    out.extend_from_slice(&[tens, units, end])?;
    Ok(())
}

// Appends the side and the comma behind it.
fn push_side(out: &mut Vec<u8>, is_buy: bool) -> Result<(), OutOfMemory>
    ensures { OnOk result (out.new.items ≡ out.old.items ++ side_text is_buy ++ codes ",") }
{
    out.extend_from_slice(if is_buy { b"B," } else { b"S," })?;
    Ok(())
}

// Appends money and the end of the line.
fn push_money(out: &mut Vec<u8>, digits: &mut Buffer, cents: u64) -> Result<(), OutOfMemory>
    ensures { OnOk result (out.new.items ≡ out.old.items ++ money cents ++ codes "\n") }
{
    push_number(out, digits, cents / 100, b'.')?;
    push_two_digits(out, cents % 100, b'\n')?;
    Ok(())
}

// Appends the line of a trade.
fn push_trade(out: &mut Vec<u8>, digits: &mut Buffer, trade: &MadeTrade) -> Result<(), OutOfMemory>
    requires { trade.now.symbol < 100 }
    ensures { OnOk result (out.new.items ≡ out.old.items ++ record_line (trade_fields trade.now)) }
{
    push_number(out, digits, trade.time, b',')?;
    push_number(out, digits, trade.account, b',')?;
    out.push(b'S')?;
    push_two_digits(out, trade.symbol, b',')?;
    push_side(out, trade.is_buy)?;
    push_number(out, digits, trade.qty, b',')?;
    push_money(out, digits, trade.cents)?;
    Ok(())
}

/// The text of so many made trades, the same for the same start: the names of the fields, and a line for
/// each trade. It reads back as trades.
pub fn make_trades(alloc: Global, start: u32, count: u32) -> Result<Vec<u8>, OutOfMemory>
    requires start { start < states }
    requires count { count ≤ max_inputs }
    ensures text { IfOk result (λ bytes. bytes.items ≡ made_text start count) }
    ensures reads_back { IfOk result (λ bytes. SaysTrades bytes.items count) }
{
    let mut generator = Generator::new(start);
    let mut digits = Buffer::new();
    let mut out = Vec::new(alloc);
    out.reserve(HEADER.len() + count as usize * MAX_LINE_BYTES)?;
    out.extend_from_slice(HEADER)?;
    for index in 0..count {
        let trade = generator.next_trade(index + 1);
        push_trade(&mut out, &mut digits, &trade)?;
    }
    Ok(out)
}

/// A law: what is made reads back as trades, one for each that was asked for, whatever the start.
pub fn made_trades_read_back()
    ensures { (start count : ℕ) → count ≤ max_inputs → SaysTrades (made_text start count) count }
{}
