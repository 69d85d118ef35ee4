// What is said of every record of a file that is refused.
ghost use Rattle.std.specs.Prelude.{◌≡◌, ◌++◌, ◌+◌, ◌<◌, ◌≤◌, ◌^◌, ◌∷◌, [], IfOk, List, OnOk, Option, codes, is_none, is_ok, length, nat_lt, option_map, string_bytes, if◌then◌else◌};
ghost use Rattle.input_faults.specs.AllFaults.{AreTold, all_cash_faults, all_trades_faults, cash_head, max_told, records_text, total_text, trades_head};
ghost use Rattle.record_faults.specs.EachRecord.{refusals};
ghost use Rattle.trade_text.specs.Cash.{cash_of};
ghost use Rattle.trade_text.specs.Trades.{trades_of};
ghost use Rattle.trade_text.specs.declared.error.ReadError.{ReadError};
ghost use Rattle.trade_text.specs.declared.error.ReadError.TheVariants as read_error;

use crate::files::{File, cash_line, trades_line};
use crate::names::push_header_notes;
use record_faults::{cash_faults, trade_faults};
use std::alloc::Global;
use trade_text::{
    CashError, CashField, Field, FileField, MAX_INPUTS, ReadError, TradeError, without_mark,
};
use tuple_edge::OutOfMemory;

// Of so many refused records a line is told at most.
const MAX_TOLD: u64 = 1_000;

// What says the line of a refused record.
trait RecordLines<F: FileField> {
    ghost use Rattle.std.specs.Prelude.{◌≡◌, ℕ, IfOk, List, string_bytes};
    ghost use Rattle.trade_text.specs.declared.error.ReadError.{ReadError};

    ghost line_of: { Self → ℕ → ReadError F → List ℕ };

    // The line of the record of this number.
    fn line(&self, alloc: Global, number: u64, error: ReadError<F>) -> Result<String, OutOfMemory>
        ensures { IfOk result (λ said. string_bytes said ≡ line_of self.now number error) };
}

// The lines about trades of a file.
#[derive(Drop)]
struct TradeLines<'a> {
    file: File<'a>,
}

// The lines about movements of a file, of which so many have room.
#[derive(Drop)]
struct CashLines<'a> {
    file: File<'a>,
    room: u32,
}

impl<'a> RecordLines<Field> for TradeLines<'a> {
    ghost use Rattle.std.specs.Prelude.{◌≡◌, IfOk, string_bytes};
    ghost use Rattle.input_faults.specs.AllFaults.{trade_line_at};

    ghost line_of = { λ l number fault. trade_line_at l.file.name.now l.file.text.now number fault };

    #[tactic(auto, using(crate::proofs::AllFacts::trade_line_is))]
    fn line(&self, alloc: Global, number: u64, error: TradeError) -> Result<String, OutOfMemory>
        ensures { IfOk result (λ said. string_bytes said ≡ trade_line_at self.now.file.name.now self.now.file.text.now number error) }
    {
        match error {
            ReadError::TooMany => self
                .file
                .full_line(alloc, number, MAX_INPUTS as u32, "trades"),
            error => {
                let said = trades_line(alloc, &self.file, error)?;
                Ok(said)
            }
        }
    }
}

impl<'a> RecordLines<CashField> for CashLines<'a> {
    ghost use Rattle.std.specs.Prelude.{◌≡◌, IfOk, string_bytes};
    ghost use Rattle.input_faults.specs.AllFaults.{cash_line_at};

    ghost line_of = { λ l number fault. cash_line_at l.file.name.now l.file.text.now l.room number fault };

    #[tactic(auto, using(crate::proofs::AllFacts::cash_line_is))]
    fn line(&self, alloc: Global, number: u64, error: CashError) -> Result<String, OutOfMemory>
        ensures { IfOk result (λ said. string_bytes said ≡ cash_line_at self.now.file.name.now self.now.file.text.now self.now.room number error) }
    {
        match error {
            ReadError::TooMany => self.file.full_line(alloc, number, self.room, "movements"),
            error => {
                let said = cash_line(alloc, &self.file, self.room, error)?;
                Ok(said)
            }
        }
    }
}

// Appends the line of a refused record, unless so many were told before as are told at most.
fn push_line<F: FileField, L: RecordLines<F>>(
    alloc: Global,
    text: &mut String,
    lines: &L,
    told: u64,
    number: u64,
    error: ReadError<F>,
) -> Result<(), OutOfMemory>
    ensures { OnOk result (string_bytes text.new ≡ string_bytes text.old ++ (if nat_lt told max_told then L.line_of lines.now number error ++ codes "\n" else [])) }
{
    if told >= MAX_TOLD {
        return Ok(());
    }
    let line = lines.line(alloc, number, error)?;
    text.push_str(&line)?;
    text.push('\n')?;
    Ok(())
}

// Appends the line of the record of this number, if it is refused, and gives how many are refused with it.
#[tactic(auto, using(crate::proofs::AllFacts::told_none, crate::proofs::AllFacts::told_some))]
fn push_fault<F: FileField, L: RecordLines<F>>(
    alloc: Global,
    text: &mut String,
    lines: &L,
    told: u64,
    number: u64,
    fault: Option<ReadError<F>>,
) -> Result<u64, OutOfMemory>
    requires { told < 2 ^ 63 }
    ensures told { IfOk result (λ after. (before : List (Option (ReadError F))) → number ≡ length before + 2
        → AreTold (λ r. L.line_of lines.now r.number r.fault) before (string_bytes text.old) told
        → AreTold (λ r. L.line_of lines.now r.number r.fault) (before ++ fault ∷ []) (string_bytes text.new) after) }
    ensures few { IfOk result (λ after. after ≤ told + 1) }
{
    match fault {
        None => Ok(told),
        Some(error) => {
            push_line(alloc, text, lines, told, number, error)?;
            Ok(told + 1)
        }
    }
}

// The lines of the records that are refused, as far as they are told, and how many are refused.
fn record_lines<F: FileField, L: RecordLines<F>>(
    alloc: Global,
    lines: &L,
    faults: &[Option<ReadError<F>>],
) -> Result<(String, u64), OutOfMemory>
    requires { length faults.now < 2 ^ 63 }
    ensures { IfOk result (λ told. AreTold (λ r. L.line_of lines.now r.number r.fault) faults.now (string_bytes told.0) told.1) }
{
    let mut text = String::new(alloc);
    let mut told = 0;
    for nth in 0..faults.len() {
        // The header is record 1.
        told = push_fault(alloc, &mut text, lines, told, nth as u64 + 2, faults[nth])?;
    }
    Ok((text, told))
}

// Appends how many records are refused.
fn push_total(text: &mut String, name: &str, count: u64) -> Result<(), OutOfMemory>
    ensures { OnOk result (string_bytes text.new ≡ string_bytes text.old ++ total_text name.now count) }
{
    write!(text, "{name}: refused records: {count}")?;
    if count > MAX_TOLD {
        text.push_str("; the first 1000 stand above")?;
    }
    Ok(())
}

// What is said of the records that are refused, if there are any.
fn records_text<F: FileField, L: RecordLines<F>>(
    alloc: Global,
    name: &str,
    lines: &L,
    faults: &[Option<ReadError<F>>],
) -> Result<Option<String>, OutOfMemory>
    requires { length faults.now < 2 ^ 63 }
    ensures { IfOk result (λ said. option_map string_bytes said ≡ records_text name.now (λ r. L.line_of lines.now r.number r.fault) (refusals 2 faults.now)) }
{
    let (mut text, count) = record_lines(alloc, lines, faults)?;
    if count == 0 {
        return Ok(None);
    }
    push_total(&mut text, name, count)?;
    Ok(Some(text))
}

// What is said of a header of trades.
fn trades_header(alloc: Global, file: &File<'_>) -> Result<String, OutOfMemory>
    ensures { IfOk result (λ said. string_bytes said ≡ trades_head file.now.name.now file.now.text.now read_error.Header) }
{
    let mut said = trades_line(alloc, file, ReadError::Header)?;
    push_header_notes(
        alloc,
        &mut said,
        file,
        &[
            Field::Time,
            Field::Account,
            Field::Symbol,
            Field::Side,
            Field::Qty,
            Field::Price,
        ],
    )?;
    Ok(said)
}

// What is said of a file of trades that is refused whatever its records.
#[tactic(auto, using(crate::proofs::AllFacts::trades_head_is))]
fn trades_head(alloc: Global, file: &File<'_>, error: TradeError) -> Result<String, OutOfMemory>
    ensures { IfOk result (λ said. string_bytes said ≡ trades_head file.now.name.now file.now.text.now error) }
{
    match error {
        ReadError::Header => trades_header(alloc, file),
        error => {
            let said = trades_line(alloc, file, error)?;
            Ok(said)
        }
    }
}

// What is said of a header of movements.
fn cash_header(alloc: Global, file: &File<'_>, room: u32) -> Result<String, OutOfMemory>
    ensures { IfOk result (λ said. string_bytes said ≡ cash_head file.now.name.now file.now.text.now room read_error.Header) }
{
    let mut said = cash_line(alloc, file, room, ReadError::Header)?;
    push_header_notes(
        alloc,
        &mut said,
        file,
        &[CashField::Time, CashField::Account, CashField::Amount],
    )?;
    Ok(said)
}

// What is said of a file of movements that is refused whatever its records.
#[tactic(auto, using(crate::proofs::AllFacts::cash_head_is))]
fn cash_head(
    alloc: Global,
    file: &File<'_>,
    room: u32,
    error: CashError,
) -> Result<String, OutOfMemory>
    ensures { IfOk result (λ said. string_bytes said ≡ cash_head file.now.name.now file.now.text.now room error) }
{
    match error {
        ReadError::Header => cash_header(alloc, file, room),
        error => {
            let said = cash_line(alloc, file, room, error)?;
            Ok(said)
        }
    }
}

/// Everything that is said of the bytes of a trades file, whose last line has no end: a line for each record that is refused,
/// up to the thousandth, and how many are; of a header which names are missing and what stands there. None where the bytes
/// are trades.
pub fn all_trades_faults(
    alloc: Global,
    name: &str,
    bytes: &[u8],
) -> Result<Option<String>, OutOfMemory>
    ensures text { IfOk result (λ said. option_map string_bytes said ≡ all_trades_faults name.now bytes.now) }

    // Nothing is said exactly where the bytes are trades.
    ensures accepted { IfOk result (λ said. is_none said ≡ is_ok (trades_of bytes.now)) }
{
    let text = without_mark(bytes);
    let file = File { name, text };
    match trade_faults(alloc, bytes) {
        Ok(faults) => {
            let found = records_text(alloc, name, &TradeLines { file }, &faults)?;
            Ok(found)
        }
        Err(ReadError::OutOfMemory) => Err(OutOfMemory),
        Err(error) => {
            let said = trades_head(alloc, &file, error)?;
            Ok(Some(said))
        }
    }
}

/// Everything that is said of the bytes of a cash file, of whose movements so many have room, as [`all_trades_faults`] says it
/// of trades.
pub fn all_cash_faults(
    alloc: Global,
    name: &str,
    bytes: &[u8],
    room: u32,
) -> Result<Option<String>, OutOfMemory>
    ensures text { IfOk result (λ said. option_map string_bytes said ≡ all_cash_faults room name.now bytes.now) }

    // Nothing is said exactly where the bytes are movements for which there is room.
    ensures accepted { IfOk result (λ said. is_none said ≡ is_ok (cash_of bytes.now room)) }
{
    let text = without_mark(bytes);
    let file = File { name, text };
    match cash_faults(alloc, bytes, room) {
        Ok(faults) => {
            let found = records_text(alloc, name, &CashLines { file, room }, &faults)?;
            Ok(found)
        }
        Err(ReadError::OutOfMemory) => Err(OutOfMemory),
        Err(error) => {
            let said = cash_head(alloc, &file, room, error)?;
            Ok(Some(said))
        }
    }
}
