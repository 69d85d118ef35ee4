// A file of trades, parted in two.
ghost use Rattle.std.specs.Prelude.{◌≡◌, ◌++◌, ◌<◌, ◌∷◌, [], ℕ, IfErr, IfOk, List, None, Ok, OnOk, false, length, slice_index_or};
ghost use Rattle.csv.specs.Machine.{ends_at_end};
ghost use Rattle.csv.specs.Records.{fields_of};
ghost use Rattle.csv.specs.Writing.{default_writer, row_text};
ghost use Rattle.csv.specs.declared.parser.State.{State};
ghost use Rattle.record_faults.specs.EachRecord.{accepted};
ghost use Rattle.record_faults.specs.Written.{rows_text};
ghost use Rattle.trade_sift.specs.Laws.{IsAccepted};
ghost use Rattle.trade_sift.specs.Sifted.{line_of, parted, reject_row, reject_rows, rejects_header};
ghost use Rattle.trade_text.specs.Records.{HasLeft, records_left};
ghost use Rattle.trade_text.specs.Refusals.{IsRefusalOf};

use crate::rejects::{reject_row, rejects_header};
use csv::{ByteRecord, Reader};
use input_faults::RecordLines;
use record_faults::{guarded, push_row, trade_faults};
use std::alloc::Global;
use std::marker::Model;
use trade_text::{TradeError, next_record, open_file, without_mark};
use tuple_edge::OutOfMemory;

/// A file of trades, parted in two. Contracts see both texts.
#[derive(Drop)]
pub struct Sifted {
    kept: Vec<u8>,
    rejects: Vec<u8>,
}

impl Model for Sifted {
    ghost use Rattle.trade_sift.specs.Sifted.{Parts};

    ghost Value = { Parts };

    ghost view = { λ s. record { kept = s.kept.items; rejects = s.rejects.items } };

    ghost invariant = { λ s. Unit {0} };
}

impl Sifted {
    /// The header and the records that are accepted, as csv writes them.
    pub fn kept(&self) -> &[u8]
        ensures { result.now ≡ self.now.kept }
    {
        &self.kept
    }

    /// The records that are refused, each behind its line and why, under a header of their own.
    pub fn rejects(&self) -> &[u8]
        ensures { result.now ≡ self.now.rejects }
    {
        &self.rejects
    }

    /// Both texts.
    pub fn into_texts(self) -> (Vec<u8>, Vec<u8>)
        ensures kept { result.0.items ≡ self.kept }
        ensures rejects { result.1.items ≡ self.rejects }
    {
        (self.kept, self.rejects)
    }
}

// Both texts while they are written.
#[derive(Drop)]
struct Texts {
    kept: Vec<u8>,
    rejects: Vec<u8>,
}

// Appends a record that is refused, behind its line and why.
fn push_reject(
    alloc: Global,
    rejects: &mut Vec<u8>,
    lines: &mut RecordLines<'_>,
    names: usize,
    number: u64,
    fields: &ByteRecord,
    error: TradeError,
) -> Result<(), OutOfMemory>
    ensures rejects { OnOk result (rejects.new.items ≡ rejects.old.items ++ row_text default_writer (reject_row (line_of lines.old number) names (fields_of fields.now) error)) }
    ensures text { lines.new ≡ lines.old }
{
    let line = lines.line(number);
    let row = reject_row(alloc, line, names, fields, error)?;
    push_row(alloc, rejects, &row)
}

// Appends a record to the part in which it stands, by why it is refused, if it is.
fn push_record(
    alloc: Global,
    texts: &mut Texts,
    lines: &mut RecordLines<'_>,
    names: usize,
    number: u64,
    fields: &ByteRecord,
    fault: Option<TradeError>,
) -> Result<(), OutOfMemory>
    ensures kept { OnOk result (texts.new.kept.items ≡ texts.old.kept.items ++ rows_text (accepted (fault ∷ []) (fields_of fields.now ∷ []))) }
    ensures rejects { OnOk result (texts.new.rejects.items ≡ texts.old.rejects.items ++ rows_text (reject_rows lines.old names number (fault ∷ []) (fields_of fields.now ∷ []))) }
    ensures text { lines.new ≡ lines.old }
{
    match fault {
        None => push_row(alloc, &mut texts.kept, fields),
        Some(error) => push_reject(
            alloc,
            &mut texts.rejects,
            lines,
            names,
            number,
            fields,
            error,
        ),
    }
}

// Why the record at a place is refused, if it is.
fn fault_at(faults: &[Option<TradeError>], place: usize) -> Option<TradeError>
    requires { place < length faults.now }
    ensures { result ≡ slice_index_or faults.now place None }
{
    faults[place]
}

// Both parts of the records behind a header, which were begun with it.
fn push_records(
    alloc: Global,
    texts: &mut Texts,
    lines: &mut RecordLines<'_>,
    names: usize,
    reader: &mut Reader<&[u8]>,
    faults: &[Option<TradeError>],
) -> Result<(), OutOfMemory>
    ensures kept { OnOk result ((state : State) (left : List ℕ) → HasLeft reader.old state left → ends_at_end state ≡ false
        → texts.new.kept.items ≡ texts.old.kept.items ++ rows_text (accepted faults.now (records_left state left))) }
    ensures rejects { OnOk result ((state : State) (left : List ℕ) → HasLeft reader.old state left → ends_at_end state ≡ false
        → texts.new.rejects.items ≡ texts.old.rejects.items ++ rows_text (reject_rows lines.old names 2 faults.now (records_left state left))) }
{
    let mut fields = ByteRecord::new(alloc);
    // The header is record 1.
    let mut number = 2;
    for nth in 0..faults.len() {
        if !next_record(reader, &mut fields)? {
            return Ok(());
        }
        let fault = fault_at(faults, nth);
        push_record(alloc, texts, lines, names, number, &fields, fault)?;
        number += 1;
    }
    Ok(())
}

// The parts of a file without records behind this header.
fn begun(alloc: Global, header: &ByteRecord) -> Result<Texts, OutOfMemory>
    ensures kept { IfOk result (λ texts. texts.kept.items ≡ rows_text (fields_of header.now ∷ [])) }
    ensures rejects { IfOk result (λ texts. texts.rejects.items ≡ rows_text (rejects_header (fields_of header.now) ∷ [])) }
{
    let mut kept = Vec::new(alloc);
    push_row(alloc, &mut kept, header)?;
    let mut rejects = Vec::new(alloc);
    push_row(alloc, &mut rejects, &rejects_header(alloc, header)?)?;
    Ok(Texts { kept, rejects })
}

/// Parts the records of a file of trades: those that `flux` accepts, as csv writes them under their header, and those that it
/// refuses, each behind its line and why. A file whose header is refused, or that is too long, is refused so.
#[tactic(auto, using(crate::proofs::Parts::refused_first_of_all, crate::proofs::Parts::refused_later))]
pub fn sift_trades(alloc: Global, bytes: &[u8]) -> Result<Sifted, TradeError>
    ensures parts { IfOk result (λ sifted. parted bytes.now ≡ Ok sifted) }
    ensures accepted { IfOk result (λ sifted. IsAccepted sifted.kept) }

    // Want of memory alone is no refusal of the file.
    ensures refused { IfErr result (λ error. IsRefusalOf error (parted bytes.now)) }
{
    let faults = trade_faults(alloc, bytes)?;
    let mut header = ByteRecord::new(alloc);
    let mut reader = open_file(alloc, bytes, &mut header)?;
    let mut texts = begun(alloc, &header)?;
    let names = header.len();
    push_records(
        alloc,
        &mut texts,
        &mut RecordLines::new(without_mark(bytes)),
        names,
        &mut reader,
        &faults,
    )?;
    let kept = guarded(alloc, &texts.kept)?;
    Ok(Sifted {
        kept,
        rejects: texts.rejects,
    })
}
