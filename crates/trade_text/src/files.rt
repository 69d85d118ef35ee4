// A file of rows: its header, and the records behind it, one after the other.
ghost use Rattle.std.specs.Prelude.{◌≡◌, ◌<◌, ◌≤◌, ◌^◌, ℕ, All, IfErr, IfOk, List, false, length};
ghost use Rattle.csv.specs.Machine.{ends_at_end};
ghost use Rattle.csv.specs.Records.{fields_of};
ghost use Rattle.csv.specs.declared.parser.State.{State};
ghost use Rattle.trade_text.specs.Files.{GivesRows, IsOpen, file_of, located, rows_of, text_at};
ghost use Rattle.trade_text.specs.Records.{HasLeft, records_left};
ghost use Rattle.trade_text.specs.Refusals.{IsRefusalOf};

use crate::fields::{Fault, trimmed};
use crate::records::{next_record, open_records, starts_with_mark, without_mark};
use crate::{FileField, ReadError};
use csv::{ByteRecord, Reader};
use std::alloc::Global;
use tuple_edge::Row;

/// The most bytes that a file of trades or of cash movements may have.
pub const MAX_INPUT_BYTES: u64 = 16_777_216;

/// The most trades, and the most trades and cash movements together.
pub const MAX_INPUTS: usize = 100_000;

/// What reads the rows of a kind of file, record by record.
pub trait RecordForm<F>: Sized {
    ghost use Rattle.std.specs.Prelude.{◌≡◌, ℕ, IfOk, List};
    ghost use Rattle.csv.specs.Records.{fields_of};
    ghost use Rattle.trade_text.specs.Refusals.{Reads};
    ghost use Rattle.trade_text.specs.Results.{Read};
    ghost use Rattle.tuple_edge.specs.declared.row.Row.{Row};

    // the row of a record of this number, and what is kept for the next one
    ghost row_in: { ℕ → Self → List (List ℕ) → Read F (Row × Self) };

    // what holds from record to record
    ghost stands: { Self → Type 0 };

    // what holds of each row
    ghost within: { Row → Type 0 };

    /// Reads the row of a record of this number.
    fn row(&mut self, alloc: Global, rec: u64, fields: &ByteRecord) -> Result<Row, ReadError<F>>
        requires { stands self.old }
        ensures reads { Reads result self.new (row_in rec self.old (fields_of fields.now)) }
        ensures within { IfOk result within }
        ensures stands { stands self.new };
}

// The value of a field of a record, or why and where it is refused.
pub(crate) fn located<T, F: FileField>(
    rec: u64,
    field: F,
    value: Result<T, Fault>,
) -> Result<T, ReadError<F>>
    ensures { result ≡ located rec field value }
{
    match value {
        Ok(value) => Ok(value),
        Err(Fault::Form) => Err(ReadError::Field { rec, field }),
        Err(Fault::Range) => Err(ReadError::Range { rec, field }),
    }
}

/// The field at a place of a record, without blanks at its ends.
#[inline(always)]
pub fn text_at<'a>(fields: &'a ByteRecord, place: usize) -> &'a [u8]
    ensures { result.now ≡ text_at (fields_of fields.now) place }
{
    match fields.get(place) {
        None => trimmed(&[]),
        Some(text) => trimmed(text),
    }
}

/// Opens a file behind its header, whose fields are given. A byte order mark at the front is dropped, once.
#[tactic(auto, unfolding(crate::specs::Files::file_of))]
pub fn open_file<'a, F: FileField>(
    alloc: Global,
    bytes: &'a [u8],
    header: &mut ByteRecord,
) -> Result<Reader<&'a [u8]>, ReadError<F>>
    ensures opens { IfOk result (λ reader. IsOpen (file_of {F = F} bytes.now) (fields_of header.new) reader) }
    ensures refused { IfErr result (λ error. IsRefusalOf error (file_of {F = F} bytes.now)) }
{
    if bytes.len() as u64 > MAX_INPUT_BYTES {
        return Err(ReadError::TooLong {
            bytes: bytes.len() as u64,
        });
    }
    if starts_with_mark(without_mark(bytes)) {
        return Err(ReadError::Header);
    }
    let mut reader = open_records(alloc, bytes);
    if !next_record(&mut reader, header)? {
        return Err(ReadError::Header);
    }
    Ok(reader)
}

// Reads the rows of the records behind the header, which are at most so many.
pub(crate) fn rows_of<F: FileField, R: RecordForm<F>>(
    alloc: Global,
    form: &mut R,
    reader: &mut Reader<&[u8]>,
    fields: &mut ByteRecord,
    room: usize,
) -> Result<Vec<Row>, ReadError<F>>
    requires stands { R.stands form.old }
    requires room { room < 2 ^ 32 }
    ensures gives { (state : State) (text : List ℕ) → HasLeft reader.old state text → ends_at_end state ≡ false
        → GivesRows result form.new (rows_of R.row_in room form.old (records_left state text)) }
    ensures few { IfOk result (λ rows. length rows.items ≤ room) }
    ensures within { IfOk result (λ rows. All R.within rows.items) }
    ensures stands { R.stands form.new }
{
    let mut rows = Vec::new(alloc);
    for turn in 0..room {
        if !next_record(reader, fields)? {
            return Ok(rows);
        }
        // The header is record 1.
        let row = form.row(alloc, turn as u64 + 2, fields)?;
        rows.push(row)?;
    }
    if next_record(reader, fields)? {
        return Err(ReadError::TooMany);
    }
    Ok(rows)
}
