// The records of a file, judged one after the other.
ghost use Rattle.std.specs.Prelude.{◌≡◌, ◌+◌, ◌≤◌, ◌<◌, ◌^◌, ℕ, IfOk, List, false, length, if◌then◌else◌};
ghost use Rattle.std.specs.Option.{is_none};
ghost use Rattle.csv.specs.Machine.{ends_at_end};
ghost use Rattle.csv.specs.Records.{fields_of};
ghost use Rattle.csv.specs.declared.parser.State.{State};
ghost use Rattle.trade_text.specs.Files.{RowsRead, no_rows};
ghost use Rattle.trade_text.specs.Records.{HasLeft, records_left};
ghost use Rattle.record_faults.specs.Alone.{IsNext, IsRecord, at_record};
ghost use Rattle.record_faults.specs.EachRecord.{faults_from};

use csv::{ByteRecord, Reader};
use std::alloc::Global;
use trade_text::{FileField, ReadError, next_record};
use tuple_edge::OutOfMemory;

// What judges the records of a kind of file.
pub(crate) trait Judge<F>: Sized {
    ghost use Rattle.std.specs.Prelude.{◌≡◌, ℕ, IfOk, List};
    ghost use Rattle.csv.specs.Records.{fields_of};
    ghost use Rattle.record_faults.specs.Alone.{IsJudged, IsRecord};
    ghost use Rattle.trade_text.specs.Results.{Read};
    ghost use Rattle.tuple_edge.specs.declared.row.Row.{Row};

    // what is kept from one accepted record to the next
    ghost Kept: { Type 0 };

    // the row of a record of this number, and what is kept for the next one
    ghost row_in: { ℕ → Kept → List (List ℕ) → Read F (Row × Kept) };

    // the judge stands for what is kept
    ghost stands: { Self → Kept → Type 0 };

    // Why the record of this number is refused, if it is.
    fn fault(
        &mut self,
        alloc: Global,
        rec: u64,
        fields: &ByteRecord,
    ) -> Result<Option<ReadError<F>>, OutOfMemory>
        ensures judges { IfOk result (λ fault. (kept : Kept) → stands self.old kept → IsRecord (fields_of fields.now)
            → IsJudged (stands self.new) fault kept (row_in rec kept (fields_of fields.now))) };
}

// The same refusal, of the record of this number.
pub(crate) fn at_record<F: FileField>(rec: u64, error: ReadError<F>) -> ReadError<F>
    ensures { result ≡ at_record rec error }
{
    match error {
        ReadError::Row { .. } => ReadError::Row { rec },
        ReadError::Field { field, .. } => ReadError::Field { rec, field },
        ReadError::Range { field, .. } => ReadError::Range { rec, field },
        error => error,
    }
}

// Why the record of this number is refused, if it is, behind so many that were accepted.
fn next_fault<F: FileField, J: Judge<F>>(
    alloc: Global,
    judge: &mut J,
    rec: u64,
    fields: &ByteRecord,
    count: usize,
    room: usize,
) -> Result<Option<ReadError<F>>, OutOfMemory>
    ensures { IfOk result (λ fault. (so_far : RowsRead J.Kept) → J.stands judge.old so_far.kept → length so_far.rows ≡ count → IsRecord (fields_of fields.now)
        → IsNext J.row_in room (J.stands judge.new) rec count so_far (fields_of fields.now) fault) }
{
    if count < room {
        return judge.fault(alloc, rec, fields);
    }
    Ok(Some(ReadError::TooMany))
}

// How many are accepted with one more record, if it is.
fn count_with<F: FileField>(count: usize, fault: &Option<ReadError<F>>) -> usize
    requires { count < 2 ^ 63 }
    ensures value { result ≡ (if is_none fault.now then count + 1 else count) }
    ensures few { result ≤ count + 1 }
{
    match fault {
        None => count + 1,
        Some(_) => count,
    }
}

// Why each record behind a header is refused, if it is; of the accepted ones so many have room. There are at most so many
// records.
pub(crate) fn faults_under<F: FileField, J: Judge<F>>(
    alloc: Global,
    judge: &mut J,
    reader: &mut Reader<&[u8]>,
    fields: &mut ByteRecord,
    room: usize,
    most: usize,
) -> Result<Vec<Option<ReadError<F>>>, OutOfMemory>
    requires { most < 2 ^ 63 }
    ensures { IfOk result (λ faults. (state : State) (text : List ℕ) (kept : J.Kept) → HasLeft reader.old state text → ends_at_end state ≡ false
        → length (records_left state text) ≤ most → J.stands judge.old kept
        → faults.items ≡ faults_from J.row_in room 2 (no_rows kept) (records_left state text)) }
{
    let mut faults = Vec::new(alloc);
    let mut count = 0;
    for turn in 0..most {
        if !next_record(reader, fields)? {
            return Ok(faults);
        }
        // The header is record 1.
        let fault = next_fault(alloc, judge, turn as u64 + 2, fields, count, room)?;
        count = count_with(count, &fault);
        faults.push(fault)?;
    }
    Ok(faults)
}
