// The rows of the records that are refused.
ghost use Rattle.std.specs.Prelude.{◌≡◌, ◌++◌, ◌<◌, ◌∷◌, [], IfOk, OnOk, codes, length, slice_index_or, string_bytes};
ghost use Rattle.csv.specs.Records.{fields_of, partial_of};
ghost use Rattle.trade_text.specs.Kinds.{trade_name};
ghost use Rattle.trade_sift.specs.Sifted.{reason, reject_row, rejects_header};

use csv::ByteRecord;
use input_faults::{trade_form, trade_range};
use std::alloc::Global;
use trade_text::{Field, FileField, MAX_INPUTS, ReadError, TradeError};
use tuple_edge::OutOfMemory;

// What may stand in a field, behind its name.
fn field_reason(alloc: Global, field: Field, expected: &str) -> Result<String, OutOfMemory>
    ensures { IfOk result (λ said. string_bytes said ≡ trade_name field ++ (codes ": here may stand: " ++ expected.now)) }
{
    let name = field.name();
    let said = format!(in alloc; "{name}: here may stand: {expected}")?;
    Ok(said)
}

// Why a record is refused, in words, under a header with so many names.
#[tactic(auto, unfolding(crate::specs::Sifted::reason))]
fn reason(
    alloc: Global,
    names: usize,
    fields: &ByteRecord,
    error: TradeError,
) -> Result<String, OutOfMemory>
    ensures { IfOk result (λ said. string_bytes said ≡ reason names (fields_of fields.now) error) }
{
    match error {
        ReadError::Row { .. } => {
            let count = fields.len();
            let said = format!(in alloc; "{count} fields, the header has {names}")?;
            Ok(said)
        }
        ReadError::Field { field, .. } => field_reason(alloc, field, trade_form(field)),
        ReadError::Range { field, .. } => field_reason(alloc, field, trade_range(field)),
        ReadError::TooMany => {
            let said = format!(in alloc; "at most {MAX_INPUTS} trades may be")?;
            Ok(said)
        }
        _ => Ok(String::new(alloc)),
    }
}

// Appends the field at a place of a record to another one.
fn push_field_at(row: &mut ByteRecord, fields: &ByteRecord, place: usize) -> Result<(), OutOfMemory>
    requires place { place < length (fields_of fields.now) }
    requires whole { partial_of row.old ≡ [] }
    ensures fields { OnOk result (fields_of row.new ≡ fields_of row.old ++ slice_index_or (fields_of fields.now) place [] ∷ []) }
    ensures whole { OnOk result (partial_of row.new ≡ []) }
{
    match fields.get(place) {
        None => Ok(()),
        Some(field) => {
            row.push_field(field)?;
            Ok(())
        }
    }
}

// Appends the fields of a record to another one.
fn push_fields(row: &mut ByteRecord, fields: &ByteRecord) -> Result<(), OutOfMemory>
    requires { partial_of row.old ≡ [] }
    ensures { OnOk result (fields_of row.new ≡ fields_of row.old ++ fields_of fields.now) }
{
    for place in 0..fields.len() {
        push_field_at(row, fields, place)?;
    }
    Ok(())
}

// A record behind two fields.
fn behind_two(
    alloc: Global,
    first: &[u8],
    second: &[u8],
    fields: &ByteRecord,
) -> Result<ByteRecord, OutOfMemory>
    ensures { IfOk result (λ row. fields_of row ≡ first.now ∷ second.now ∷ fields_of fields.now) }
{
    let mut row = ByteRecord::new(alloc);
    row.push_field(first)?;
    row.push_field(second)?;
    push_fields(&mut row, fields)?;
    Ok(row)
}

// The header of the refused records.
pub(crate) fn rejects_header(alloc: Global, header: &ByteRecord) -> Result<ByteRecord, OutOfMemory>
    ensures { IfOk result (λ row. fields_of row ≡ rejects_header (fields_of header.now)) }
{
    behind_two(alloc, b"line", b"reason", header)
}

// A record that is refused, behind its line and why.
pub(crate) fn reject_row(
    alloc: Global,
    line: u64,
    names: usize,
    fields: &ByteRecord,
    error: TradeError,
) -> Result<ByteRecord, OutOfMemory>
    ensures { IfOk result (λ row. fields_of row ≡ reject_row line names (fields_of fields.now) error) }
{
    let number = format!(in alloc; "{line}")?;
    let why = reason(alloc, names, fields, error)?;
    behind_two(alloc, number.as_bytes(), why.as_bytes(), fields)
}
