// Records as csv writes them.
ghost use Rattle.std.specs.Prelude.{◌≡◌, ◌++◌, ◌∷◌, [], IfOk, OnOk};
ghost use Rattle.csv.specs.Records.{fields_of};
ghost use Rattle.csv.specs.Writing.{default_writer, row_text};
ghost use Rattle.record_faults.specs.Alone.{lone_text};
ghost use Rattle.record_faults.specs.Written.{guard};

use csv::{ByteRecord, WriterBuilder};
use std::alloc::Global;
use trade_text::starts_with_mark;
use tuple_edge::OutOfMemory;

// The text of a record, as csv writes it.
fn row_bytes(alloc: Global, fields: &ByteRecord) -> Result<Vec<u8>, OutOfMemory>
    ensures { IfOk result (λ text. text.items ≡ row_text default_writer (fields_of fields.now)) }
{
    let mut writer = WriterBuilder::new().from_writer(Vec::new(alloc));
    match writer.write_byte_record(fields) {
        Ok(()) => {}
        // A writer into memory fails for want of memory alone.
        Err(_) => return Err(OutOfMemory),
    }
    match writer.into_inner() {
        Ok(text) => Ok(text),
        Err(_) => Err(OutOfMemory),
    }
}

/// Appends a record, as csv writes it.
pub fn push_row(alloc: Global, text: &mut Vec<u8>, fields: &ByteRecord) -> Result<(), OutOfMemory>
    ensures { OnOk result (text.new.items ≡ text.old.items ++ row_text default_writer (fields_of fields.now)) }
{
    let row = row_bytes(alloc, fields)?;
    text.extend_from_slice(&row)?;
    Ok(())
}

// The text of a header behind an empty line.
pub(crate) fn lone_header(alloc: Global, header: &ByteRecord) -> Result<Vec<u8>, OutOfMemory>
    ensures { IfOk result (λ text. text.items ≡ lone_text (fields_of header.now ∷ [])) }
{
    let mut text = Vec::new(alloc);
    text.push(b'\n')?;
    push_row(alloc, &mut text, header)?;
    Ok(text)
}

// The same with a record behind it, of which the front is there.
pub(crate) fn lone_record(
    alloc: Global,
    front: &[u8],
    fields: &ByteRecord,
) -> Result<Vec<u8>, OutOfMemory>
    ensures { IfOk result (λ text. text.items ≡ front.now ++ row_text default_writer (fields_of fields.now)) }
{
    let mut text = Vec::from_slice(alloc, front)?;
    push_row(alloc, &mut text, fields)?;
    Ok(text)
}

/// The text of a file whose first record is the header: it has this text, as csv writes its records. Behind an empty line where
/// the text begins with a byte order mark, which would be dropped else.
pub fn guarded(alloc: Global, rows: &[u8]) -> Result<Vec<u8>, OutOfMemory>
    ensures { IfOk result (λ text. text.items ≡ guard rows.now ++ rows.now) }
{
    let mut text = Vec::new(alloc);
    if starts_with_mark(rows) {
        text.push(b'\n')?;
    }
    text.extend_from_slice(rows)?;
    Ok(text)
}
