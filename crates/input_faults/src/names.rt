// What is said of the names of a header.
ghost use Rattle.std.specs.Prelude.{◌≡◌, ◌++◌, OnOk, codes, count_by, drop, string_bytes, take};
ghost use Rattle.std.specs.List.{flat_map};
ghost use Rattle.csv.specs.Records.{fields_of};
ghost use Rattle.input_faults.specs.AllFaults.{header_notes, max_names, named, names_text, note_of, notes};
ghost use Rattle.trade_text.specs.Columns.{is_column_of};

use crate::files::File;
use crate::header::header_of;
use crate::shown::push_shown;
use csv::ByteRecord;
use std::alloc::Global;
use trade_text::{FileField, is_column_at};
use tuple_edge::OutOfMemory;

// Of so many names of a header each is shown at most.
const MAX_NAMES: usize = 100;

// How many columns of a header are that of a field.
fn columns_of<F: FileField>(field: F, header: &ByteRecord) -> usize
    ensures { result ≡ count_by (is_column_of F.kind field) (fields_of header.now) }
{
    let mut count = 0;
    for place in 0..header.len() {
        if is_column_at(field, header, place) {
            count += 1;
        }
    }
    count
}

// Appends that a name is missing, or stands more than once.
fn push_note(text: &mut String, front: &str, name: &str, count: usize) -> Result<(), OutOfMemory>
    ensures { OnOk result (string_bytes text.new ≡ string_bytes text.old ++ note_of front.now name.now count) }
{
    match count {
        0 => writeln!(text, "{front}: no column is named {name}")?,
        1 => {}
        count => writeln!(text, "{front}: {count} columns are named {name}")?,
    }
    Ok(())
}

// Appends the note on a field.
fn push_field_note<F: FileField>(
    text: &mut String,
    front: &str,
    header: &ByteRecord,
    field: F,
) -> Result<(), OutOfMemory>
    ensures { OnOk result (string_bytes text.new ≡ string_bytes text.old ++ note_of front.now (F.kind.name field) (count_by (is_column_of F.kind field) (fields_of header.now))) }
{
    push_note(text, front, field.name(), columns_of(field, header))
}

// Appends the notes on these fields.
fn push_notes<F: FileField>(
    text: &mut String,
    front: &str,
    header: &ByteRecord,
    fields: &[F],
) -> Result<(), OutOfMemory>
    ensures { OnOk result (string_bytes text.new ≡ string_bytes text.old ++ notes F.kind front.now (fields_of header.now) fields.now) }
{
    for field in fields {
        push_field_note(text, front, header, *field)?;
    }
    Ok(())
}

// Appends a name behind a space.
fn push_name(text: &mut String, name: &[u8]) -> Result<(), OutOfMemory>
    ensures { OnOk result (string_bytes text.new ≡ string_bytes text.old ++ named name.now) }
{
    text.push_str(" ")?;
    push_shown(text, name)?;
    Ok(())
}

// Appends the name at a place of a header, if there is one.
#[tactic(auto, using(crate::proofs::AllFacts::no_name, crate::proofs::AllFacts::one_name))]
fn push_name_at(text: &mut String, header: &ByteRecord, place: usize) -> Result<(), OutOfMemory>
    ensures { OnOk result (string_bytes text.new ≡ string_bytes text.old ++ flat_map named (take 1 (drop place (fields_of header.now)))) }
{
    match header.get(place) {
        None => Ok(()),
        Some(name) => {
            push_name(text, name)?;
            Ok(())
        }
    }
}

// Appends the first names of a header.
fn push_first_names(text: &mut String, header: &ByteRecord) -> Result<(), OutOfMemory>
    ensures { OnOk result (string_bytes text.new ≡ string_bytes text.old ++ flat_map named (take max_names (fields_of header.now))) }
{
    for place in 0..MAX_NAMES {
        push_name_at(text, header, place)?;
    }
    Ok(())
}

// Appends the names that stand in a header.
#[tactic(auto, using(crate::proofs::ShownFacts::three_parts))]
fn push_names(text: &mut String, front: &str, header: &ByteRecord) -> Result<(), OutOfMemory>
    ensures { OnOk result (string_bytes text.new ≡ string_bytes text.old ++ names_text front.now (fields_of header.now)) }
{
    text.push_str(front)?;
    text.push_str(": here stands:")?;
    push_first_names(text, header)?;
    Ok(())
}

// Appends what is said of a header behind its line.
pub(crate) fn push_header_notes<F: FileField>(
    alloc: Global,
    text: &mut String,
    file: &File<'_>,
    fields: &[F],
) -> Result<(), OutOfMemory>
    ensures { OnOk result (string_bytes text.new ≡ string_bytes text.old ++ header_notes F.kind fields.now file.now.name.now file.now.text.now) }
{
    if file.is_headless() {
        return Ok(());
    }
    let header = header_of(alloc, file.text)?;
    let front = file.record_front(alloc, 1)?;
    push_all_notes(text, &front, &header, fields)
}

// Appends the notes and the names behind the end of the line.
#[tactic(auto, using(crate::proofs::ShownFacts::three_parts))]
fn push_all_notes<F: FileField>(
    text: &mut String,
    front: &str,
    header: &ByteRecord,
    fields: &[F],
) -> Result<(), OutOfMemory>
    ensures { OnOk result (string_bytes text.new ≡ string_bytes text.old
        ++ (codes "\n" ++ (notes F.kind front.now (fields_of header.now) fields.now ++ names_text front.now (fields_of header.now)))) }
{
    text.push_str("\n")?;
    push_notes(text, front, header, fields)?;
    push_names(text, front, header)?;
    Ok(())
}
