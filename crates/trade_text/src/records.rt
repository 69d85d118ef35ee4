// The records of a text, one after the other.
ghost use Rattle.std.specs.Prelude.{◌≡◌, ℕ, List, [], IfOk};
ghost use Rattle.csv.specs.Machine.{next_record};
ghost use Rattle.csv.specs.Reading.{default_config, strip_bom};
ghost use Rattle.csv.specs.Records.{fields_of};
ghost use Rattle.csv.specs.declared.parser.State.{State};
ghost use Rattle.csv.specs.declared.parser.State.TheVariants as state;
ghost use Rattle.trade_text.specs.Records.{HasLeft, TakesNext, starts_with_mark};

use csv::{ByteRecord, Reader, ReaderBuilder};
use std::alloc::Global;
use tuple_edge::OutOfMemory;

/// Whether a text begins with a byte order mark.
pub fn starts_with_mark(text: &[u8]) -> bool
    ensures { result ≡ starts_with_mark text.now }
{
    text.len() >= 3 && text[0] == 0xef && text[1] == 0xbb && text[2] == 0xbf
}

/// A text without the byte order mark at its front, if it has one.
pub fn without_mark(text: &[u8]) -> &[u8]
    ensures { result.now ≡ strip_bom text.now }
{
    if !starts_with_mark(text) {
        return text;
    }
    let (_, rest) = text.split_at(3);
    rest
}

/// A reader of the records of a text. It drops a mark at the front of its own accord.
pub fn open_records(alloc: Global, text: &[u8]) -> Reader<&[u8]>
    ensures { HasLeft result state.StartRecord (strip_bom text.now) }
{
    ReaderBuilder::new()
        .has_headers(false)
        .flexible(true)
        .from_reader(alloc, text)
}

/// Reads the next record in place of the last one, if there is one.
pub fn next_record(reader: &mut Reader<&[u8]>, fields: &mut ByteRecord) -> Result<bool, OutOfMemory>
    ensures { IfOk result (λ found. (s : State) (text : List ℕ) → HasLeft reader.old s text
        → TakesNext (next_record default_config s [] [] text) found (fields_of fields.new) reader.new) }
{
    match reader.read_byte_record(fields) {
        Ok(found) => Ok(found),
        // A flexible reader of bytes in memory fails for want of memory alone.
        Err(_) => Err(OutOfMemory),
    }
}
