// The header of a file of records.
ghost use Rattle.std.specs.Prelude.{◌≡◌, IfOk};
ghost use Rattle.csv.specs.Records.{fields_of};
ghost use Rattle.input_faults.specs.Records.{names_in};

use csv::ByteRecord;
use std::alloc::Global;
use trade_text::{next_record, open_records};
use tuple_edge::OutOfMemory;

// The first record of a text. A text without a record has one without fields.
pub(crate) fn header_of(alloc: Global, text: &[u8]) -> Result<ByteRecord, OutOfMemory>
    ensures { IfOk result (λ header. fields_of header ≡ names_in text.now) }
{
    let mut header = ByteRecord::new(alloc);
    let mut reader = open_records(alloc, text);
    if next_record(&mut reader, &mut header)? {
        return Ok(header);
    }
    Ok(ByteRecord::new(alloc))
}
