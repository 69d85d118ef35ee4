// Where a field stands in the records of a file.
ghost use Rattle.std.specs.Prelude.{◌≡◌};
ghost use Rattle.csv.specs.Records.{fields_of};
ghost use Rattle.record_faults.specs.Columns.{place_of};

use csv::ByteRecord;
use trade_text::{FileField, is_column_at};

/// The place of a field in a record: that of its first name in the header.
pub fn place_in<F: FileField>(field: F, header: &ByteRecord) -> usize
    ensures { result ≡ place_of F.kind field (fields_of header.now) }
{
    for place in 0..header.len() {
        if is_column_at(field, header, place) {
            return place;
        }
    }
    0
}
