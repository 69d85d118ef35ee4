// The records that a reader gives, one after the other, in bounded memory.
ghost use Rattle.csv.specs.Machine.{next_record};
ghost use Rattle.csv.specs.Reading.{default_config, strip_bom};
ghost use Rattle.csv.specs.Records.{fields_of};
ghost use Rattle.csv.specs.declared.parser.State.{State};
ghost use Rattle.std.specs.Prelude.{◌≡◌, [], ℕ, IfErr, IfOk, List, Some};
ghost use Rattle.trade_text.specs.StreamRecords.{MeetsBound, OpensRecords, StandsAt, TakesOne, next_bytes};
ghost use Rattle.trade_text.specs.Streams.{IsFaultOf, Told};

use crate::record_parser::RecordParser;
use crate::stream_bytes::StreamBytes;
use crate::{MAX_INPUT_BYTES, StreamError};
use csv::ByteRecord;
use std::alloc::Global;
use std::io::Read;

// Reads records one by one. It holds what its reader gave at once, and the front of one record.
#[derive(Drop)]
pub(crate) struct RecordReader<R: Read + Drop> {
    bytes: StreamBytes<R>,
    parser: RecordParser,
}

impl<R: Read + Drop> RecordReader<R> {
    // The records of a source. A byte order mark at its front is dropped, once.
    pub(crate) fn open(alloc: Global, source: R) -> Result<RecordReader<R>, StreamError>
        ensures { (text : List ℕ) → R.remaining source ≡ Some text → OpensRecords R.remaining result (strip_bom text) }
    {
        Ok(RecordReader {
            bytes: StreamBytes::open(alloc, source)?,
            parser: RecordParser::new(alloc),
        })
    }

    // Reads the next record, which has this number, in place of the last one, if there is one.
    pub(crate) fn read(&mut self, number: u64, fields: &mut ByteRecord) -> Result<bool, StreamError>
        ensures takes { (s : State) (text : List ℕ) → StandsAt R.remaining self.old s text
            → IfOk result (λ found. TakesOne R.remaining (next_record default_config s [] [] text) found (fields_of fields.new) self.new) }
        ensures failed { IfErr result (λ e. (told : Told) → IsFaultOf e told) }
        ensures bound { (s : State) (text : List ℕ) → StandsAt R.remaining self.old s text → MeetsBound result number (next_bytes s text) }
    {
        fields.clear();
        self.parser.begin();
        for _ in 0..MAX_INPUT_BYTES {
            match self.bytes.next()? {
                None => return self.parser.take_end(fields),
                Some(byte) => {
                    if self.parser.take(byte, fields)? {
                        return Ok(true);
                    }
                }
            }
        }
        match self.bytes.next()? {
            None => self.parser.take_end(fields),
            Some(_) => Err(StreamError::TooLong { rec: number }),
        }
    }
}
