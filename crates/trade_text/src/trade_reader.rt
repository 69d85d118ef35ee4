// Trades that are read one by one, while they come.
ghost use Rattle.std.specs.Prelude.{◌≡◌, ◌≤◌, ℕ, IfErr, IfOk, IfSome, List, MatchResult, None, Ok, Some, length, true, false};
ghost use Rattle.std.specs.Option.{is_none};
ghost use Rattle.trade_text.specs.Limits.{max_symbols};
ghost use Rattle.trade_text.specs.StreamRecords.{MeetsBound, next_bytes};
ghost use Rattle.trade_text.specs.Streams.{GivesNext, IsFaultOf, Tells, Told, header_bytes, told_error, told_of};
ghost use Rattle.trade_text.specs.TradesView.{IsInputRow};

use crate::columns::trade_columns;
use crate::files::RecordForm;
use crate::record_reader::RecordReader;
use crate::symbols::Symbols;
use crate::trade_file::TradeForm;
use crate::{ReadError, StreamError, TradeError};
use csv::ByteRecord;
use std::alloc::Global;
use std::io::Read;
use tuple_edge::{NUMBER_LIMIT, Row};

/// Trades that are read one by one from a reader. It keeps the symbols, one record, and what the reader gave at once.
#[derive(Drop)]
pub struct TradeReader<R: Read + Drop> {
    records: RecordReader<R>,
    form: TradeForm,
    fields: ByteRecord,
    number: u64,
    over: bool,
    ghost few: { length form.symbols ≤ max_symbols },
}

/// The refusal of a record, or want of memory, which is none.
pub fn refusal(error: TradeError) -> StreamError
    ensures { result ≡ told_error error }
{
    match error {
        ReadError::OutOfMemory => StreamError::OutOfMemory,
        fault => StreamError::Refused(fault),
    }
}

impl<R: Read + Drop> TradeReader<R> {
    /// A reader behind the header of what a source gives. A byte order mark at its front is dropped, once.
    pub fn open(alloc: Global, source: R) -> Result<TradeReader<R>, StreamError>
        ensures opens { IfOk result (λ t. (bytes : List ℕ) → R.remaining source ≡ Some bytes → Tells R.remaining t.records t.number t.form (told_of bytes)) }
        ensures refused { IfErr result (λ e. (bytes : List ℕ) → R.remaining source ≡ Some bytes → IsFaultOf e (told_of bytes)) }

        // A header of more bytes than a file may have is refused as record 1.
        ensures bound { (bytes : List ℕ) → R.remaining source ≡ Some bytes → MeetsBound result 1 (header_bytes bytes) }
        ensures goes_on { IfOk result (λ t. t.over ≡ false) }
    {
        let mut fields = ByteRecord::new(alloc);
        let mut records = RecordReader::open(alloc, source)?;
        if !records.read(1, &mut fields)? {
            return Err(StreamError::Refused(ReadError::Header));
        }
        let columns = match trade_columns(&fields) {
            Ok(columns) => columns,
            Err(error) => return Err(refusal(error)),
        };
        let symbols = Symbols::new(alloc);
        Ok(TradeReader {
            records,
            form: TradeForm { columns, symbols },
            fields,
            number: 2,
            over: false,
        })
    }

    /// The row of the next trade, as soon as its record is whole; None where the input has ended. After the end and after an
    /// error there is nothing more.
    pub fn next(&mut self, alloc: Global) -> Result<Option<Row>, StreamError>
        ensures gives { (told : Told) → self.old.over ≡ false → Tells R.remaining self.old.records self.old.number self.old.form told
            → GivesNext R.remaining result self.new.records self.new.number self.new.form told }
        ensures within { IfOk result (λ next. IfSome next IsInputRow) }

        // A record of more bytes than a file may have is refused, and that of a row has no more.
        ensures bound { (told : Told) → self.old.over ≡ false → (t : Tells R.remaining self.old.records self.old.number self.old.form told)
            → MeetsBound result self.old.number (next_bytes t.has.state t.has.text) }

        // Nothing is given behind the end or an error.
        ensures over { MatchResult result (λ next. self.new.over ≡ is_none next) (λ _. self.new.over ≡ true) }
        ensures nothing { self.old.over ≡ true → result ≡ Ok None }
    {
        if self.over {
            return Ok(None);
        }
        self.over = true;
        if self.number >= NUMBER_LIMIT {
            return Err(StreamError::OutOfMemory);
        }
        if !self.records.read(self.number, &mut self.fields)? {
            return Ok(None);
        }
        match self.form.row(alloc, self.number, &self.fields) {
            Ok(row) => {
                self.number += 1;
                self.over = false;
                Ok(Some(row))
            }
            Err(error) => Err(refusal(error)),
        }
    }
}
