// Where the parsing of trades stands: what is known of the records before, and what came of the one at hand.
ghost use Rattle.std.specs.Prelude.{◌≡◌, ◌+◌, ◌≤◌, ◌<◌, ◌∷◌, [], ℕ, IfErr, IfOk, IfSome, List, OnOk, Some, true, false, length};
ghost use Rattle.csv.specs.Machine.{ends_at_end, next_record};
ghost use Rattle.csv.specs.Reading.{default_config};
ghost use Rattle.csv.specs.Records.{fields_of};
ghost use Rattle.csv.specs.declared.parser.State.{State};
ghost use Rattle.trade_text.specs.Limits.{max_symbols};
ghost use Rattle.trade_stream.specs.Pushed.{AtRecord, Grows, IsReady, Learns, LeavesFront, TakesMark, TellsLast, TellsLong, TellsNoLength, TellsOn, has_header, is_of_mark, standing_after, standing_on, told_behind, told_by_header, told_by_trade, told_found};
ghost use Rattle.trade_text.specs.Streams.{IsFaultOf, behind_row, told_of};
ghost use Rattle.trade_text.specs.TradesView.{IsInputRow};
ghost use Rattle.trade_text.specs.declared.error.StreamError.TheVariants as stream;

use crate::stage::Stage;
use csv::ByteRecord;
use std::alloc::Global;
use trade_text::{
    MAX_INPUT_BYTES, ReadError, RecordForm, RecordParser, StreamError, Symbols, TradeColumns,
    TradeForm, refusal, trade_columns,
};
use tuple_edge::{NUMBER_LIMIT, Row};

// The bytes of a byte order mark.
const MARK: [u8; 3] = [0xef, 0xbb, 0xbf];

// What came of the record at hand, its number, how many bytes of it came, with the empty lines before it, and what is known of
// the records before it: where the fields stand, and the symbols.
#[derive(Drop)]
pub(crate) struct Parsing {
    pub(crate) stage: Stage,
    pub(crate) record: RecordParser,
    pub(crate) fields: ByteRecord,
    pub(crate) form: TradeForm,
    pub(crate) number: u64,
    pub(crate) bytes: u64,
}

impl Parsing {
    // At the start of a text.
    pub(crate) fn new(alloc: Global) -> Parsing
        ensures ready { IsReady result }
        ensures told { (rest : List ℕ) → told_behind result rest ≡ told_of rest }
        ensures standing { (rest : List ℕ) → standing_on result rest ≡ standing_after rest }
        ensures symbols { result.form.symbols ≡ [] }
    {
        let columns = TradeColumns::none();
        let symbols = Symbols::new(alloc);
        Parsing {
            stage: Stage::Start,
            record: RecordParser::new(alloc),
            fields: ByteRecord::new(alloc),
            form: TradeForm { columns, symbols },
            number: 1,
            bytes: 0,
        }
    }

    // Whether a byte goes on with the front of a mark.
    fn is_of_mark(&self, byte: u8) -> bool
        requires { IsReady self.now }
        ensures { result ≡ is_of_mark self.now byte }
    {
        match self.stage {
            Stage::Start | Stage::Marked => byte == MARK[self.bytes as usize],
            Stage::Header | Stage::Trades => false,
        }
    }

    // Takes a byte that goes on with the front of a mark, and says whether it does. The first mark is dropped, and a second
    // one is no header.
    fn take_mark(&mut self, byte: u8) -> Result<bool, StreamError>
        requires { IsReady self.old }
        ensures takes { IfOk result (λ took. TakesMark took self.old byte self.new) }
        ensures refused { IfErr result (λ e. (rest : List ℕ) → IsFaultOf e (told_behind self.old (byte ∷ rest))) }
        ensures short { IfErr result TellsNoLength }
    {
        if !self.is_of_mark(byte) {
            return Ok(false);
        }
        self.bytes += 1;
        if self.bytes < 3 {
            return Ok(true);
        }
        match self.stage {
            Stage::Marked => Err(StreamError::Refused(ReadError::Header)),
            Stage::Start | Stage::Header | Stage::Trades => {
                self.stage = Stage::Marked;
                self.bytes = 0;
                Ok(true)
            }
        }
    }

    // What came of a mark, where no whole one comes, is the front of the header.
    fn leave_front(&mut self) -> Result<(), StreamError>
        requires { IsReady self.old }
        ensures leaves { OnOk result (LeavesFront self.old self.new) }
        ensures failed { IfErr result (λ e. e ≡ stream.OutOfMemory) }
    {
        match self.stage {
            Stage::Header | Stage::Trades => {}
            Stage::Start | Stage::Marked => {
                self.stage = Stage::Header;
                self.record.begin_with(&MARK[..self.bytes as usize])?;
            }
        }
        Ok(())
    }

    // Begins the next record.
    fn begin_record(&mut self)
        requires { length self.old.form.symbols ≤ max_symbols }
        ensures at { AtRecord self.old self.new }
        ensures form { self.new.form ≡ self.old.form }
        ensures number { self.new.number ≡ self.old.number }
    {
        self.stage = Stage::Trades;
        self.fields.clear();
        self.record.begin();
        self.bytes = 0;
    }

    // Takes the header, whose fields are at hand.
    fn take_header(&mut self, alloc: Global) -> Result<(), StreamError>
        ensures at { OnOk result (AtRecord self.old self.new) }
        ensures told { OnOk result ((s : State) (text : List ℕ) → ends_at_end s ≡ false
            → told_by_header (Some (fields_of self.old.fields, s, text)) ≡ told_by_trade self.new.number self.new.form (next_record default_config s [] [] text)) }
        ensures symbols { OnOk result (self.new.form.symbols ≡ []) }
        ensures number { OnOk result (self.new.number ≡ 2) }
        ensures refused { IfErr result (λ e. (s : State) (text : List ℕ) → IsFaultOf e (told_by_header (Some (fields_of self.old.fields, s, text)))) }
        ensures short { IfErr result TellsNoLength }
    {
        let columns = match trade_columns(&self.fields) {
            Ok(columns) => columns,
            Err(error) => return Err(refusal(error)),
        };
        let symbols = Symbols::new(alloc);
        self.form = TradeForm { columns, symbols };
        self.number = 2;
        self.begin_record();
        Ok(())
    }

    // Takes a trade, whose fields are at hand, and gives its row.
    fn take_trade(&mut self, alloc: Global) -> Result<Row, StreamError>
        requires { length self.old.form.symbols ≤ max_symbols }
        ensures at { OnOk result (AtRecord self.old self.new) }
        ensures told { IfOk result (λ row. (s : State) (text : List ℕ) → ends_at_end s ≡ false
            → told_by_trade self.old.number self.old.form (Some (fields_of self.old.fields, s, text))
            ≡ behind_row row (told_by_trade self.new.number self.new.form (next_record default_config s [] [] text))) }
        ensures within { IfOk result IsInputRow }
        ensures grows { OnOk result (Grows self.old.form.symbols self.new.form.symbols) }
        ensures number { OnOk result (self.new.number ≡ self.old.number + 1) }
        ensures refused { IfErr result (λ e. (s : State) (text : List ℕ)
            → IsFaultOf e (told_by_trade self.old.number self.old.form (Some (fields_of self.old.fields, s, text)))) }
        ensures short { IfErr result TellsNoLength }
    {
        if self.number >= NUMBER_LIMIT {
            return Err(StreamError::OutOfMemory);
        }
        match self.form.row(alloc, self.number, &self.fields) {
            Ok(row) => {
                self.number += 1;
                self.begin_record();
                Ok(row)
            }
            Err(error) => Err(refusal(error)),
        }
    }

    // Takes the record whose fields are at hand, and gives its row, if it is a trade.
    fn take_record(&mut self, alloc: Global) -> Result<Option<Row>, StreamError>
        requires known { length self.old.form.symbols ≤ max_symbols }
        requires new { has_header self.old.stage ≡ false → self.old.form.symbols ≡ [] }
        requires first { has_header self.old.stage ≡ false → self.old.number ≡ 1 }
        ensures at { OnOk result (AtRecord self.old self.new) }
        ensures number { OnOk result (self.new.number ≡ self.old.number + 1) }
        ensures short { IfErr result TellsNoLength }
        ensures tells { (s : State) (text : List ℕ) → ends_at_end s ≡ false
            → TellsOn result (told_found self.old.stage self.old.number self.old.form (Some (fields_of self.old.fields, s, text)))
            (told_by_trade self.new.number self.new.form (next_record default_config s [] [] text)) }
        ensures within { IfOk result (λ row. IfSome row IsInputRow) }
        ensures learns { IfOk result (λ row. Learns row self.old.form.symbols self.new.form.symbols) }
    {
        match self.stage {
            Stage::Trades => Ok(Some(self.take_trade(alloc)?)),
            Stage::Start | Stage::Marked | Stage::Header => {
                self.take_header(alloc)?;
                Ok(None)
            }
        }
    }

    // Takes a byte, and gives the row of the record that it ends, if it ends one that is a trade.
    pub(crate) fn push(&mut self, alloc: Global, byte: u8) -> Result<Option<Row>, StreamError>
        requires { IsReady self.old }
        ensures ready { OnOk result (IsReady self.new) }
        ensures tells { (rest : List ℕ) → TellsOn result (told_behind self.old (byte ∷ rest)) (told_behind self.new rest) }
        ensures standing { OnOk result ((rest : List ℕ) → standing_on self.old (byte ∷ rest) ≡ standing_on self.new rest) }
        ensures long { IfErr result (λ e. TellsLong e self.old) }
        ensures within { IfOk result (λ row. IfSome row IsInputRow) }
        ensures learns { IfOk result (λ row. Learns row self.old.form.symbols self.new.form.symbols) }
    {
        if self.bytes >= MAX_INPUT_BYTES {
            return Err(StreamError::TooLong { rec: self.number });
        }
        if self.take_mark(byte)? {
            return Ok(None);
        }
        self.leave_front()?;
        self.bytes += 1;
        if !self.record.take(byte, &mut self.fields)? {
            return Ok(None);
        }
        self.take_record(alloc)
    }

    // Takes the end of the text, and gives the row of the record that it ends, if it ends one that is a trade.
    pub(crate) fn finish(&mut self, alloc: Global) -> Result<Option<Row>, StreamError>
        requires { IsReady self.old }
        ensures tells { TellsLast result (told_behind self.old []) self.new.form.symbols }
        ensures within { IfOk result (λ row. IfSome row IsInputRow) }
        ensures learns { IfOk result (λ row. Learns row self.old.form.symbols self.new.form.symbols) }
    {
        self.leave_front()?;
        if self.record.take_end(&mut self.fields)? {
            return self.take_record(alloc);
        }
        match self.stage {
            Stage::Trades => Ok(None),
            Stage::Start | Stage::Marked | Stage::Header => {
                Err(StreamError::Refused(ReadError::Header))
            }
        }
    }
}
