// What is said of trades and of cash movements that are refused.
ghost use Rattle.std.specs.Prelude.{◌≡◌, ◌++◌, IfOk, OnOk, is_none, is_ok, length, option_map, string_bytes};
ghost use Rattle.trade_text.specs.Cash.{cash_of};
ghost use Rattle.trade_text.specs.Trades.{trades_of};
ghost use Rattle.input_faults.specs.RecordFaults.{cash_fault, cash_form, cash_line_in, count_line, counts_text, field_line, front_of, full_line, header_line, is_headless, left_at, record_front, room_line, trade_form, trade_range, trades_fault, trades_line_in};
ghost use Rattle.record_faults.specs.Columns.{place_of};
ghost use Rattle.input_faults.specs.Records.{before, column_behind, fields_in, line_behind, names_in, record_of, word_in, word_start};

use crate::header::header_of;
use crate::records::{column_behind, field_at, field_count, line_behind, record_of};
use crate::shown::push_stands;
use crate::told::length_line;
use record_faults::place_in;
use std::alloc::Global;
use trade_text::{
    CashError, CashField, Field, FileField, MAX_INPUT_BYTES, MAX_INPUTS, ReadError, TradeError,
    read_cash, read_trades, starts_with_mark, without_mark,
};
use tuple_edge::OutOfMemory;

// A file of records: its name, and its bytes without the mark at their front.
#[derive(Clone, Copy)]
pub(crate) struct File<'a> {
    pub(crate) name: &'a str,
    pub(crate) text: &'a [u8],
}

// Where a field begins in a file, and its bytes from the first one on that is no blank.
struct Found<'a> {
    line: u64,
    column: u64,
    word: &'a [u8],
}

// The bytes of a text before what is left of it.
fn before<'a>(rest: &[u8], text: &'a [u8]) -> &'a [u8]
    ensures { result.now ≡ before rest.now text.now }
{
    let (front, _) = text.split_at(text.len().saturating_sub(rest.len()));
    front
}

// Appends that a record has so many fields, and the header another number.
#[tactic(auto, unfolding(crate::specs::RecordFaults::counts_text))]
fn push_counts(text: &mut String, fields: u64, names: u64) -> Result<(), OutOfMemory>
    ensures { OnOk result (string_bytes text.new ≡ string_bytes text.old ++ counts_text fields names) }
{
    write!(text, ": {fields} fields, the header has {names}")?;
    Ok(())
}

impl<'a> File<'a> {
    // The front of a line about the record of this number.
    pub(crate) fn record_front(&self, alloc: Global, number: u64) -> Result<String, OutOfMemory>
        ensures { IfOk result (λ said. string_bytes said ≡ record_front self.now.name.now self.now.text.now number) }
    {
        let name = self.name;
        let line = line_behind(before(record_of(self.text, number), self.text));
        let front = format!(in alloc; "{name}: line {line} (record {number})")?;
        Ok(front)
    }

    // A field with so many before it in the record of this number: its bytes from the first one on
    // that is no blank, and with all that follows.
    fn field(&self, number: u64, place: usize) -> (&'a [u8], &'a [u8])
        ensures word { result.0.now ≡ word_in (left_at self.now.text.now number place) }
        ensures rest { result.1.now ≡ word_start (left_at self.now.text.now number place) }
    {
        field_at(record_of(self.text, number), place as u64)
    }

    // Where that field begins, and its bytes.
    fn found(&self, number: u64, place: usize) -> Found<'a>
        ensures line { result.line ≡ line_behind (front_of self.now.text.now number place) }
        ensures column { result.column ≡ column_behind (front_of self.now.text.now number place) }
        ensures word { result.word.now ≡ word_in (left_at self.now.text.now number place) }
    {
        let (word, rest) = self.field(number, place);
        let front = before(rest, self.text);
        Found {
            line: line_behind(front),
            column: column_behind(front),
            word,
        }
    }

    // The line about that field.
    fn field_line(
        &self,
        alloc: Global,
        number: u64,
        place: usize,
        expected: &str,
    ) -> Result<String, OutOfMemory>
        ensures { IfOk result (λ said. string_bytes said ≡ field_line self.now.name.now self.now.text.now number place expected.now) }
    {
        let name = self.name;
        let Found { line, column, word } = self.found(number, place);
        let mut said = format!(in alloc;
            "{name}: line {line} (record {number}), column {column}: "
        )?;
        push_stands(&mut said, word)?;
        write!(said, "; here may stand: {expected}")?;
        Ok(said)
    }

    // The line about the field of the record of this number.
    fn refused_field<F: FileField>(
        &self,
        alloc: Global,
        number: u64,
        field: F,
        expected: &str,
    ) -> Result<String, OutOfMemory>
        ensures { IfOk result (λ said. string_bytes said
            ≡ field_line self.now.name.now self.now.text.now number (place_of F.kind field (names_in self.now.text.now)) expected.now) }
    {
        let header = header_of(alloc, self.text)?;
        self.field_line(alloc, number, place_in(field, &header), expected)
    }

    // How many fields the record of this number has.
    fn fields(&self, number: u64) -> u64
        ensures { result ≡ length (fields_in (record_of number self.now.text.now)) }
    {
        field_count(record_of(self.text, number))
    }

    // The line about a record that has another number of fields than the header.
    fn count_line(&self, alloc: Global, number: u64) -> Result<String, OutOfMemory>
        ensures { IfOk result (λ said. string_bytes said ≡ count_line self.now.name.now self.now.text.now number) }
    {
        let fields = self.fields(number);
        let names = field_count(self.text);
        let mut said = self.record_front(alloc, number)?;
        push_counts(&mut said, fields, names)?;
        Ok(said)
    }

    // Whether there is no header.
    pub(crate) fn is_headless(&self) -> bool
        ensures { result ≡ is_headless self.now.text.now }
    {
        starts_with_mark(self.text) || field_count(self.text) == 0
    }

    // The line about a header that doesn't name each of these columns once, or about none.
    fn header_line(&self, alloc: Global, columns: &str) -> Result<String, OutOfMemory>
        ensures { IfOk result (λ said. string_bytes said ≡ header_line self.now.name.now self.now.text.now columns.now) }
    {
        let name = self.name;
        if self.is_headless() {
            let said = format!(in alloc;
                "{name}: no header; the first record has to name each of these once: {columns}"
            )?;
            return Ok(said);
        }
        let mut said = self.record_front(alloc, 1)?;
        write!(
            said,
            ": the header has to name each of these once: {columns}"
        )?;
        Ok(said)
    }

    // The line about the record of this number, for which there is no room.
    pub(crate) fn full_line(
        &self,
        alloc: Global,
        number: u64,
        room: u32,
        rows: &str,
    ) -> Result<String, OutOfMemory>
        ensures { IfOk result (λ said. string_bytes said ≡ full_line self.now.name.now self.now.text.now number room rows.now) }
    {
        let mut said = self.record_front(alloc, number)?;
        write!(said, ": at most {room} {rows} may be")?;
        Ok(said)
    }

    // The line about a record more than may be, where all before it are accepted.
    fn room_line(&self, alloc: Global, room: u32, rows: &str) -> Result<String, OutOfMemory>
        ensures { IfOk result (λ said. string_bytes said ≡ room_line self.now.name.now self.now.text.now room rows.now) }
    {
        self.full_line(alloc, u64::from(room) + 2, room, rows)
    }
}

/// What may stand in a field of a trade.
pub fn trade_form(field: Field) -> &'static str
    ensures { result.now ≡ trade_form field }
{
    match field {
        Field::Time => "seconds from 0 to 9999999999, or a time of day as 9:30:00",
        Field::Account => "a number from 1 to 1000000",
        Field::Symbol => "1 to 32 printed characters, none of them a comma or a double quote",
        Field::Side => "B, BUY, S, SELL",
        Field::Qty => "a number from 1 to 100000",
        Field::Price => "0 to 1000000.00, with at most two digits behind the point",
    }
}

/// What may stand in a field of a trade that is out of range.
pub fn trade_range(field: Field) -> &'static str
    ensures { result.now ≡ trade_range field }
{
    match field {
        Field::Symbol => "one of the 4096 symbols that stand before",
        _ => trade_form(field),
    }
}

// What may stand in a field of a cash movement.
fn cash_form(field: CashField) -> &'static str
    ensures { result.now ≡ cash_form field }
{
    match field {
        CashField::Time => "seconds from 0 to 9999999999, or a time of day as 9:30:00",
        CashField::Account => "a number from 1 to 1000000",
        CashField::Amount => {
            "-100000000.00 to 100000000.00, with at most two digits behind the point"
        }
    }
}

// The line that is said of refused trades.
pub(crate) fn trades_line(
    alloc: Global,
    file: &File<'_>,
    error: TradeError,
) -> Result<String, OutOfMemory>
    ensures { IfOk result (λ said. string_bytes said ≡ trades_line_in file.now.name.now file.now.text.now error) }
{
    match error {
        ReadError::Header => file.header_line(alloc, "time, account, symbol, side, qty, price"),
        ReadError::Row { rec } => file.count_line(alloc, rec),
        ReadError::Field { rec, field } => file.refused_field(alloc, rec, field, trade_form(field)),
        ReadError::Range { rec, field } => {
            file.refused_field(alloc, rec, field, trade_range(field))
        }
        ReadError::TooMany => file.room_line(alloc, MAX_INPUTS as u32, "trades"),
        ReadError::TooLong { bytes } => length_line(alloc, file.name, bytes, MAX_INPUT_BYTES),
        ReadError::OutOfMemory => Err(OutOfMemory),
    }
}

// The line that is said of refused cash movements, of which so many have room.
pub(crate) fn cash_line(
    alloc: Global,
    file: &File<'_>,
    room: u32,
    error: CashError,
) -> Result<String, OutOfMemory>
    ensures { IfOk result (λ said. string_bytes said ≡ cash_line_in file.now.name.now file.now.text.now room error) }
{
    match error {
        ReadError::Header => file.header_line(alloc, "time, account, amount"),
        ReadError::Row { rec } => file.count_line(alloc, rec),
        ReadError::Field { rec, field } => file.refused_field(alloc, rec, field, cash_form(field)),
        ReadError::Range { rec, field } => file.refused_field(alloc, rec, field, cash_form(field)),
        ReadError::TooMany => file.room_line(alloc, room, "movements"),
        ReadError::TooLong { bytes } => length_line(alloc, file.name, bytes, MAX_INPUT_BYTES),
        ReadError::OutOfMemory => Err(OutOfMemory),
    }
}

/// What is said of the bytes of a trades file, in a line without its end: the first thing that is
/// refused in it, where it stands in the file, and what may stand there. None where the bytes are
/// trades.
#[tactic(auto, unfolding(crate::specs::RecordFaults::trades_fault))]
pub fn trades_fault(alloc: Global, name: &str, bytes: &[u8]) -> Result<Option<String>, OutOfMemory>
    ensures line { IfOk result (λ fault. option_map string_bytes fault ≡ trades_fault name.now bytes.now) }

    // Nothing is said exactly where the bytes are trades.
    ensures accepted { IfOk result (λ fault. is_none fault ≡ is_ok (trades_of bytes.now)) }
{
    match read_trades(alloc, bytes) {
        Ok(_) => Ok(None),
        Err(ReadError::OutOfMemory) => Err(OutOfMemory),
        Err(error) => {
            let text = without_mark(bytes);
            let line = trades_line(alloc, &File { name, text }, error)?;
            Ok(Some(line))
        }
    }
}

/// What is said of the bytes of a cash file, as [`trades_fault`] says it of trades. `room` is how many
/// movements there may be: 100,000 less the number of trades. None where the bytes are movements.
#[tactic(auto, unfolding(crate::specs::RecordFaults::cash_fault))]
pub fn cash_fault(
    alloc: Global,
    name: &str,
    bytes: &[u8],
    room: u32,
) -> Result<Option<String>, OutOfMemory>
    ensures line { IfOk result (λ fault. option_map string_bytes fault ≡ cash_fault room name.now bytes.now) }

    // Nothing is said exactly where the bytes are movements for which there is room.
    ensures accepted { IfOk result (λ fault. is_none fault ≡ is_ok (cash_of bytes.now room)) }
{
    match read_cash(alloc, bytes, room) {
        Ok(_) => Ok(None),
        Err(ReadError::OutOfMemory) => Err(OutOfMemory),
        Err(error) => {
            let text = without_mark(bytes);
            let line = cash_line(alloc, &File { name, text }, room, error)?;
            Ok(Some(line))
        }
    }
}
