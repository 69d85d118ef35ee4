// The records of a file and their fields, where they stand in its bytes.
ghost use Rattle.std.specs.Prelude.{◌≡◌, ◌≤◌, ◌<◌, ◌+◌, ◌^◌, length};
ghost use Rattle.input_faults.specs.Records.{at_start, before, behind_field, behind_fields, behind_record, column_behind, drop_ends, field_len, fields_in, left_of, line_behind, lines_ended, record_of, word_in, word_start};
ghost use Rattle.trade_text.specs.RecordStates.{state_of};

use text_words::{blanks_len, ends_line, is_end_byte};
use trade_text::RecordState;

// What is left behind the record with which a text goes on.
pub(crate) fn behind_record(state: RecordState, text: &[u8]) -> (RecordState, &[u8])
    ensures { left_of result.0 result.1.now ≡ behind_record (left_of state text.now) }
{
    let mut state = state;
    let mut rest = text;
    while let Some((byte, more)) = rest.split_first() {
        let (next, action) = state.step(*byte);
        if action.ends_record() {
            return (next, more);
        }
        state = next;
        rest = more;
    }
    (RecordState::StartRecord, rest)
}

// A text from its first byte on that ends no line.
pub(crate) fn without_ends(text: &[u8]) -> &[u8]
    ensures { result.now ≡ drop_ends text.now }
{
    let mut rest = text;
    while let Some((byte, more)) = rest.split_first() {
        if !is_end_byte(*byte) {
            break;
        }
        rest = more;
    }
    rest
}

// A text from the record of this number on.
pub(crate) fn record_of(text: &[u8], number: u64) -> &[u8]
    ensures { result.now ≡ record_of number text.now }
{
    let mut state = RecordState::StartRecord;
    let mut rest = text;
    for _turn in 1..number {
        let (next, more) = behind_record(state, rest);
        state = next;
        rest = more;
    }
    without_ends(rest)
}

// How many fields the record has with which a text begins.
pub(crate) fn field_count(text: &[u8]) -> u64
    ensures { result ≡ length (fields_in text.now) }
{
    let mut state = RecordState::StartRecord;
    let mut ended = 0u64;
    let mut rest = text;
    while let Some((byte, more)) = rest.split_first() {
        let (next, action) = state.step(*byte);
        if action.ends_record() {
            return ended + 1;
        }
        if action.ends_field() {
            ended += 1;
        }
        state = next;
        rest = more;
    }
    if state.ends_at_end() { ended + 1 } else { 0 }
}

// What is left behind a field and the byte that ends it.
fn behind_field(state: RecordState, text: &[u8]) -> (RecordState, &[u8])
    ensures { left_of result.0 result.1.now ≡ behind_field (state_of state) text.now }
{
    let mut state = state;
    let mut rest = text;
    while let Some((byte, more)) = rest.split_first() {
        let (next, action) = state.step(*byte);
        if action.ends_field() {
            return (next, more);
        }
        state = next;
        rest = more;
    }
    (state, rest)
}

// What is left of a record behind so many fields.
fn behind_fields(row: &[u8], fields: u64) -> (RecordState, &[u8])
    ensures { left_of result.0 result.1.now ≡ behind_fields fields (at_start row.now) }
{
    let mut state = RecordState::StartRecord;
    let mut rest = row;
    for _turn in 0..fields {
        let (next, more) = behind_field(state, rest);
        state = next;
        rest = more;
    }
    (state, rest)
}

// How many bytes a field has, its quotes among them.
fn field_len(state: RecordState, text: &[u8]) -> usize
    ensures value { result ≡ field_len (state_of state) text.now }
    ensures within { result ≤ length text.now }
{
    let mut state = state;
    let mut rest = text;
    while let Some((byte, more)) = rest.split_first() {
        let (next, action) = state.step(*byte);
        if action.ends_field() {
            return text.len() - rest.len();
        }
        state = next;
        rest = more;
    }
    text.len() - rest.len()
}

// The field of a record that has so many before it: its bytes from the first one on that is no blank,
// and with all that follows.
pub(crate) fn field_at(row: &[u8], before: u64) -> (&[u8], &[u8])
    ensures { (result.0.now ≡ word_in (behind_fields before (at_start row.now))) × (result.1.now ≡ word_start (behind_fields before (at_start row.now))) }
{
    let (state, text) = behind_fields(row, before);
    let len = field_len(state, text);
    let blanks = blanks_len(text);
    let (_, rest) = text.split_at(blanks);
    let (word, _) = rest.split_at(len.saturating_sub(blanks).min(rest.len()));
    (word, rest)
}

// The line of the byte behind these bytes, of which the first one stands in this line.
#[tactic(auto, unfolding(crate::specs::Records::lines_ended))]
pub(crate) fn line_from(line: u64, bytes: &[u8]) -> u64
    requires { line + length bytes.now < 2 ^ 64 }
    ensures value { result ≡ line + lines_ended bytes.now }
    ensures room { result ≤ line + length bytes.now }
{
    let mut line = line;
    let mut rest = bytes;
    while let Some((byte, more)) = rest.split_first() {
        if ends_line(*byte, more) {
            line += 1;
        }
        rest = more;
    }
    line
}

// The line of the byte behind these bytes.
pub(crate) fn line_behind(front: &[u8]) -> u64
    ensures { result ≡ line_behind front.now }
{
    line_from(1, front)
}

// The column of the byte behind these bytes.
pub(crate) fn column_behind(front: &[u8]) -> u64
    ensures { result ≡ column_behind front.now }
{
    let mut column = 1u64;
    let mut rest = front;
    while let Some((byte, more)) = rest.split_first() {
        column = if is_end_byte(*byte) { 1 } else { column + 1 };
        rest = more;
    }
    column
}
