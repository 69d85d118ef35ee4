// The lines in which the records of a text begin, each byte read once.
ghost use Rattle.std.specs.Prelude.{◌≡◌, ◌≤◌, ◌-◌, List, ℕ, length, take};
ghost use Rattle.input_faults.specs.RecordLines.{AreCounted, IsBehind};
ghost use Rattle.input_faults.specs.Records.{before, left_of, line_behind, record_of};
ghost use Rattle.text_words.specs.Lines.{begins_with_end};

use crate::records::{behind_record, line_from, without_ends};
use std::marker::Model;
use trade_text::RecordState;

/// The lines in which the records of a text begin, of a text without a mark at its front. Where records are asked for in rising
/// order, each byte of the text is read once. Contracts see the text.
#[derive(Drop)]
pub struct RecordLines<'a> {
    text: &'a [u8],
    // What is left of the text behind the records before the one of this number.
    number: u64,
    state: RecordState,
    rest: &'a [u8],
    // What is left of it where lines were counted last, and the line in which that begins.
    here: &'a [u8],
    line: u64,
}

impl<'a> Model for RecordLines<'a> {
    ghost use Rattle.std.specs.Prelude.{ℕ, List};
    ghost use Rattle.input_faults.specs.RecordLines.{AreCounted, IsBehind};
    ghost use Rattle.input_faults.specs.Records.{left_of};

    ghost Value = { List ℕ };

    ghost view = { λ s. s.text.now };

    ghost invariant = { λ s. record {
      behind : IsBehind s.text.now s.number (left_of s.state s.rest.now);
      counted : AreCounted s.text.now s.here.now s.line;
    } };
}

impl<'a> RecordLines<'a> {
    /// The lines of a text's records.
    pub fn new(text: &'a [u8]) -> RecordLines<'a>
        ensures { result ≡ text.now }
    {
        RecordLines {
            text,
            number: 1,
            state: RecordState::StartRecord,
            rest: text,
            here: text,
            line: 1,
        }
    }

    // Where the search for a record begins: where the last one ended, or at the front for one that stands before it.
    fn begin(&self, number: u64) -> (u64, RecordState, &'a [u8])
        requires { 1 ≤ number }
        ensures behind { IsBehind self.now result.0 (left_of result.1 result.2.now) }
        ensures before { result.0 ≤ number }
    {
        if number < self.number {
            (1, RecordState::StartRecord, self.text)
        } else {
            (self.number, self.state, self.rest)
        }
    }

    /// The line in which the record of this number begins; the header is record 1.
    pub fn line(&mut self, number: u64) -> u64
        ensures line { result ≡ line_behind (before (record_of number self.old) self.old) }
        ensures text { self.new ≡ self.old }
    {
        let number = number.max(1);
        let (from, state, rest) = self.begin(number);
        let (state, rest) = go_on(state, rest, from, number);
        let left = without_ends(rest).len();
        let (here, line) = count_on(self.text, self.here, self.line, left);
        *self = RecordLines {
            text: self.text,
            number,
            state,
            rest,
            here,
            line,
        };
        line
    }
}

// What is left of a text behind the records before the one of a number, of what is left behind those before an earlier one.
fn go_on(state: RecordState, rest: &[u8], from: u64, to: u64) -> (RecordState, &[u8])
    requires { from ≤ to }
    ensures { (text : List ℕ) → IsBehind text from (left_of state rest.now) → IsBehind text to (left_of result.0 result.1.now) }
{
    let mut state = state;
    let mut rest = rest;
    for _turn in from..to {
        let (next, more) = behind_record(state, rest);
        state = next;
        rest = more;
    }
    (state, rest)
}

// Whether a text begins with the byte that ends a line.
fn begins_with_end(text: &[u8]) -> bool
    ensures { result ≡ begins_with_end text.now }
{
    text.first() == Some(&b'\n')
}

// Counts on, from where lines were counted last, to where so much is left of the text: all anew where that lies before it, or
// where an end of a line might be cut there, neither of which comes.
fn count_on<'a>(text: &'a [u8], here: &'a [u8], line: u64, left: usize) -> (&'a [u8], u64)
    requires { AreCounted text.now here.now line }
    ensures counted { AreCounted text.now result.0.now result.1 }
    ensures line { result.1 ≡ line_behind (take (length text.now - left) text.now) }
{
    if left > here.len() || begins_with_end(here) {
        let (front, rest) = text.split_at(text.len().saturating_sub(left));
        return (rest, line_from(1, front));
    }
    let (front, rest) = here.split_at(here.len() - left);
    (rest, line_from(line, front))
}

/// The line in which the record of this number begins, in a text without a mark at its front; the header is record 1.
pub fn record_line(text: &[u8], number: u64) -> u64
    ensures { result ≡ line_behind (before (record_of number text.now) text.now) }
{
    RecordLines::new(text).line(number)
}
