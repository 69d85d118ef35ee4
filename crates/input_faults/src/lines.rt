// The lines of a text: one by its number, and what those before it have said.
ghost use Rattle.std.specs.Prelude.{◌≡◌, ◌==◌, [], codes, length, not, slice_get, unwrap_or};
ghost use Rattle.std.specs.Str.{bytes_eq};
ghost use Rattle.text_words.specs.Lines.{counting_lines};
ghost use Rattle.input_faults.specs.Spots.{first_place, line_of, nothing_said, said_before, with_words};

use crate::place::{Before, Place};
use plan_reader::MAX_STAGES;
use text_words::{Lines, Words, first_line, is_word};

// Whether a line of a text counts.
pub(crate) fn has_lines(bytes: &[u8]) -> bool
    ensures { result ≡ not (length (counting_lines bytes.now) == 0) }
{
    Lines::new(bytes).next_line().is_some()
}

// The line of this number. A text that hasn't so many has an empty one.
#[tactic(auto, using(crate::proofs::SpotFacts::drop_next, crate::proofs::SpotFacts::drop_next_none, crate::proofs::SpotFacts::get_here, crate::proofs::SpotFacts::get_none))]
pub(crate) fn line_of(bytes: &[u8], number: u64) -> &[u8]
    ensures { result.now ≡ line_of number bytes.now }
{
    let mut rest = bytes;
    for _turn in 1..number {
        match first_line(rest) {
            None => return &[],
            Some((_, more)) => rest = more,
        }
    }
    match first_line(rest) {
        None => &[],
        Some((line, _)) => line,
    }
}

// Whether the words behind the first one of a stage name a join.
#[tactic(auto, using(crate::proofs::SpotFacts::drop_next, crate::proofs::SpotFacts::drop_next_none, crate::proofs::SpotFacts::get_here, crate::proofs::SpotFacts::get_none))]
fn joins(mut words: Words<'_>) -> bool
    ensures { result ≡ bytes_eq (unwrap_or (slice_get words.entry 5) []) (codes "join") }
{
    for _turn in 0..5u32 {
        let _ = words.next_word();
    }
    match words.next_word() {
        None => false,
        Some(word) => is_word(word, "join"),
    }
}

impl Before {
    // What was said, with a line of these words.
    fn with(self, mut words: Words<'_>) -> Before
        ensures { result ≡ with_words self words.entry }
    {
        let mut before = self;
        let Some(first) = words.next_word() else {
            return before;
        };
        if is_word(first, "mark") {
            before.mark = true;
        } else if is_word(first, "hold") {
            before.hold = true;
        } else {
            before.joins = before.joins || joins(words);
            if before.stages < MAX_STAGES as u64 {
                before.stages += 1;
            }
        }
        before
    }
}

// What the further lines that have a lower number say.
#[tactic(auto, unfolding(crate::specs::Spots::said_before))]
fn said_before(mut lines: Lines<'_>, number: u64) -> Before
    ensures { result ≡ said_before number nothing_said lines.entry }
{
    let mut before = Before {
        mark: false,
        hold: false,
        stages: 0,
        joins: false,
    };
    while let Some(line) = lines.next_line() {
        if line.number >= number {
            break;
        }
        before = before.with(line.words);
    }
    before
}

// The place of the first word of the line of this number, in a plan.
pub(crate) fn first_place(bytes: &[u8], number: u64) -> Place
    ensures { result ≡ first_place number (counting_lines bytes.now) }
{
    let mut lines = Lines::new(bytes);
    match lines.next_line() {
        None => Place::Flux,
        Some(first) => {
            if first.number == number {
                Place::Flux
            } else {
                Place::Statement(said_before(lines, number))
            }
        }
    }
}
