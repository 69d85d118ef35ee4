// The readers of a line's words: each takes words from the front, and gives a value or the first fault.
ghost use Rattle.std.specs.Prelude.{◌≡◌, ◌<◌, ◌≤◌, ◌%◌, IfOk};
ghost use Rattle.text_words.specs.Reading.{Takes};
ghost use Rattle.bucket_move.specs.Grammar.{is_mark, is_opening, mark_at, number_at, number_below, parts_of, shift_at};
ghost use Rattle.bucket_move.specs.Shifts.{IsShiftOf};

use crate::BUCKETS;
use crate::error::Fault;
use crate::moves::Shift;
use plan_reader::Plan;
use text_words::{Words, is_word, number_of};

/// The greatest stamp after which a bucket moves.
pub const MAX_STAMP: u64 = 1_000_000;

// Whether the words of a line are those of the first one.
pub(crate) fn is_opening(words: &mut Words<'_>) -> bool
    ensures { result ≡ is_opening words.old }
{
    let Some(name) = words.next_word() else {
        return false;
    };
    let Some(version) = words.next_word() else {
        return false;
    };
    if words.next_word().is_some() {
        return false;
    }
    is_word(name, "moves") && is_word(version, "1")
}

// A number.
#[tactic(auto, unfolding(crate::specs::Grammar::number_at))]
fn number(words: &mut Words<'_>) -> Result<u64, Fault>
    ensures { Takes words.new result (number_at words.old) }
{
    let found = words.word_or(Fault::Grammar)?;
    match number_of(found) {
        None => Err(Fault::Grammar),
        Some(n) => Ok(n),
    }
}

// A number below a limit.
#[tactic(auto, unfolding(crate::specs::Grammar::number_below))]
fn number_below(words: &mut Words<'_>, limit: u32) -> Result<u32, Fault>
    ensures value { Takes words.new result (number_below limit words.old) }
    ensures within { IfOk result (λ n. n < limit) }
{
    let n = number(words)?;
    if n < u64::from(limit) {
        Ok(n as u32)
    } else {
        Err(Fault::Range)
    }
}

// Whether a plan has a mark after so many rows.
fn is_mark(mark: u64, n: u64) -> bool
    requires { 1 ≤ mark }
    ensures { result ≡ is_mark mark n }
{
    1 <= n && n <= MAX_STAMP && n % mark == 0
}

// After how many rows a bucket moves.
#[tactic(auto, unfolding(crate::specs::Grammar::mark_at))]
fn stamp(words: &mut Words<'_>, mark: u64) -> Result<u64, Fault>
    requires { 1 ≤ mark }
    ensures value { Takes words.new result (mark_at mark words.old) }
    ensures some { IfOk result (λ n. 1 ≤ n) }
    ensures few { IfOk result (λ n. n ≤ MAX_STAMP) }
    ensures at_mark { IfOk result (λ n. n % mark ≡ 0) }
{
    let n = number(words)?;
    if is_mark(mark, n) {
        Ok(n)
    } else {
        Err(Fault::Range)
    }
}

// In how many partitions the first stage runs.
fn parts_of(plan: &Plan) -> u32
    ensures { result ≡ parts_of plan.now.stages }
{
    match plan.stages().first() {
        None => 0,
        Some(stage) => stage.parts,
    }
}

// A move within the limits of a plan.
#[tactic(auto, unfolding(crate::specs::Grammar::shift_at))]
pub(crate) fn shift(words: &mut Words<'_>, plan: &Plan) -> Result<Shift, Fault>
    ensures value { Takes words.new result (shift_at plan.now words.old) }
    ensures of_plan { IfOk result (IsShiftOf plan.now) }
{
    words.fixed_or("at", Fault::Grammar)?;
    let at = stamp(words, plan.mark())?;
    words.fixed_or("bucket", Fault::Grammar)?;
    let bucket = number_below(words, BUCKETS)?;
    words.fixed_or("to", Fault::Grammar)?;
    let to = number_below(words, parts_of(plan))?;
    words.end_or(Fault::Grammar)?;
    Ok(Shift { at, bucket, to })
}
