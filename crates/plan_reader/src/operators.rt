// The readers of an operator and its settings.
ghost use Rattle.std.specs.Prelude.{IfOk};
ghost use Rattle.op_spec.specs.Spec.{IsSpec};
ghost use Rattle.text_words.specs.Reading.{Takes};
ghost use Rattle.plan_reader.specs.Operators.{crossing_at, join_at, keep_at, last_at, op_at, total_at, window_at};
ghost use Rattle.plan_reader.specs.PlanView.{IsLimit};

use crate::error::Fault;
use crate::words::{by, comparison, key_and_number, number_from};
use op_spec::{MAX_JOIN_ROWS, MAX_LAST_ROWS, MAX_WINDOW_SECONDS, OpSpec};
use text_words::{Words, is_word};
use tuple_edge::BIG;

// What follows `keep`.
#[tactic(auto, unfolding(crate::specs::Operators::keep_at))]
fn keep(words: &mut Words<'_>) -> Result<OpSpec, Fault>
    ensures value { Takes words.new result (keep_at words.old) }
    ensures within { IfOk result (λ op. IsSpec op × IsLimit op) }
{
    let (column, compare, limit) = comparison(words)?;
    Ok(OpSpec::Keep {
        column,
        compare,
        limit,
    })
}

// What follows `total`.
#[tactic(auto, unfolding(crate::specs::Operators::total_at))]
fn total(words: &mut Words<'_>) -> Result<OpSpec, Fault>
    ensures value { Takes words.new result (total_at words.old) }
    ensures within { IfOk result (λ op. IsSpec op × IsLimit op) }
{
    let by = by(words)?;
    Ok(OpSpec::Total { by })
}

// What follows `last`.
#[tactic(auto, unfolding(crate::specs::Operators::last_at))]
fn last(words: &mut Words<'_>) -> Result<OpSpec, Fault>
    ensures value { Takes words.new result (last_at words.old) }
    ensures within { IfOk result (λ op. IsSpec op × IsLimit op) }
{
    let (by, rows) = key_and_number(words, 1, u64::from(MAX_LAST_ROWS))?;
    Ok(OpSpec::Last {
        by,
        rows: rows as u32,
    })
}

// What follows `window`.
#[tactic(auto, unfolding(crate::specs::Operators::window_at))]
fn window(words: &mut Words<'_>) -> Result<OpSpec, Fault>
    ensures value { Takes words.new result (window_at words.old) }
    ensures within { IfOk result (λ op. IsSpec op × IsLimit op) }
{
    let (by, width) = key_and_number(words, 1, MAX_WINDOW_SECONDS as u64)?;
    Ok(OpSpec::Window {
        by,
        width: width as i64,
    })
}

// What follows `crossing`.
#[tactic(auto, unfolding(crate::specs::Operators::crossing_at))]
fn crossing(words: &mut Words<'_>) -> Result<OpSpec, Fault>
    ensures value { Takes words.new result (crossing_at words.old) }
    ensures within { IfOk result (λ op. IsSpec op × IsLimit op) }
{
    let (by, limit) = key_and_number(words, 0, BIG as u64)?;
    Ok(OpSpec::Crossing {
        by,
        limit: limit as i64,
    })
}

// What follows `join`.
#[tactic(auto, unfolding(crate::specs::Operators::join_at))]
fn join(words: &mut Words<'_>) -> Result<OpSpec, Fault>
    ensures value { Takes words.new result (join_at words.old) }
    ensures within { IfOk result (λ op. IsSpec op × IsLimit op) }
{
    let (by, width) = key_and_number(words, 1, MAX_WINDOW_SECONDS as u64)?;
    let rows = number_from(words, 1, u64::from(MAX_JOIN_ROWS))?;
    let (column, compare, limit) = comparison(words)?;
    Ok(OpSpec::Join {
        by,
        width: width as i64,
        rows: rows as u32,
        column,
        compare,
        limit,
    })
}

// An operator and its settings.
#[tactic(auto, unfolding(crate::specs::Operators::op_at))]
pub(crate) fn op(words: &mut Words<'_>) -> Result<OpSpec, Fault>
    ensures value { Takes words.new result (op_at words.old) }
    ensures within { IfOk result (λ op. IsSpec op × IsLimit op) }
{
    let found = words.word_or(Fault::Grammar)?;
    if is_word(found, "keep") {
        return keep(words);
    }
    if is_word(found, "total") {
        return total(words);
    }
    if is_word(found, "last") {
        return last(words);
    }
    if is_word(found, "window") {
        return window(words);
    }
    if is_word(found, "crossing") {
        return crossing(words);
    }
    if is_word(found, "join") {
        return join(words);
    }
    Err(Fault::UnknownWord)
}
