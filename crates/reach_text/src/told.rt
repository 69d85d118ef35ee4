// The rows that are told, and what they are added to.
ghost use Rattle.op_spec.specs.Keys.{is_key, key_of};
ghost use Rattle.reach_finder.specs.Traced.{marks_in, rows_in};
ghost use Rattle.reach_text.specs.Told.{is_with, kept_by, rows_before, told_from};
ghost use Rattle.std.specs.Prelude.{◌≡◌, ◌≤◌, ◌<◌, ◌+◌, ◌^◌, ◌++◌, ◌∷◌, [], IfOk, OnOk, if◌then◌else◌, min};

use op_spec::{By, OpSpec};
use plan_reader::Stage;
use reach_finder::Traced;
use std::alloc::Global;
use std::cmp::Ordering;
use tuple_edge::{OutOfMemory, Row, route};

/// A row that is reached: its number among those that come to a stage, or leave the last one, from 1.
#[derive(Clone, Copy, Debug, PartialEq, Eq)]
pub struct ToldRow {
    pub number: usize,
    pub row: Row,
}

// Appends a row if it is reached.
fn push_if(told: &mut Vec<ToldRow>, x: ToldRow, reached: bool) -> Result<(), OutOfMemory>
    ensures { OnOk result (told.new.items ≡ told.old.items ++ (if reached then x ∷ [] else [])) }
{
    if reached {
        told.push(x)?;
    }
    Ok(())
}

// The rows that are reached, with their numbers.
pub(crate) fn told_rows(alloc: Global, rows: &[Traced]) -> Result<Vec<ToldRow>, OutOfMemory>
    ensures { IfOk result (λ told. told.items ≡ told_from 1 (rows_in rows.now) (marks_in rows.now)) }
{
    let mut told = Vec::new(alloc);
    for (place, x) in rows.iter().enumerate() {
        push_if(
            &mut told,
            ToldRow {
                number: place + 1,
                row: x.row,
            },
            x.reached,
        )?;
    }
    Ok(told)
}

// By what an operator keeps rows together, if it does.
pub(crate) fn kept_by(op: &OpSpec) -> Option<By>
    ensures { result ≡ kept_by op.now }
{
    match *op {
        OpSpec::Keep { .. } => None,
        OpSpec::Total { by }
        | OpSpec::Last { by, .. }
        | OpSpec::Window { by, .. }
        | OpSpec::Crossing { by, .. }
        | OpSpec::Join { by, .. } => Some(by),
    }
}

// Whether two rows have one key.
fn is_of_key(by: By, x: &Row, r: &Row) -> bool
    ensures { result ≡ is_key (key_of by x.now) (key_of by r.now) }
{
    by.key(x).cmp(&by.key(r)) == Ordering::Equal
}

// Whether a row goes to the partition of another one and has its key.
fn is_with(stage: &Stage, by: By, r: &Row, x: &Row) -> bool
    requires { 1 ≤ stage.now.parts }
    ensures { result ≡ is_with stage.now by r.now x.now }
{
    route(x, stage.by, stage.parts) == route(r, stage.by, stage.parts) && is_of_key(by, x, r)
}

// One more, where it is so.
fn counted(more: bool, count: u64) -> u64
    requires { count < 2 ^ 63 }
    ensures value { result ≡ (if more then count + 1 else count) }
    ensures few { result ≤ count + 1 }
{
    if more { count + 1 } else { count }
}

// The lesser of two numbers.
fn least(a: usize, b: usize) -> usize
    ensures { result ≡ min a b }
{
    a.min(b)
}

// How many rows of its key its partition took before a row.
pub(crate) fn rows_before(stage: &Stage, by: By, rows: &[Traced], x: &ToldRow) -> u64
    requires { 1 ≤ stage.now.parts }
    ensures { result ≡ rows_before stage.now by (rows_in rows.now) x.now }
{
    let end = least(x.number.saturating_sub(1), rows.len());
    let mut count = 0;
    for place in 0..end {
        let other = rows[place];
        let more = is_with(stage, by, &x.row, &other.row);
        count = counted(more, count);
    }
    count
}
