// Marks in place of amounts, and what answers to them tell.
ghost use Rattle.reach_finder.specs.Shades.{compares_value, is_value, marking, reached_by, shaded, tells, traced_by, weight};
ghost use Rattle.std.specs.Prelude.{◌≡◌, ◌++◌, OnOk, slice_get};

use op_spec::OpSpec;
use tuple_edge::{Column, OutOfMemory, Row};

/// A row, and whether it is reached.
#[derive(Clone, Copy, Debug, PartialEq, Eq)]
pub struct Traced {
    pub row: Row,
    pub reached: bool,
}

// Whether a column is the value.
fn is_value(column: Column) -> bool
    ensures { result ≡ is_value column }
{
    matches!(column, Column::Value)
}

// Whether an operator compares the values of rows, so that the mark stands in place of the quantity.
fn compares_value(op: &OpSpec) -> bool
    ensures { result ≡ compares_value op.now }
{
    match *op {
        OpSpec::Keep { column, .. } | OpSpec::Join { column, .. } => is_value(column),
        OpSpec::Total { .. }
        | OpSpec::Last { .. }
        | OpSpec::Window { .. }
        | OpSpec::Crossing { .. } => false,
    }
}

/// The operator that adds up the marks: a crossing answers by its sums, so its marks are totalled.
pub(crate) fn marking(op: OpSpec) -> OpSpec
    ensures { result ≡ marking op }
{
    match op {
        OpSpec::Crossing { by, .. } => OpSpec::Total { by },
        other => other,
    }
}

// A mark as a number.
fn weight(reached: bool) -> i64
    ensures { result ≡ weight reached }
{
    if reached { 1 } else { 0 }
}

/// A row with its mark in place of an amount that the operator doesn't compare.
pub(crate) fn shaded(op: &OpSpec, x: &Traced) -> Row
    ensures { result ≡ shaded op.now x.now }
{
    let mark = weight(x.reached);
    let row = x.row;
    if compares_value(op) {
        Row { qty: mark, ..row }
    } else {
        Row { value: mark, ..row }
    }
}

// Whether a reached row counts into an answer to marks.
fn tells(op: &OpSpec, row: &Row) -> bool
    ensures { result ≡ tells op.now row.now }
{
    if compares_value(op) {
        row.qty > 0
    } else {
        row.value > 0
    }
}

// Whether answer `nth` is reached: the row that made the operator speak is, or the answer to the marks tells so.
fn is_reached(op: &OpSpec, spoke: bool, shades: &[Row], nth: usize) -> bool
    ensures { result ≡ reached_by op.now spoke (slice_get shades.now nth) }
{
    match shades.get(nth) {
        Some(shade) => spoke || tells(op, shade),
        None => spoke,
    }
}

/// Puts answers behind others, each with whether it is reached.
pub(crate) fn trace(
    op: &OpSpec,
    spoke: bool,
    rows: &[Row],
    shades: &[Row],
    out: &mut Vec<Traced>,
) -> Result<(), OutOfMemory>
    ensures { OnOk result (out.new.items ≡ out.old.items ++ traced_by op.now spoke rows.now shades.now) }
{
    for (nth, row) in rows.iter().enumerate() {
        let reached = is_reached(op, spoke, shades, nth);
        out.push(Traced { row: *row, reached })?;
    }
    Ok(())
}
