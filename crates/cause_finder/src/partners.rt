// The rows with which a join pairs a row.
ghost use Rattle.circular_buffer.specs.Buffer.{keep_last};
ghost use Rattle.row_cause.specs.Causes.{across, partners};
ghost use Rattle.std.specs.Prelude.{◌≡◌, ◌≤ℤ◌, not, pos, IfOk, filter, if◌then◌else◌};
ghost use Rattle.std.specs.Ordering.{int_eq};
ghost use Rattle.stream_ops.specs.Windows.{window_of};
ghost use Rattle.stream_ops.specs.Joins.{is_left};

use crate::windows::window_at;
use op_spec::Compare;
use row_cause::Placed;
use std::alloc::Global;
use tuple_edge::{Column, OutOfMemory, Row};

// Whether a row is left.
fn is_left(column: Column, compare: Compare, limit: i64, row: &Row) -> bool
    ensures { result ≡ is_left column compare limit row.now }
{
    compare.holds(row.get(column), limit)
}

// Whether a row is of the side that another one is not of.
fn is_across(column: Column, compare: Compare, limit: i64, row: &Row, other: &Row) -> bool
    ensures { result ≡ (if is_left column compare limit row.now then not (is_left column compare limit other.now) else is_left column compare limit other.now) }
{
    is_left(column, compare, limit, row) != is_left(column, compare, limit, other)
}

// The rows of the side that a row is not of.
fn across(
    alloc: Global,
    column: Column,
    compare: Compare,
    limit: i64,
    placed: &[Placed],
    r: &Placed,
) -> Result<Vec<Placed>, OutOfMemory>
    ensures { IfOk result (λ rows. rows.items ≡ across (is_left column compare limit) r.now placed.now) }
{
    let mut rows = Vec::new(alloc);
    for x in placed {
        if is_across(column, compare, limit, &r.row, &x.row) {
            rows.push(*x)?;
        }
    }
    Ok(rows)
}

// The last of some rows, at most so many.
fn last_of(placed: &[Placed], most: usize) -> &[Placed]
    ensures { result.now ≡ keep_last most placed.now }
{
    &placed[placed.len().saturating_sub(most)..]
}

// Those that lie in the window of a row.
fn beside(
    alloc: Global,
    width: i64,
    placed: &[Placed],
    r: &Placed,
) -> Result<Vec<Placed>, OutOfMemory>
    requires { pos 1 ≤ℤ width }
    ensures { IfOk result (λ rows. rows.items ≡ filter (λ x. int_eq (window_of width x.row) (window_of width r.now.row)) placed.now) }
{
    let window = window_at(width, &r.row);
    let mut rows = Vec::new(alloc);
    for x in placed {
        if window_at(width, &x.row) == window {
            rows.push(*x)?;
        }
    }
    Ok(rows)
}

// Those with which a row is paired, oldest first.
pub(crate) fn partners(
    alloc: Global,
    width: i64,
    most: u32,
    column: Column,
    compare: Compare,
    limit: i64,
    placed: &[Placed],
    r: &Placed,
) -> Result<Vec<Placed>, OutOfMemory>
    requires { pos 1 ≤ℤ width }
    ensures { IfOk result (λ rows. rows.items ≡ partners width most (is_left column compare limit) placed.now r.now) }
{
    let others = across(alloc, column, compare, limit, placed, r)?;
    beside(alloc, width, last_of(&others, most as usize), r)
}
