// The row with which a pair of a join is made.
ghost use Rattle.cause_finder.specs.Found.{RestsOn};
ghost use Rattle.op_spec.specs.Spec.{is_join};
ghost use Rattle.plan_reader.specs.PlanView.{IsStage};
ghost use Rattle.row_cause.specs.Causes.{of_its_key, partners, row_causes, spoke};
ghost use Rattle.row_origin.specs.Stages.{placed_from, placed_to};
ghost use Rattle.std.specs.Prelude.{◌≡◌, ◌≤◌, ◌≤ℤ◌, pos, true, IfOk, slice_get};
ghost use Rattle.stream_ops.specs.Joins.{is_left};
ghost use Rattle.tuple_edge.specs.Row.{route_of};

use crate::keyed::keyed;
use crate::partners::partners;
use op_spec::{By, Compare, OpSpec};
use plan_reader::Stage;
use row_cause::Placed;
use std::alloc::Global;
use tuple_edge::{Column, OutOfMemory, Row, route};

// The nth of some rows.
fn nth_of(placed: &[Placed], nth: usize) -> Option<Placed>
    ensures { result ≡ slice_get placed.now nth }
{
    placed.get(nth).copied()
}

// That of a join's nth pair.
fn nth_partner(
    alloc: Global,
    stage: &Stage,
    by: By,
    width: i64,
    most: u32,
    column: Column,
    compare: Compare,
    limit: i64,
    rows: &[Row],
    r: &Placed,
    nth: usize,
) -> Result<Option<Placed>, OutOfMemory>
    requires parts { 1 ≤ stage.now.parts }
    requires wide { pos 1 ≤ℤ width }
    ensures { IfOk result (λ one. one ≡ slice_get (partners width most (is_left column compare limit)
        (of_its_key by r.now (placed_to stage.now (route_of r.now.row stage.now.by stage.now.parts) (placed_from 0 rows.now))) r.now) nth) }
{
    let part = route(&r.row, stage.by, stage.parts);
    let own = keyed(alloc, stage, part, by, &by.key(&r.row), rows)?;
    let others = partners(alloc, width, most, column, compare, limit, &own, r)?;
    Ok(nth_of(&others, nth))
}

/// The row on which the nth pair rests that a join answers a row with. These rows came to the stage before, and those of the partition and
/// the key alone are looked at. No other operator makes pairs.
pub fn partner_of(
    alloc: Global,
    stage: &Stage,
    rows: &[Row],
    r: &Placed,
    nth: usize,
) -> Result<Option<Placed>, OutOfMemory>
    requires { IsStage stage.now }
    ensures { IfOk result (λ one. is_join stage.now.op ≡ true
        → RestsOn (row_causes stage.now.op (placed_to stage.now (route_of r.now.row stage.now.by stage.now.parts) (placed_from 0 rows.now)) r.now) nth (spoke one)) }
{
    match stage.op {
        OpSpec::Join {
            by,
            width,
            rows: most,
            column,
            compare,
            limit,
        } => nth_partner(
            alloc, stage, by, width, most, column, compare, limit, rows, r, nth,
        ),
        OpSpec::Keep { .. }
        | OpSpec::Total { .. }
        | OpSpec::Last { .. }
        | OpSpec::Window { .. }
        | OpSpec::Crossing { .. } => Ok(None),
    }
}
