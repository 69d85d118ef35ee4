// The rows that stages pass on.
ghost use Rattle.evaluation.specs.StageRows.{HasTime};
ghost use Rattle.plan_reader.specs.PlanView.{IsStage};
ghost use Rattle.row_origin.specs.Origins.{rows_after};
ghost use Rattle.std.specs.Prelude.{◌≡◌, ◌≤◌, [], All, IfOk, drop, length, take};

use crate::origins::pass_stage;
use plan_reader::Stage;
use std::alloc::Global;
use tuple_edge::{OutOfMemory, Row};

// The rows that the last of some stages passes on, of rows that come to the first one, of which so many come early.
fn rows_behind(
    alloc: Global,
    stages: &[Stage],
    rows: Vec<Row>,
    early: usize,
) -> Result<Vec<Row>, OutOfMemory>
    requires stages { All IsStage stages.now }
    requires times { All HasTime rows.items }
    requires early { early ≤ length rows.items }
    ensures { IfOk result (λ out. out.items ≡ rows_after stages.now (take early rows.items) (drop early rows.items)) }
{
    let Some((stage, later)) = stages.split_first() else {
        return Ok(rows);
    };
    let next = pass_stage(alloc, stage, &rows, early)?;
    rows_behind(alloc, later, next.rows, next.early)
}

/// The rows that the last of some stages passes on of rows that come to the first one.
pub fn rows_passed(alloc: Global, stages: &[Stage], rows: Vec<Row>) -> Result<Vec<Row>, OutOfMemory>
    requires stages { All IsStage stages.now }
    requires times { All HasTime rows.items }
    ensures { IfOk result (λ out. out.items ≡ rows_after stages.now rows.items []) }
{
    let early = rows.len();
    rows_behind(alloc, stages, rows, early)
}
