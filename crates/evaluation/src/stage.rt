// What a stage makes of the rows that come to it.
ghost use Rattle.std.specs.Prelude.{◌≡◌, [], All, IfOk};
ghost use Rattle.evaluation.specs.StageRows.{HasTime, early_replies, late_replies};
ghost use Rattle.plan_reader.specs.PlanView.{IsStage};

use crate::states::{early_answers, late_answers, opened_states};
use plan_reader::Stage;
use std::alloc::Global;
use tuple_edge::{OutOfMemory, Row};

/// The rows that come to a stage or, after the last one, to egress, in order: early ones, and after them late ones,
/// which all have the stamp of the end. No two early ones that come to a stage have one stamp.
#[derive(Drop)]
pub(crate) struct Rows {
    pub(crate) early: Vec<Row>,
    pub(crate) late: Vec<Row>,
}

/// The rows that a stage passes on of early and late ones that come to it.
pub(crate) fn passed(
    alloc: Global,
    stage: &Stage,
    early: &[Row],
    late: &[Row],
) -> Result<Rows, OutOfMemory>
    requires stage { IsStage stage.now }
    requires early_times { All HasTime early.now }
    requires late_times { All HasTime late.now }
    ensures early { IfOk result (λ next. next.early.items ≡ early_replies stage.now [] early.now) }
    ensures late { IfOk result (λ next. next.late.items ≡ late_replies stage.now early.now late.now 0 stage.now.parts) }
{
    let mut states = opened_states(alloc, stage)?;
    let early = early_answers(alloc, &mut states, stage, early)?;
    let late = late_answers(alloc, &mut states, stage, late)?;
    Ok(Rows { early, late })
}
