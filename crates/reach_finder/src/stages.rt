// What a stage passes on of rows that are told apart by whether they are reached.
ghost use Rattle.evaluation.specs.StageRows.{HasTime, early_replies, late_replies};
ghost use Rattle.plan_reader.specs.PlanView.{IsStage};
ghost use Rattle.reach_finder.specs.Traced.{HasSeen, PartsSaw, marks_in, rows_in, traced_early, traced_late, traced_part, traced_reply};
ghost use Rattle.reach_finder.specs.declared.shades.Traced.{Traced};
ghost use Rattle.row_reach.specs.Reach.{reached};
ghost use Rattle.std.specs.Prelude.{◌≡◌, ◌≤◌, ◌++◌, ◌∷◌, [], All, IfOk, List, OnOk, length};

use crate::shades::Traced;
use crate::tracer::Tracer;
use plan_reader::Stage;
use std::alloc::Global;
use tuple_edge::{OutOfMemory, route};

/// The rows that come to a stage, each with whether it is reached: early ones, and after them late ones, which all have the stamp of the end.
#[derive(Drop)]
pub(crate) struct Rows {
    pub(crate) early: Vec<Traced>,
    pub(crate) late: Vec<Traced>,
}

// The operators of a stage's partitions, which were given nothing.
fn opened(alloc: Global, stage: &Stage) -> Result<Vec<Tracer>, OutOfMemory>
    requires { IsStage stage.now }
    ensures parts { IfOk result (λ tracers. length tracers.items ≡ stage.now.parts) }
    ensures saw { IfOk result (λ tracers. PartsSaw stage.now 0 tracers.items []) }
{
    let mut tracers = Vec::with_capacity(alloc, stage.parts as usize)?;
    for _part in 0..stage.parts {
        tracers.push(Tracer::new(alloc, stage.op))?;
    }
    Ok(tracers)
}

// Gives a row to the partition to which it goes.
fn take_row(
    alloc: Global,
    tracers: &mut [Tracer],
    stage: &Stage,
    x: &Traced,
    out: &mut Vec<Traced>,
) -> Result<(), OutOfMemory>
    requires some { 1 ≤ stage.now.parts }
    requires parts { length tracers.old ≡ stage.now.parts }
    requires times { HasTime x.now.row }
    ensures answers { OnOk result ((before : List Traced) → PartsSaw stage.now 0 tracers.old before
        → out.new.items ≡ out.old.items ++ traced_reply stage.now before x.now) }
    ensures saw { OnOk result ((before : List Traced) → PartsSaw stage.now 0 tracers.old before
        → PartsSaw stage.now 0 tracers.new (before ++ x.now ∷ [])) }
    ensures parts { length tracers.new ≡ length tracers.old }
{
    let part = route(&x.row, stage.by, stage.parts);
    tracers[part as usize].take(alloc, &stage.op, x, out)
}

// What the operators answer to early rows, each of which goes to its partition.
fn early_answers(
    alloc: Global,
    tracers: &mut [Tracer],
    stage: &Stage,
    rows: &[Traced],
) -> Result<Vec<Traced>, OutOfMemory>
    requires some { 1 ≤ stage.now.parts }
    requires parts { length tracers.old ≡ stage.now.parts }
    requires times { All (λ (x : Traced). HasTime x.row) rows.now }
    ensures answers { IfOk result (λ out. PartsSaw stage.now 0 tracers.old [] → out.items ≡ traced_early stage.now [] rows.now) }
    ensures saw { OnOk result (PartsSaw stage.now 0 tracers.old [] → PartsSaw stage.now 0 tracers.new rows.now) }
    ensures parts { OnOk result (length tracers.new ≡ stage.now.parts) }
{
    let mut out = Vec::with_capacity(alloc, rows.len())?;
    for x in rows {
        take_row(alloc, tracers, stage, x, &mut out)?;
    }
    Ok(out)
}

// Gives an operator those of the late rows that go to its partition, and then the end.
fn finish(
    alloc: Global,
    tracer: &mut Tracer,
    stage: &Stage,
    part: u32,
    rows: &[Traced],
    out: &mut Vec<Traced>,
) -> Result<(), OutOfMemory>
    requires some { 1 ≤ stage.now.parts }
    requires times { All (λ (x : Traced). HasTime x.row) rows.now }
    ensures { OnOk result ((before : List Traced) → HasSeen stage.now.op tracer.old before
        → out.new.items ≡ out.old.items ++ traced_part stage.now part before rows.now) }
{
    for x in rows {
        if route(&x.row, stage.by, stage.parts) == part {
            tracer.take(alloc, &stage.op, x, out)?;
        }
    }
    tracer.end(alloc, &stage.op, out)
}

// What the operators answer to late rows and to the end, one partition after the other.
fn late_answers(
    alloc: Global,
    tracers: &mut [Tracer],
    stage: &Stage,
    rows: &[Traced],
) -> Result<Vec<Traced>, OutOfMemory>
    requires stage { IsStage stage.now }
    requires parts { length tracers.old ≡ stage.now.parts }
    requires times { All (λ (x : Traced). HasTime x.row) rows.now }
    ensures { IfOk result (λ out. (early : List Traced) → PartsSaw stage.now 0 tracers.old early
        → out.items ≡ traced_late stage.now early rows.now 0 stage.now.parts) }
{
    let mut out = Vec::new(alloc);
    let mut part = 0;
    for tracer in tracers.iter_mut() {
        finish(alloc, tracer, stage, part, rows, &mut out)?;
        part += 1;
    }
    Ok(out)
}

// What a stage answers to early and late rows.
fn answered(
    alloc: Global,
    stage: &Stage,
    early: &[Traced],
    late: &[Traced],
) -> Result<Rows, OutOfMemory>
    requires stage { IsStage stage.now }
    requires early_times { All (λ (x : Traced). HasTime x.row) early.now }
    requires late_times { All (λ (x : Traced). HasTime x.row) late.now }
    ensures early { IfOk result (λ next. next.early.items ≡ traced_early stage.now [] early.now) }
    ensures late { IfOk result (λ next. next.late.items ≡ traced_late stage.now early.now late.now 0 stage.now.parts) }
{
    let mut tracers = opened(alloc, stage)?;
    let early = early_answers(alloc, &mut tracers, stage, early)?;
    let late = late_answers(alloc, &mut tracers, stage, late)?;
    Ok(Rows { early, late })
}

/// The rows that a stage passes on of early and late ones that come to it, and which of them are reached.
pub(crate) fn passed(
    alloc: Global,
    stage: &Stage,
    early: &[Traced],
    late: &[Traced],
) -> Result<Rows, OutOfMemory>
    requires stage { IsStage stage.now }
    requires early_times { All (λ (x : Traced). HasTime x.row) early.now }
    requires late_times { All (λ (x : Traced). HasTime x.row) late.now }
    ensures early { IfOk result (λ next. rows_in next.early.items ≡ early_replies stage.now [] (rows_in early.now)) }
    ensures late { IfOk result (λ next. rows_in next.late.items ≡ late_replies stage.now (rows_in early.now) (rows_in late.now) 0 stage.now.parts) }
    ensures marks { IfOk result (λ next. marks_in (next.early.items ++ next.late.items) ≡ reached stage.now (rows_in early.now) (rows_in late.now) (marks_in (early.now ++ late.now))) }
{
    let next = answered(alloc, stage, early, late)?;
    Ok(next)
}
