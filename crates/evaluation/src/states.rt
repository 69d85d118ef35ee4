// The operators of a stage's partitions, and what they answer to rows. Answers don't depend on stamps, so every item has stamp 0 here.
ghost use Rattle.std.specs.Prelude.{◌≡◌, ◌≤◌, ◌<◌, ◌++◌, ◌∷◌, [], All, IfOk, List, OnOk, length};
ghost use Rattle.evaluation.specs.StageRows.{HasTaken, HasTime, PartsTook, alike, early_replies, late_replies, row_replies, rows_to};
ghost use Rattle.plan_reader.specs.PlanView.{IsStage};
ghost use Rattle.stream_ops.specs.Answers.{answers};
ghost use Rattle.tuple_edge.specs.declared.item.Item.TheVariants as item;
ghost use Rattle.tuple_edge.specs.declared.row.Row.{Row};

use plan_reader::Stage;
use std::alloc::Global;
use stream_ops::OpState;
use tuple_edge::{Item, OutOfMemory, Row, route};

/// The operators of a stage's partitions, which were given nothing.
pub(crate) fn opened_states(alloc: Global, stage: &Stage) -> Result<Vec<OpState>, OutOfMemory>
    requires { IsStage stage.now }
    ensures parts { IfOk result (λ states. length states.items ≡ stage.now.parts) }
    ensures took { IfOk result (λ states. PartsTook stage.now 0 states.items []) }
{
    let mut states = Vec::with_capacity(alloc, stage.parts as usize)?;
    for _part in 0..stage.parts {
        states.push(OpState::new(alloc, stage.op))?;
    }
    Ok(states)
}

/// What the operators answer to early rows, each of which goes to its partition.
pub(crate) fn early_answers(
    alloc: Global,
    states: &mut [OpState],
    stage: &Stage,
    rows: &[Row],
) -> Result<Vec<Row>, OutOfMemory>
    requires some { 1 ≤ stage.now.parts }
    requires parts { length states.old ≡ stage.now.parts }
    requires times { All HasTime rows.now }
    ensures answers { IfOk result (λ out. PartsTook stage.now 0 states.old [] → out.items ≡ early_replies stage.now [] rows.now) }
    ensures took { OnOk result (PartsTook stage.now 0 states.old [] → PartsTook stage.now 0 states.new rows.now) }
    ensures parts { OnOk result (length states.new ≡ stage.now.parts) }
{
    // Room for an answer to each row. A join may answer with more, and the list grows.
    let mut out = Vec::with_capacity(alloc, rows.len())?;
    for row in rows {
        take_row(states, stage, row, &mut out)?;
    }
    Ok(out)
}

// Gives a row to the partition to which it goes.
fn take_row(
    states: &mut [OpState],
    stage: &Stage,
    row: &Row,
    out: &mut Vec<Row>,
) -> Result<(), OutOfMemory>
    requires some { 1 ≤ stage.now.parts }
    requires parts { length states.old ≡ stage.now.parts }
    requires times { HasTime row.now }
    ensures answers { OnOk result ((before : List Row) → PartsTook stage.now 0 states.old before
        → out.new.items ≡ out.old.items ++ row_replies stage.now before row.now) }
    ensures took { OnOk result ((before : List Row) → PartsTook stage.now 0 states.old before
        → PartsTook stage.now 0 states.new (before ++ row.now ∷ [])) }
    ensures parts { length states.new ≡ length states.old }
{
    let part = route(row, stage.by, stage.parts);
    states[part as usize].step(
        Item::Row {
            stamp: 0,
            row: *row,
        },
        out,
    )
}

/// What the operators answer to late rows and to the end, one partition after the other.
pub(crate) fn late_answers(
    alloc: Global,
    states: &mut [OpState],
    stage: &Stage,
    rows: &[Row],
) -> Result<Vec<Row>, OutOfMemory>
    requires stage { IsStage stage.now }
    requires parts { length states.old ≡ stage.now.parts }
    requires times { All HasTime rows.now }
    ensures { IfOk result (λ out. (early : List Row) → PartsTook stage.now 0 states.old early
        → out.items ≡ late_replies stage.now early rows.now 0 stage.now.parts) }
{
    let mut out = Vec::new(alloc);
    let mut part = 0;
    for state in states.iter_mut() {
        finish(state, stage, part, rows, &mut out)?;
        part += 1;
    }
    Ok(out)
}

// Gives an operator the rows that go to its partition, and the end.
fn finish(
    state: &mut OpState,
    stage: &Stage,
    part: u32,
    rows: &[Row],
    out: &mut Vec<Row>,
) -> Result<(), OutOfMemory>
    requires some { 1 ≤ stage.now.parts }
    requires times { All HasTime rows.now }
    ensures { OnOk result ((before : List Row) → HasTaken stage.now.op state.old before
        → out.new.items ≡ out.old.items ++ answers stage.now.op (alike before) (alike (rows_to stage.now part rows.now) ++ item.End 0 ∷ [])) }
{
    for row in rows {
        if route(row, stage.by, stage.parts) == part {
            state.step(
                Item::Row {
                    stamp: 0,
                    row: *row,
                },
                out,
            )?;
        }
    }
    state.step(Item::End { stamp: 0 }, out)
}
