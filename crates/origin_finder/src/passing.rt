// How rows pass a stage, and what made its operators give the rows that it passes on.
ghost use Rattle.evaluation.specs.StageRows.{HasTaken, HasTime, PartsTook, alike, early_replies, late_replies, part_replies, row_replies, rows_to};
ghost use Rattle.op_spec.specs.Times.{IsTimely};
ghost use Rattle.plan_reader.specs.PlanView.{IsStage};
ghost use Rattle.row_cause.specs.Causes.{row_causes, spoken};
ghost use Rattle.origin_finder.specs.Passing.{HasPassed, causes_from};
ghost use Rattle.origin_finder.specs.Said.{HasNoted, IsNext};
ghost use Rattle.row_origin.specs.Stages.{causes_of, early_causes, late_causes, placed_from, placed_to};
ghost use Rattle.std.specs.Prelude.{◌≡◌, ◌≤◌, ◌<◌, ◌+◌, ◌++◌, ◌∷◌, [], All, IfOk, List, OnOk, Some, drop, length, slice_get, take};
ghost use Rattle.stream_ops.specs.Answers.{IsOpen, answer};
ghost use Rattle.stream_ops.specs.State.{StandsFor};
ghost use Rattle.tuple_edge.specs.Row.{route_of};
ghost use Rattle.tuple_edge.specs.declared.item.Item.{Item};
ghost use Rattle.tuple_edge.specs.declared.row.Row.{Row};

use crate::said::{Speaker, note};
use plan_reader::Stage;
use row_cause::Placed;
use std::alloc::Global;
use stream_ops::OpState;
use tuple_edge::{Item, OutOfMemory, Row, route};

// The operators of a stage's partitions, which were given nothing.
pub(crate) fn opened_states(alloc: Global, stage: &Stage) -> Result<Vec<OpState>, OutOfMemory>
    requires { IsStage stage.now }
    ensures parts { IfOk result (λ states. length states.items ≡ stage.now.parts) }
    ensures took { IfOk result (λ states. PartsTook stage.now 0 states.items []) }
{
    let mut states = Vec::with_capacity(alloc, stage.parts as usize)?;
    for _part in 0..stage.parts {
        states.push(OpState::new(alloc, stage.op))?;
    }
    Ok(states)
}

// What made an operator speak, as an item.
fn spoken(speaker: &Option<Placed>) -> Item
    ensures { result ≡ spoken speaker.now }
{
    match speaker {
        None => Item::End { stamp: 0 },
        Some(r) => Item::Row {
            stamp: 0,
            row: r.row,
        },
    }
}

// Gives an operator the next row of its partition or the end, and notes what it answers. These rows came to the stage before.
fn take(
    state: &mut OpState,
    stage: &Stage,
    part: u32,
    rows: &[Row],
    speaker: &Option<Placed>,
    out: &mut Vec<Row>,
    said: &mut Vec<Speaker>,
) -> Result<(), OutOfMemory>
    requires stage { IsStage stage.now }
    requires timely { IsTimely (spoken speaker.now) }
    ensures answers { OnOk result (HasTaken stage.now.op state.old (rows_to stage.now part rows.now)
        → out.new.items ≡ out.old.items ++ answer stage.now.op (alike (rows_to stage.now part rows.now)) (spoken speaker.now)) }
    ensures stands { OnOk result ((before : List Item) → IsOpen before → StandsFor state.old before → StandsFor state.new (before ++ spoken speaker.now ∷ [])) }
    ensures spec { state.new.spec ≡ state.old.spec }
    ensures said { OnOk result (HasTaken stage.now.op state.old (rows_to stage.now part rows.now) → (all : List Row) → IsNext stage.now part all rows.now speaker.now
        → HasNoted stage.now all (causes_of stage.now.op (placed_to stage.now part (placed_from 0 rows.now)) speaker.now) said.old.items said.new.items) }
{
    let had = out.len();
    state.step(spoken(speaker), out)?;
    note(said, part, speaker, out, had)
}

// Gives a row to the partition to which it goes, and notes what it answers.
fn take_early(
    states: &mut [OpState],
    stage: &Stage,
    rows: &[Row],
    r: &Placed,
    out: &mut Vec<Row>,
    said: &mut Vec<Speaker>,
) -> Result<(), OutOfMemory>
    requires stage { IsStage stage.now }
    requires parts { length states.old ≡ stage.now.parts }
    requires times { HasTime r.now.row }
    ensures answers { OnOk result (PartsTook stage.now 0 states.old rows.now
        → out.new.items ≡ out.old.items ++ row_replies stage.now rows.now r.now.row) }
    ensures took { OnOk result (PartsTook stage.now 0 states.old rows.now
        → PartsTook stage.now 0 states.new (rows.now ++ r.now.row ∷ [])) }
    ensures parts { length states.new ≡ length states.old }
    ensures said { OnOk result (PartsTook stage.now 0 states.old rows.now → (all : List Row) → rows.now ≡ take r.now.place all → slice_get all r.now.place ≡ Some r.now.row
        → HasNoted stage.now all (row_causes stage.now.op (placed_to stage.now (route_of r.now.row stage.now.by stage.now.parts) (placed_from 0 rows.now)) r.now)
        said.old.items said.new.items) }
{
    let part = route(&r.row, stage.by, stage.parts);
    take(
        &mut states[part as usize],
        stage,
        part,
        rows,
        &Some(*r),
        out,
        said,
    )
}

// What the operators answer to early rows, each of which goes to its partition.
pub(crate) fn pass_early(
    states: &mut [OpState],
    stage: &Stage,
    rows: &[Row],
    out: &mut Vec<Row>,
    said: &mut Vec<Speaker>,
) -> Result<(), OutOfMemory>
    requires stage { IsStage stage.now }
    requires parts { length states.old ≡ stage.now.parts }
    requires took { PartsTook stage.now 0 states.old [] }
    requires times { All HasTime rows.now }
    requires none { out.old.items ≡ [] }
    ensures answers { OnOk result (out.new.items ≡ early_replies stage.now [] rows.now) }
    ensures took { OnOk result (PartsTook stage.now 0 states.new rows.now) }
    ensures parts { OnOk result (length states.new ≡ stage.now.parts) }
    ensures said { OnOk result ((late : List Row)
        → HasNoted stage.now (rows.now ++ late) (early_causes stage.now [] (placed_from 0 rows.now)) said.old.items said.new.items) }
{
    for (place, row) in rows.iter().enumerate() {
        let r = Placed { place, row: *row };
        take_early(states, stage, &rows[..place], &r, out, said)?;
    }
    Ok(())
}

// Gives an operator those of the late rows that go to its partition, and then the end. The rows before `place` came early.
fn finish(
    state: &mut OpState,
    stage: &Stage,
    part: u32,
    rows: &[Row],
    early: usize,
    out: &mut Vec<Row>,
    said: &mut Vec<Speaker>,
) -> Result<(), OutOfMemory>
    requires stage { IsStage stage.now }
    requires times { All HasTime rows.now }
    requires early { early ≤ length rows.now }
    ensures answers { OnOk result (HasTaken stage.now.op state.old (rows_to stage.now part (take early rows.now))
        → out.new.items ≡ out.old.items ++ part_replies stage.now (take early rows.now) (drop early rows.now) part) }
    ensures said { OnOk result (HasTaken stage.now.op state.old (rows_to stage.now part (take early rows.now))
        → HasNoted stage.now rows.now (causes_from stage.now part rows.now early) said.old.items said.new.items) }
{
    for place in early..rows.len() {
        take_if(state, stage, part, rows, place, out, said)?;
    }
    take(state, stage, part, rows, &None, out, said)
}

// Gives an operator the row of this place if it goes to its partition.
fn take_if(
    state: &mut OpState,
    stage: &Stage,
    part: u32,
    rows: &[Row],
    place: usize,
    out: &mut Vec<Row>,
    said: &mut Vec<Speaker>,
) -> Result<(), OutOfMemory>
    requires stage { IsStage stage.now }
    requires times { All HasTime rows.now }
    requires there { place < length rows.now }
    ensures passed { OnOk result (HasTaken stage.now.op state.old (rows_to stage.now part (take place rows.now))
        → HasPassed stage.now part rows.now place (record { state = state.old; out = out.old.items; said = said.old.items }) (record { state = state.new; out = out.new.items; said = said.new.items })) }
{
    let row = rows[place];
    if route(&row, stage.by, stage.parts) != part {
        return Ok(());
    }
    let r = Placed { place, row };
    take(state, stage, part, &rows[..place], &Some(r), out, said)
}

// What the operators answer to late rows and to the end, one partition after the other.
pub(crate) fn pass_late(
    states: &mut [OpState],
    stage: &Stage,
    rows: &[Row],
    early: usize,
    out: &mut Vec<Row>,
    said: &mut Vec<Speaker>,
) -> Result<(), OutOfMemory>
    requires stage { IsStage stage.now }
    requires parts { length states.old ≡ stage.now.parts }
    requires took { PartsTook stage.now 0 states.old (take early rows.now) }
    requires times { All HasTime rows.now }
    requires early { early ≤ length rows.now }
    ensures answers { OnOk result (out.new.items ≡ out.old.items ++ late_replies stage.now (take early rows.now) (drop early rows.now) 0 stage.now.parts) }
    ensures said { OnOk result (HasNoted stage.now rows.now (late_causes stage.now
        (placed_from 0 (take early rows.now)) (placed_from early (drop early rows.now)) 0 stage.now.parts) said.old.items said.new.items) }
{
    let mut part = 0;
    for state in states.iter_mut() {
        finish(state, stage, part, rows, early, out, said)?;
        part += 1;
    }
    Ok(())
}
