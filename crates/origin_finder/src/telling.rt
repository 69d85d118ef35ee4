// What is told of the rows that come to a stage: on which of them those answers rest that are asked about.
ghost use Rattle.cause_finder.specs.Trails.{AreTrails, KeyTrails as TrailRows, IsBelow, chain, own_before, resting};
ghost use Rattle.origin_finder.specs.Counting.{speaker_counts};
ghost use Rattle.origin_finder.specs.Said.{AreCaused, IsCaused};
ghost use Rattle.origin_finder.specs.declared.said.Speaker.TheVariants as speaker;
ghost use Rattle.origin_finder.specs.Walking.{AreReached, IsMarkedBack, IsMarkedNext, HasTrail, chain_from, counting, from_of, has_reached};
ghost use Rattle.plan_reader.specs.PlanView.{IsStage};
ghost use Rattle.plan_reader.specs.declared.stage.Stage.{Stage};
ghost use Rattle.row_cause.specs.Causes.{Cause, row_causes};
ghost use Rattle.row_origin.specs.Marks.{asked_from, no_roles, with_causes};
ghost use Rattle.row_origin.specs.Stages.{placed_from, placed_to};
ghost use Rattle.std.specs.Prelude.{◌≡◌, ◌<◌, ◌∷◌, [], List, Some, IfOk, OnOk, if◌then◌else◌, length, nat_lt, slice_get, slice_set, take};
ghost use Rattle.tuple_edge.specs.Row.{route_of};
ghost use Rattle.tuple_edge.specs.declared.row.Row.{Row};

use crate::marks::{RowRoles, is_marked};
use crate::said::Speaker;
use cause_finder::{KeyTrails, Trail, key_trails, partner_of};
use op_spec::OpSpec;
use plan_reader::Stage;
use row_cause::Placed;
use std::alloc::Global;
use tuple_edge::{OutOfMemory, Row};

/// Whether the row that makes an operator speak counts into its answer: it only closes a window.
pub fn counts_itself(op: &OpSpec) -> bool
    ensures { result ≡ speaker_counts op.now }
{
    !matches!(op, OpSpec::Window { .. })
}

// ---- Rows of a key are marked from the last one back. Where all of them before a row are marked from a number on, this number is kept
// for the row. So a walk ends where a former one began, and the walks for all answers together take each row about once.

// Whether the rows of a key before the row of a place are marked from `low` on.
fn has_reached(reached: &[usize], place: usize, low: usize) -> bool
    ensures { result ≡ has_reached reached.now place low }
{
    match reached.get(place) {
        None => false,
        Some(from) => *from <= low,
    }
}

// Whether fewer rows than this number are before a row.
fn is_past(trail: &Trail, low: usize) -> bool
    ensures { result ≡ nat_lt trail.now.count low }
{
    trail.count < low
}

// Marks the row of a place, and gives the one of its key that is to be marked next, if rows before it are, from the number `low` on.
fn mark_known(
    trail: &Trail,
    reached: &[usize],
    low: usize,
    place: usize,
    roles: &mut RowRoles,
) -> Option<usize>
    ensures back { IsBelow place trail.now.before → IsBelow place result }
    ensures marks { (stage : Stage) (rows : List Row) (known : TrailRows) → HasTrail stage rows known place trail.now → AreReached stage rows reached.now roles.old
        → IsMarkedNext stage rows low place reached.now roles.old roles.new result }
{
    if is_past(trail, low) {
        return None;
    }
    roles.mark_counted(place);
    if has_reached(reached, place, low) {
        return None;
    }
    trail.before
}

// The same, where its trail is looked up.
fn mark_next(
    known: &KeyTrails,
    reached: &[usize],
    low: usize,
    place: usize,
    roles: &mut RowRoles,
) -> Option<usize>
    ensures back { IsBelow place result }
    ensures marks { (stage : Stage) (rows : List Row) → AreTrails stage rows known.now → place < length rows → AreReached stage rows reached.now roles.old
        → IsMarkedNext stage rows low place reached.now roles.old roles.new result }
{
    match known.trail(place) {
        None => None,
        Some(trail) => mark_known(&trail, reached, low, place, roles),
    }
}

// Marks the rows of a key up to a place from the number `low` on.
fn mark_back(
    known: &KeyTrails,
    reached: &[usize],
    low: usize,
    start: Option<usize>,
    roles: &mut RowRoles,
)
    ensures { (stage : Stage) (rows : List Row) → AreTrails stage rows known.now → IsBelow (length rows) start → AreReached stage rows reached.now roles.old
        → IsMarkedBack stage rows reached.now (chain_from stage rows low start) roles.old roles.new }
{
    let mut at = start;
    while let Some(place) = at {
        at = mark_next(known, reached, low, place, roles);
    }
}

// From which number on a trail says that the next answer rests on rows of its key.
fn from_of(trail: Option<Trail>) -> usize
    ensures { result ≡ from_of trail }
{
    match trail {
        None => 0,
        Some(trail) => trail.from,
    }
}

// From which of the rows of a key up to a place on the next answer rests on them.
fn resting_from(known: &KeyTrails, start: Option<usize>) -> usize
    ensures { (stage : Stage) (rows : List Row) → AreTrails stage rows known.now → IsBelow (length rows) start
        → resting stage.op (chain stage rows start) ≡ chain_from stage rows result start }
{
    match start {
        None => 0,
        Some(place) => from_of(known.trail(place)),
    }
}

// Marks those rows of a key up to a place on which the next answer rests, and gives the number of the first of them.
fn mark_resting(
    known: &KeyTrails,
    reached: &[usize],
    start: Option<usize>,
    roles: &mut RowRoles,
) -> usize
    ensures from { (stage : Stage) (rows : List Row) → AreTrails stage rows known.now → IsBelow (length rows) start
        → resting stage.op (chain stage rows start) ≡ chain_from stage rows result start }
    ensures marks { (stage : Stage) (rows : List Row) → AreTrails stage rows known.now → IsBelow (length rows) start → AreReached stage rows reached.now roles.old
        → IsMarkedBack stage rows reached.now (resting stage.op (chain stage rows start)) roles.old roles.new }
{
    let low = resting_from(known, start);
    mark_back(known, reached, low, start, roles);
    low
}

// Keeps from which on the rows of a key before the row of a place are marked.
fn keep_reached(reached: &mut [usize], place: usize, low: usize)
    ensures { reached.new ≡ slice_set reached.old place low }
{
    if place < reached.len() {
        reached[place] = low;
    }
}

// Marks the rows before on which the answer to the row of a place rests, where it is none of a join.
fn mark_own(known: &KeyTrails, reached: &mut [usize], place: usize, roles: &mut RowRoles)
    ensures { (stage : Stage) (rows : List Row) → AreTrails stage rows known.now → place < length rows → AreReached stage rows reached.old roles.old
        → IsMarkedBack stage rows reached.new (resting stage.op (own_before stage rows place)) roles.old roles.new }
{
    match known.trail(place) {
        None => {}
        Some(trail) => {
            let low = mark_resting(known, reached, trail.before, roles);
            keep_reached(reached, place, low);
        }
    }
}

// Marks the rows before on which the nth answer to a row rests.
fn mark_before(
    alloc: Global,
    stage: &Stage,
    rows: &[Row],
    known: &KeyTrails,
    reached: &mut [usize],
    r: &Placed,
    nth: usize,
    roles: &mut RowRoles,
) -> Result<(), OutOfMemory>
    requires stage { IsStage stage.now }
    requires known { AreTrails stage.now rows.now known.now }
    requires reached { AreReached stage.now rows.now reached.old roles.old }
    requires there { r.now.place < length rows.now }
    requires row { slice_get rows.now r.now.place ≡ Some r.now.row }
    ensures reached { OnOk result (AreReached stage.now rows.now reached.new roles.new) }
    ensures roles { OnOk result ((c : Cause) → slice_get (row_causes stage.now.op
        (placed_to stage.now (route_of r.now.row stage.now.by stage.now.parts) (placed_from 0 (take r.now.place rows.now))) r.now) nth ≡ Some c
        → roles.new ≡ counting c.before roles.old) }
{
    if stage.op.is_join() {
        let partner = partner_of(alloc, stage, &rows[..r.place], r, nth)?;
        roles.mark_spoke(&partner, true);
        return Ok(());
    }
    mark_own(known, reached, r.place, roles);
    Ok(())
}

// The row of a place.
fn row_at(rows: &[Row], place: usize) -> Option<Row>
    ensures { result ≡ slice_get rows.now place }
{
    rows.get(place).copied()
}

// Marks the rows on which the nth answer to the row of a place rests.
fn mark_row(
    alloc: Global,
    stage: &Stage,
    rows: &[Row],
    known: &KeyTrails,
    reached: &mut [usize],
    place: usize,
    nth: usize,
    roles: &mut RowRoles,
) -> Result<(), OutOfMemory>
    requires stage { IsStage stage.now }
    requires known { AreTrails stage.now rows.now known.now }
    requires reached { AreReached stage.now rows.now reached.old roles.old }
    ensures reached { OnOk result (AreReached stage.now rows.now reached.new roles.new) }
    ensures roles { OnOk result ((c : Cause) → IsCaused stage.now rows.now (speaker.Row place nth) c → roles.new ≡ with_causes stage.now.op (c ∷ []) roles.old) }
{
    match row_at(rows, place) {
        None => Ok(()),
        Some(row) => {
            let r = Placed { place, row };
            mark_before(alloc, stage, rows, known, reached, &r, nth, roles)?;
            roles.mark_spoke(&Some(r), counts_itself(&stage.op));
            Ok(())
        }
    }
}

// Marks the rows on which an answer rests.
fn mark_answer(
    alloc: Global,
    stage: &Stage,
    rows: &[Row],
    known: &KeyTrails,
    reached: &mut [usize],
    said: &Speaker,
    roles: &mut RowRoles,
) -> Result<(), OutOfMemory>
    requires stage { IsStage stage.now }
    requires known { AreTrails stage.now rows.now known.now }
    requires reached { AreReached stage.now rows.now reached.old roles.old }
    ensures reached { OnOk result (AreReached stage.now rows.now reached.new roles.new) }
    ensures roles { OnOk result ((c : Cause) → IsCaused stage.now rows.now said.now c → roles.new ≡ with_causes stage.now.op (c ∷ []) roles.old) }
{
    match *said {
        Speaker::Row { place, nth } => {
            mark_row(alloc, stage, rows, known, reached, place, nth, roles)
        }
        Speaker::End { part, key } => {
            let start = known.last(part, &key);
            mark_resting(known, reached, start, roles);
            Ok(())
        }
    }
}

// The same if the answer is asked about.
fn mark_if(
    alloc: Global,
    stage: &Stage,
    rows: &[Row],
    known: &KeyTrails,
    reached: &mut [usize],
    said: &Speaker,
    asked: bool,
    roles: &mut RowRoles,
) -> Result<(), OutOfMemory>
    requires stage { IsStage stage.now }
    requires known { AreTrails stage.now rows.now known.now }
    requires reached { AreReached stage.now rows.now reached.old roles.old }
    ensures reached { OnOk result (AreReached stage.now rows.now reached.new roles.new) }
    ensures roles { OnOk result ((c : Cause) → IsCaused stage.now rows.now said.now c
        → roles.new ≡ (if asked then with_causes stage.now.op (c ∷ []) roles.old else roles.old)) }
{
    if !asked {
        return Ok(());
    }
    mark_answer(alloc, stage, rows, known, reached, said, roles)
}

// Marks the rows on which those answers rest that are asked about, of which it was noted what made operators give them.
fn mark_asked(
    alloc: Global,
    stage: &Stage,
    rows: &[Row],
    known: &KeyTrails,
    said: &[Speaker],
    asked: &[bool],
    reached: &mut [usize],
    roles: &mut RowRoles,
) -> Result<(), OutOfMemory>
    requires stage { IsStage stage.now }
    requires known { AreTrails stage.now rows.now known.now }
    requires reached { AreReached stage.now rows.now reached.old roles.old }
    ensures { OnOk result ((causes : List Cause) → AreCaused stage.now rows.now said.now causes
        → roles.new ≡ with_causes stage.now.op (asked_from 0 asked.now causes) roles.old) }
{
    for (n, speaker) in said.iter().enumerate() {
        let is_asked = is_marked(asked, n);
        mark_if(alloc, stage, rows, known, reached, speaker, is_asked, roles)?;
    }
    Ok(())
}

/// The roles of the rows that come to a stage, where some of the answers are asked about of which it was noted what made operators give them.
pub(crate) fn told_roles(
    alloc: Global,
    stage: &Stage,
    rows: &[Row],
    said: &[Speaker],
    asked: &[bool],
) -> Result<RowRoles, OutOfMemory>
    requires { IsStage stage.now }
    ensures { IfOk result (λ roles. (causes : List Cause) → AreCaused stage.now rows.now said.now causes
        → roles ≡ with_causes stage.now.op (asked_from 0 asked.now causes) (no_roles (length rows.now))) }
{
    let known = key_trails(alloc, stage, rows)?;
    let mut reached = vec![in alloc; rows.len(); rows.len()]?;
    let mut roles = RowRoles::none(alloc, rows.len())?;
    mark_asked(
        alloc,
        stage,
        rows,
        &known,
        said,
        asked,
        &mut reached,
        &mut roles,
    )?;
    Ok(roles)
}
