// One partition: what it keeps of the buckets that stand there, and its answers to the rows of a call.
ghost use Rattle.std.specs.Prelude.{ℕ, ◌≡◌, ◌<◌, ◌+◌, ◌++◌, ◌∷◌, [], List, All, IfOk, OnOk, drop, length, replicate, slice_index_or, slice_set, true, false};
ghost use Rattle.tuple_edge.specs.declared.row.Row.{Row};
ghost use Rattle.op_spec.specs.Spec.{IsSpec};
ghost use Rattle.op_spec.specs.Times.{IsTime};
ghost use Rattle.op_spec.specs.declared.spec.OpSpec.{OpSpec};
ghost use Rattle.stream_ops.specs.Kept.{keys_after};
ghost use Rattle.stream_ops.specs.State.{StateView, unseen};
ghost use Rattle.plan_reader.specs.declared.stage.Stage.{Stage};
ghost use Rattle.bucket_move.specs.BucketsView.{state_after, state_in};
ghost use Rattle.bucket_move.specs.ByKey.{is_keyed};
ghost use Rattle.bucket_move.specs.Limits.{buckets};
ghost use Rattle.bucket_move.specs.Rows.{items_of};
ghost use Rattle.bucket_move.specs.Working.{Holds, Works, first_answer, first_answers, first_of, picked, place_of, places_of};

use crate::BUCKETS;
use std::alloc::Global;
use std::collections::VecDeque;
use std::mem;
use stream_ops::{OpSpec, OpState};
use tuple_edge::{Column, Item, OutOfMemory, Row, route};

/// Where a row is worked: its bucket, and the partition where that stands.
#[derive(Clone, Copy, Debug, PartialEq, Eq)]
pub(crate) struct Place {
    pub(crate) part: u32,
    pub(crate) bucket: u32,
}

#[derive(Drop)]
pub(crate) struct Partition {
    // What is kept of each bucket. Of one that stands elsewhere it is what was given nothing.
    pub(crate) states: Vec<OpState>,
    // The answer to each of its rows in this call, in order.
    pub(crate) answers: VecDeque<Option<Row>>,
    // The answer to one row.
    answer: Vec<Row>,
    // Whether memory ran out in this call.
    pub(crate) failed: bool,
}

impl Partition {
    // A partition that was given nothing.
    pub(crate) fn new(alloc: Global, spec: OpSpec) -> Result<Partition, OutOfMemory>
        requires { IsSpec spec }
        ensures { IfOk result (λ p. p.states.items ≡ replicate buckets (unseen spec)) }
    {
        let states = unseen_states(alloc, spec)?;
        Ok(Partition {
            states,
            answers: VecDeque::new(alloc),
            answer: Vec::new(alloc),
            failed: false,
        })
    }

    // Takes a row of a bucket that stands here.
    fn take(&mut self, bucket: u32, row: &Row) -> Result<(), OutOfMemory>
        requires there { bucket < length self.old.states.items }
        requires timely { IsTime row.now.time }
        ensures size { length self.new.states.items ≡ length self.old.states.items }
        ensures states { OnOk result ((spec : OpSpec) (rows : List Row) → state_in spec self.old.states.items bucket ≡ state_after spec rows
            → self.new.states.items ≡ slice_set self.old.states.items bucket (state_after spec (rows ++ row.now ∷ []))) }
        ensures answers { OnOk result ((spec : OpSpec) (rows : List Row) → state_in spec self.old.states.items bucket ≡ state_after spec rows
            → self.new.answers.items ≡ self.old.answers.items ++ first_answer spec rows row.now ∷ []) }
    {
        self.answer.clear();
        let item = Item::Row {
            stamp: 0,
            row: *row,
        };
        self.states[bucket as usize].step(item, &mut self.answer)?;
        let answer = self.answer.first().copied();
        self.answers.push_back(answer)?;
        Ok(())
    }

    // Puts what is kept of a bucket in place of what was kept, and gives that.
    pub(crate) fn exchange(&mut self, bucket: u32, state: OpState) -> OpState
        requires { bucket < length self.old.states.items }
        ensures value { (d : StateView) → result ≡ slice_index_or self.old.states.items bucket d }
        ensures states { self.new.states.items ≡ slice_set self.old.states.items bucket state }
    {
        mem::replace(&mut self.states[bucket as usize], state)
    }

    // How many keys the rows of a bucket have that stands here.
    pub(crate) fn key_count(&self, bucket: u32) -> u64
        requires { bucket < length self.now.states.items }
        ensures { (spec : OpSpec) (rows : List Row) → state_in spec self.now.states.items bucket ≡ state_after spec rows → result ≡ length (keys_after spec (items_of rows)) }
    {
        self.states[bucket as usize].most(&Item::End { stamp: 0 })
    }

    // The first of its answers that wasn't given.
    pub(crate) fn next_answer(&mut self) -> Option<Row>
        ensures value { result ≡ first_of self.old.answers.items }
        ensures rest { self.new.answers.items ≡ drop 1 self.old.answers.items }
        ensures states { self.new.states.items ≡ self.old.states.items }
    {
        match self.answers.pop_front() {
            Some(answer) => answer,
            None => None,
        }
    }

    // Works the rows whose place is here, in order.
    fn work_rows(&mut self, part: usize, rows: &[Row], places: &[Place]) -> Result<(), OutOfMemory>
        requires rows { length places.now ≡ length rows.now }
        requires timely { All (λ r. IsTime r.time) rows.now }
        requires buckets { All (λ place. place.bucket < buckets) places.now }
        requires slots { length self.old.states.items ≡ buckets }
        ensures size { length self.new.states.items ≡ length self.old.states.items }
        ensures works { OnOk result ((stage : Stage) (table : List ℕ) (before : List Row) → is_keyed stage.by stage.op ≡ true
            → places.now ≡ places_of stage.by table rows.now → Holds stage table part before self.old.states.items
            → Holds stage table part (before ++ rows.now) self.new.states.items
            × (self.new.answers.items ≡ picked part places.now (first_answers stage.op before rows.now))) }
    {
        self.answers.clear();
        for i in 0..rows.len() {
            let place = places[i];
            if place.part as usize == part {
                self.take(place.bucket, &rows[i])?;
            }
        }
        Ok(())
    }

    // The same, and notes whether memory ran out.
    pub(crate) fn work(&mut self, part: usize, rows: &[Row], places: &[Place])
        requires rows { length places.now ≡ length rows.now }
        requires timely { All (λ r. IsTime r.time) rows.now }
        requires buckets { All (λ place. place.bucket < buckets) places.now }
        requires slots { length self.old.states.items ≡ buckets }
        ensures { Works part rows.now places.now self.old self.new }
    {
        let worked = self.work_rows(part, rows, places);
        self.failed = worked.is_err();
    }
}

// For each bucket an operator that was given nothing.
fn unseen_states(alloc: Global, spec: OpSpec) -> Result<Vec<OpState>, OutOfMemory>
    requires { IsSpec spec }
    ensures { IfOk result (λ states. states.items ≡ replicate buckets (unseen spec)) }
{
    let mut states = Vec::with_capacity(alloc, BUCKETS as usize)?;
    for _bucket in 0..BUCKETS {
        states.push(OpState::new(alloc, spec))?;
    }
    Ok(states)
}

// The place of a row.
fn place_of(by: Column, table: &[u32], row: &Row) -> Place
    requires { length table.now ≡ buckets }
    ensures value { result ≡ place_of by table.now row.now }
    ensures below { result.bucket < buckets }
    ensures there { (parts : ℕ) → All (λ part. part < parts) table.now → result.part < parts }
{
    let bucket = route(row, by, BUCKETS);
    let part = table[bucket as usize];
    Place { part, bucket }
}

// The places of rows, in order.
pub(crate) fn places_of(
    alloc: Global,
    by: Column,
    table: &[u32],
    rows: &[Row],
) -> Result<Vec<Place>, OutOfMemory>
    requires { length table.now ≡ buckets }
    ensures value { IfOk result (λ places. places.items ≡ places_of by table.now rows.now) }
    ensures buckets { IfOk result (λ places. All (λ place. place.bucket < buckets) places.items) }
    ensures there { IfOk result (λ places. (parts : ℕ) → All (λ part. part < parts) table.now → All (λ place. place.part < parts) places.items) }
{
    let mut places = Vec::with_capacity(alloc, rows.len())?;
    for row in rows {
        places.push(place_of(by, table, row))?;
    }
    Ok(places)
}
