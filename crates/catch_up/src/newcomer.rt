// The newcomer: what it took of the move, and what it holds meanwhile.
ghost use Rattle.catch_up.specs.Caught.{CatchesUp};
ghost use Rattle.catch_up.specs.Fold.{AllRising, IsRising};
ghost use Rattle.catch_up.specs.NewcomerView.{after_chunk, after_hold, begun, entry_at, held_of, hold_of, is_held, took_of};
ghost use Rattle.catch_up.specs.Rebuild.{AllNext, buffers_in, folded, keyed_in, lows_in, merge_in};
ghost use Rattle.flux_consumer.specs.ConsumerView.{over};
ghost use Rattle.flux_producer.specs.Limits.{max_copies};
ghost use Rattle.flux_producer.specs.ProducerView.{contents_of, over_buffers};
ghost use Rattle.op_spec.specs.Spec.{IsSpec};
ghost use Rattle.stream_ops.specs.State.{rebuilt};
ghost use Rattle.std.specs.List.{range_with_len};
ghost use Rattle.std.specs.Map.{keys_of};
ghost use Rattle.std.specs.Map.Iter.{ShowsInOrder, deref};
ghost use Rattle.std.specs.Prelude.{ℕ, ◌≡◌, ◌≤◌, ◌<◌, ◌+◌, [], ◌↔◌, false, None, IfOk, IfNone, IfSome, IsSome, IsTrue, OnErr, OnOk, length, replicate, slice_get};

use crate::held::Held;
use crate::rebuild::{buffers_of, fold_in, merge_of, state_of, tell_lows};
use flux_consumer::Consumer;
use flux_producer::Producer;
use std::alloc::Global;
use std::collections::btree_map::Keys;
use std::marker::Model;
use stream_ops::{OpSpec, OpState};
use tuple_edge::{Entry, Item, OutOfMemory};

/// What became of a tuple.
#[derive(Clone, Copy, Debug, PartialEq, Eq)]
pub enum Hold {
    /// It is held.
    Kept,
    /// One of this number was held before.
    Repeat,
}

/// What became of an entry.
#[derive(Clone, Copy, Debug, PartialEq, Eq)]
pub enum Took {
    /// It was taken.
    Taken,
    /// One of this number was taken before.
    Repeat,
    /// An entry before it is missing.
    Ahead,
    /// It is of another incarnation's move.
    OtherInc,
}

/// What a replica has that caught up.
#[derive(Drop)]
pub struct CaughtUp {
    pub consumer: Consumer,
    pub producer: Producer,
    pub state: OpState,
}

/// A replica that catches up.
#[derive(Drop)]
pub struct Newcomer {
    alloc: Global,
    inc: u64,
    taken: Vec<Entry>,
    held: Vec<Held>,
}

impl Model for Newcomer {
    ghost use Rattle.catch_up.specs.NewcomerView.{NewcomerView};
    ghost use Rattle.std.specs.Prelude.{◌<◌, length};
    ghost use Rattle.tuple_edge.specs.Limits.{edge_limit};

    ghost Value = { NewcomerView };

    ghost view = { λ n. record { inc = n.inc; taken = n.taken.items; held = n.held.items } };

    ghost invariant = { λ n. length n.held.items < edge_limit };
}

// Edges of which nothing is held.
fn nothing_held(alloc: Global, edges: u32) -> Result<Vec<Held>, OutOfMemory>
    ensures { IfOk result (λ held. held.items ≡ replicate edges []) }
{
    let mut held = Vec::with_capacity(alloc, edges as usize)?;
    for _edge in 0..edges {
        held.push(Held::new(alloc))?;
    }
    Ok(held)
}

impl Newcomer {
    /// A newcomer of an incarnation with so many in-edges, that has nothing.
    pub fn begin(alloc: Global, inc: u64, edges: u32) -> Result<Newcomer, OutOfMemory>
        ensures { IfOk result (λ newcomer. newcomer ≡ begun inc edges) }
    {
        let held = nothing_held(alloc, edges)?;
        Ok(Newcomer {
            alloc,
            inc,
            taken: Vec::new(alloc),
            held,
        })
    }

    /// Holds a tuple of an in-edge, each number once.
    pub fn hold(&mut self, edge: u32, number: u64, item: Item) -> Result<Hold, OutOfMemory>
        requires { edge < length self.old.held }
        ensures answers { IfOk result (λ hold. hold ≡ hold_of self.old edge number) }
        ensures held { OnOk result (self.new ≡ after_hold self.old edge number item) }
        ensures unchanged { OnErr result (self.new ≡ self.old) }
        ensures wants { OnErr result (is_held self.old edge number ≡ false) }
    {
        let held = &mut self.held[edge as usize];
        if held.has(number) {
            return Ok(Hold::Repeat);
        }
        held.insert(number, item)?;
        Ok(Hold::Kept)
    }

    /// Takes the entry that follows those taken, where it is of this incarnation's move. Only then is
    /// memory needed.
    pub fn chunk(&mut self, inc: u64, number: u64, entry: Entry) -> Result<Took, OutOfMemory>
        ensures answers { IfOk result (λ took. took ≡ took_of self.old inc number) }
        ensures taken { OnOk result (self.new ≡ after_chunk self.old inc number entry) }
        ensures unchanged { OnErr result (self.new ≡ self.old) }
        ensures wants { OnErr result ((inc ≡ self.old.inc) × (number ≡ length self.old.taken + 1)) }
    {
        let taken = self.taken.len() as u64;
        if inc != self.inc {
            return Ok(Took::OtherInc);
        }
        if number <= taken {
            return Ok(Took::Repeat);
        }
        if number - taken > 1 {
            return Ok(Took::Ahead);
        }
        self.taken.push(entry)?;
        Ok(Took::Taken)
    }

    // What the entries taken and the items held make.
    fn rebuild(
        &self,
        spec: OpSpec,
        stage: u32,
        part: u32,
        copies: u32,
    ) -> Result<CaughtUp, OutOfMemory>
        requires spec { IsSpec spec }
        requires some { 1 ≤ copies }
        requires few { copies ≤ max_copies }
        requires edges { 1 ≤ length self.now.held }
        ensures consumer { IfOk result (λ caught. caught.consumer ≡ over (folded (merge_in (length self.now.held) self.now.taken) self.now.held)) }
        ensures producer { IfOk result (λ caught. contents_of caught.producer ≡ contents_of (over_buffers stage part copies (buffers_in self.now.taken))) }
        ensures state { IfOk result (λ caught. AllNext spec [] self.now.taken → caught.state ≡ rebuilt spec (keyed_in self.now.taken)) }
        ensures settings { IfOk result (λ caught. (caught.state.spec ≡ spec) × (caught.state.old ≡ None)) }
        ensures rising { IfOk result (λ _. AllRising self.now.held (length self.now.held)) }
    {
        let mut merge = merge_of(self.alloc, self.held.len() as u32, &self.taken)?;
        fold_in(&mut merge, &self.held)?;
        let consumer = Consumer::starting(self.alloc, merge)?;
        let buffers = buffers_of(self.alloc, &self.taken)?;
        let producer = Producer::starting(self.alloc, stage, part, copies, buffers)?;
        let state = state_of(self.alloc, spec, &self.taken)?;
        Ok(CaughtUp {
            consumer,
            producer,
            state,
        })
    }

    // The same, with what it is where the entries are the whole list of a move.
    fn catch_up(
        &self,
        spec: OpSpec,
        stage: u32,
        part: u32,
        copies: u32,
    ) -> Result<CaughtUp, OutOfMemory>
        requires spec { IsSpec spec }
        requires some { 1 ≤ copies }
        requires few { copies ≤ max_copies }
        requires edges { 1 ≤ length self.now.held }
        ensures rebuilds { IfOk result (CatchesUp self.now spec stage part copies) }
        ensures merges { IfOk result (λ caught. caught.consumer ≡ over (folded (merge_in (length self.now.held) self.now.taken) self.now.held)) }
        ensures sends { IfOk result (λ caught. contents_of caught.producer ≡ contents_of (over_buffers stage part copies (buffers_in self.now.taken))) }
        ensures settings { IfOk result (λ caught. (caught.state.spec ≡ spec) × (caught.state.old ≡ None)) }
    {
        self.rebuild(spec, stage, part, copies)
    }

    // Whether the incarnation is this one, and so many entries were taken.
    fn is_whole(&self, inc: u64, count: u64) -> bool
        ensures { IsTrue result ↔ ((inc ≡ self.now.inc) × (count ≡ length self.now.taken)) }
    {
        inc == self.inc && count == self.taken.len() as u64
    }

    /// Ends the catch-up, where it is of this incarnation and all entries were taken: rebuilds what
    /// they tell of, and folds in what is held. Then the newcomer is empty. None exactly where the
    /// incarnations differ or another number of entries was taken.
    ///
    /// Any entries may have been taken. Those of edges that aren't there are passed over, and numbers
    /// past their limit are answered as want of memory.
    pub fn end(
        &mut self,
        inc: u64,
        count: u64,
        spec: OpSpec,
        stage: u32,
        part: u32,
        copies: u32,
    ) -> Result<Option<CaughtUp>, OutOfMemory>
        requires spec { IsSpec spec }
        requires some { 1 ≤ copies }
        requires few { copies ≤ max_copies }
        requires edges { 1 ≤ length self.old.held }
        ensures known { IfOk result (λ ended. IsSome ended ↔ ((inc ≡ self.old.inc) × (count ≡ length self.old.taken))) }
        ensures rebuilds { IfOk result (λ ended. IfSome ended (CatchesUp self.old spec stage part copies)) }

        // Whatever was taken.
        ensures merges { IfOk result (λ ended. IfSome ended (λ c. c.consumer ≡ over (folded (merge_in (length self.old.held) self.old.taken) self.old.held))) }
        ensures sends { IfOk result (λ ended. IfSome ended (λ c. contents_of c.producer ≡ contents_of (over_buffers stage part copies (buffers_in self.old.taken)))) }
        ensures settings { IfOk result (λ ended. IfSome ended (λ c. (c.state.spec ≡ spec) × (c.state.old ≡ None))) }
        ensures emptied { IfOk result (λ ended. IfSome ended (λ _. self.new ≡ begun self.old.inc (length self.old.held))) }
        ensures refused { IfOk result (λ ended. IfNone ended (self.new ≡ self.old)) }
        ensures unchanged { OnErr result (self.new ≡ self.old) }
    {
        if !self.is_whole(inc, count) {
            return Ok(None);
        }
        let caught = self.catch_up(spec, stage, part, copies)?;
        let held = nothing_held(self.alloc, self.held.len() as u32)?;
        self.taken = Vec::new(self.alloc);
        self.held = held;
        Ok(Some(caught))
    }

    /// Its incarnation.
    pub fn inc(&self) -> u64
        ensures { result ≡ self.now.inc }
    {
        self.inc
    }

    /// How many entries were taken.
    pub fn taken(&self) -> u64
        ensures { result ≡ length self.now.taken }
    {
        self.taken.len() as u64
    }

    /// Whether the lows that the entries taken tell are those of the out-edges 0 to `edges` - 1, in order.
    /// It takes a step for each entry, and no memory.
    pub fn tells_lows(&self, edges: u32) -> bool
        ensures { IsTrue result ↔ (lows_in self.now.taken ≡ range_with_len 0 edges) }
    {
        tell_lows(&self.taken, edges)
    }

    /// The number at a place, from 0, of those that are held of an in-edge, in rising order. None
    /// exactly past the last. It takes a step for each number up to the place.
    pub fn held(&self, edge: u32, nth: u64) -> Option<u64>
        requires { edge < length self.now.held }
        ensures { result ≡ slice_get (keys_of (held_of self.now edge)) nth }
    {
        self.held[edge as usize].nth(nth as usize)
    }

    /// The numbers that are held of an in-edge, in rising order. To walk over them takes a step for
    /// each, and no memory.
    pub fn held_numbers(&self, edge: u32) -> Keys<'_, u64, Item>
        requires { edge < length self.now.held }
        ensures rest { result ≡ keys_of (held_of self.now edge) }
        ensures rising { IsRising (held_of self.now edge) }
        ensures runs { ShowsInOrder (deref {X = ℕ}) }
    {
        self.held[edge as usize].numbers()
    }

    /// The entry that was taken under a number, from 1. None exactly where the number is 0 or above
    /// the count taken.
    pub fn entry(&self, number: u64) -> Option<Entry>
        ensures { result ≡ entry_at self.now.taken number }
    {
        if number == 0 {
            return None;
        }
        self.taken.get((number - 1) as usize).copied()
    }
}
