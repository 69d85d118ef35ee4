// The mover: the entries of a move, one by one.
ghost use Rattle.tuple_edge.specs.declared.packet.Entry.{Entry};
ghost use Rattle.move_list.specs.MoveList.{fixed_part};
ghost use Rattle.move_list.specs.Pieces.{AreFilled};
ghost use Rattle.state_mover.specs.MoverView.{IsMidway, IsSound, after_next, begun, moved_at, moved_from, place_next, total_of};
ghost use Rattle.std.specs.Prelude.{◌≡◌, ◌<◌, ◌≤◌, ◌+◌, None, ◌++◌, ◌↔◌, IfOk, IfSome, IsSome, Some, List, length, slice_get};
ghost use Rattle.state_mover.specs.declared.mover.Moved.TheVariants as moved;
ghost use Rattle.stream_ops.specs.Entries.{place_of};
ghost use Rattle.tuple_edge.specs.Limits.{number_limit};

use flux_consumer::Consumer;
use flux_producer::Producer;
use move_list::fixed_part;
use std::alloc::Global;
use std::marker::Model;
use stream_ops::OpState;
use tuple_edge::{Entry, Key, OutOfMemory};

/// A part of a move.
#[derive(Clone, Copy, Debug, PartialEq, Eq)]
pub enum Moved {
    /// The entry of this number, from 1.
    Chunk { number: u64, entry: Entry },
    /// There were so many entries.
    End { count: u64 },
}

/// A move of a node's contents to its partner. The operator's entries are those of the moment at which
/// its state was watched.
#[derive(Drop)]
pub struct Mover {
    target: u64,
    fixed: Vec<Entry>,
    entries: u64,
    sent: u64,
    last: Option<(Key, u32)>,
}

impl Model for Mover {
    ghost use Rattle.tuple_edge.specs.declared.packet.Entry.{Entry};
    ghost use Rattle.move_list.specs.Pieces.{AreFilled};
    ghost use Rattle.state_mover.specs.MoverView.{IsMover, MoverView};

    ghost Value = { MoverView };

    ghost view = { λ m. record {
      target = m.target;
      fixed = m.fixed.items;
      entries = m.entries;
      sent = m.sent;
      last = m.last;
    } };

    ghost invariant = { λ m. IsMover m.fixed.items m.entries m.sent m.last };
}

// The key and the slot of an operator's entry.
fn place_of(entry: &Entry) -> Option<(Key, u32)>
    ensures { result ≡ place_of entry.now }
{
    match entry {
        Entry::Keyed { key, slot, .. } => Some((*key, *slot)),
        _ => None,
    }
}

impl Mover {
    /// Begins a move of what these hold now, and of so many entries of an operator, for an incarnation
    /// of the partner.
    pub fn begin(
        alloc: Global,
        target: u64,
        consumer: &Consumer,
        producer: &Producer,
        entries: u64,
    ) -> Result<Mover, OutOfMemory>
        requires { entries < number_limit }
        ensures begun { IfOk result (λ mover. mover ≡ begun target (fixed_part consumer.now.merge producer.now) entries) }
        // Before the first entry any list of so many entries may be the operator's.
        ensures midway { IfOk result (λ mover. (old : List Entry) → length old ≡ entries → IsMidway mover old) }
        // What is moved of the producer is whole.
        ensures filled { IfOk result (λ _. AreFilled producer.now) }
    {
        let fixed = fixed_part(alloc, consumer, producer)?;
        Ok(Mover {
            target,
            fixed,
            entries,
            sent: 0,
            last: None,
        })
    }

    // The next entry of the fixed part. None past its last.
    fn fixed_entry(&self) -> Option<Entry>
        ensures { result ≡ slice_get self.now.fixed self.now.sent }
    {
        self.fixed.get(self.sent as usize).copied()
    }

    // The entry that is next. None where all were given.
    fn entry(&self, state: &OpState) -> Option<Entry>
        requires watched { IsSome state.now.old }
        requires midway { IfSome state.now.old (IsMidway self.now) }
        ensures entry { IfSome state.now.old (λ old. result ≡ slice_get (self.now.fixed ++ old) self.now.sent) }
        ensures sound { IsSound self.now }
    {
        match self.fixed_entry() {
            Some(entry) => Some(entry),
            None => state.old_after(self.last),
        }
    }

    // The place of the entry that is next. None where it is of the fixed part.
    fn place(&self, entry: &Entry) -> Option<(Key, u32)>
        ensures { result ≡ place_next self.now entry.now }
    {
        if self.sent < self.fixed.len() as u64 {
            None
        } else {
            place_of(entry)
        }
    }

    // Gives the entry that is next.
    fn give(&mut self, entry: Entry) -> Moved
        requires { self.old.sent < length self.old.fixed + self.old.entries }
        ensures gives { result ≡ moved.Chunk (self.old.sent + 1) entry }
        ensures after { self.new ≡ record self.old { sent = self.old.sent + 1; last = place_next self.old entry } }
    {
        let last = self.place(&entry);
        let number = self.sent + 1;
        self.sent = number;
        self.last = last;
        Moved::Chunk { number, entry }
    }

    // Gives the end, once.
    fn end(&mut self) -> Option<Moved>
        requires { length self.old.fixed + self.old.entries ≤ self.old.sent }
        ensures gives { result ≡ moved_from self.old.sent (length self.old.fixed + self.old.entries) None }
        ensures after { self.new ≡ record self.old { sent = total_of self.old } }
    {
        if self.sent == self.total() {
            return None;
        }
        let count = self.sent;
        self.sent += 1;
        Some(Moved::End { count })
    }

    /// Gives the next entry, or, after the last one, the end. The entries are those of the beginning,
    /// whatever the state has become. None exactly where the end was given. It takes no memory.
    pub fn next(&mut self, state: &OpState) -> Option<Moved>
        requires watched { IsSome state.now.old }
        requires midway { IfSome state.now.old (IsMidway self.old) }
        ensures gives { IfSome state.now.old (λ old. result ≡ moved_at (self.old.fixed ++ old) self.old.sent) }
        ensures known { IsSome result ↔ (self.old.sent < total_of self.old) }
        ensures after { IfSome state.now.old (λ old. self.new ≡ after_next self.old old) }
        ensures midway { IfSome state.now.old (IsMidway self.new) }
    {
        match self.entry(state) {
            None => self.end(),
            Some(entry) => Some(self.give(entry)),
        }
    }

    /// The incarnation of the partner that it is for.
    pub fn target(&self) -> u64
        ensures { result ≡ self.now.target }
    {
        self.target
    }

    /// How many parts were given, the end counted.
    pub fn sent(&self) -> u64
        ensures { result ≡ self.now.sent }
    {
        self.sent
    }

    /// How many parts there are, the end counted.
    pub fn total(&self) -> u64
        ensures { result ≡ total_of self.now }
    {
        self.fixed.len() as u64 + self.entries + 1
    }
}
