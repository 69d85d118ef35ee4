// A log of events.
ghost use Rattle.std.specs.Prelude.{◌≡◌, ◌≤◌, ◌<◌, ◌+◌, ◌^◌, ◌++◌, ◌∷◌, [], length, IfOk, OnOk, OnErr, IsTrue, ◌↔◌};
ghost use Rattle.std.specs.Prelude.{vec_len, vec_capacity};
ghost use Rattle.tuple_edge.specs.declared.event.Event.TheVariants as event;
ghost use Rattle.event_log.specs.Reading.{whole_of};
ghost use Rattle.event_log.specs.Views.{makes_after, named_histories, named_logs, works_after};

use crate::coding::{entry_of, rise_of, take_of, work_entry};
use crate::entries::Entries;
use crate::entry::Entry;
use crate::reader::Reader;
use crate::senders::Senders;
use std::alloc::Global;
use std::marker::Model;
use tuple_edge::{Event, History, LinkId, NodeId, OutOfMemory, Stamped};

// Room is made for at least so many events at once.
const LEAST_ROOM: usize = 64;

/// The events of a node, in order: a list of any events that is short where they are those of one node.
#[derive(Drop)]
pub struct Log {
    node: NodeId,
    senders: Senders,
    // The last event's.
    clock: u64,
    // So many events there are, and so many more surely fit into the lists.
    events: usize,
    room: usize,
    entries: Entries,
    whole: Vec<Stamped>,
}

impl Model for Log {
    ghost use Rattle.event_log.specs.Reading.{IsLog, at_start, names_of, reading};
    ghost use Rattle.event_log.specs.Views.{LogView};

    ghost Value = { LogView };

    ghost view = { λ l. record {
      node = l.node;
      entries = reading (names_of l.node l.senders.nodes l.whole.items) at_start l.entries.entries;
      spare = l.room;
    } };

    ghost invariant = { λ l. IsLog l.node l.senders l.clock l.events l.room l.entries l.whole };
}

// Keeps an event whole where its entry needs that.
fn keep_whole(whole: &mut Vec<Stamped>, entry: Entry, stamped: Stamped)
    requires { vec_len whole.old + 1 ≤ vec_capacity whole.old }
    ensures items { whole.new.items ≡ whole.old.items ++ whole_of entry stamped }
    ensures len { vec_len whole.new ≤ vec_len whole.old + 1 }
    ensures capacity { vec_capacity whole.new ≡ vec_capacity whole.old }
{
    match entry {
        Entry::Work { .. } | Entry::Make { .. } | Entry::Take { .. } => {},
        Entry::Jump { .. } | Entry::Whole => whole.push_reserved(stamped),
    }
}

impl Log {
    /// The log of a node at which nothing happened.
    pub fn new(alloc: Global, node: NodeId) -> Log
        ensures { result ≡ record { node = node; entries = []; spare = 0 } }
    {
        Log {
            node,
            senders: Senders::new(alloc),
            clock: 0,
            events: 0,
            room: 0,
            entries: Entries::new(alloc),
            whole: Vec::new(alloc),
        }
    }

    /// Whose log it is.
    pub fn node(&self) -> NodeId
        ensures { result ≡ self.now.node }
    {
        self.node
    }

    /// Makes room for this many further events. Where there is room already it is never refused.
    pub fn reserve(&mut self, entries: usize) -> Result<(), OutOfMemory>
        ensures same { self.new ≡ record self.old { spare = self.new.spare } }
        ensures spare { OnOk result (entries ≤ self.new.spare) }
        ensures kept { self.old.spare ≤ self.new.spare }

        // What is there already is never refused.
        ensures refused { OnErr result (self.old.spare + 1 ≤ entries) }
    {
        if entries <= self.room {
            return Ok(());
        }
        let entries = entries.max(LEAST_ROOM);
        if entries > usize::MAX - self.events {
            return Err(OutOfMemory);
        }
        self.senders.reserve(entries)?;
        self.entries.reserve(entries)?;
        self.whole.reserve(entries)?;
        self.room = entries;
        Ok(())
    }

    /// How many further events surely fit without memory.
    pub fn spare(&self) -> usize
        ensures { result ≡ self.now.spare }
    {
        self.room
    }

    /// Appends an event. It takes one place of the room, and can't fail.
    pub fn push_reserved(&mut self, stamped: Stamped)
        requires { 1 ≤ self.old.spare }
        ensures node { self.new.node ≡ self.old.node }
        ensures entries { self.new.entries ≡ self.old.entries ++ stamped ∷ [] }
        ensures spare { self.old.spare ≤ self.new.spare + 1 }
    {
        let entry = entry_of(self.node, &mut self.senders, self.clock, stamped);
        keep_whole(&mut self.whole, entry, stamped);
        self.entries.push(entry);
        self.clock = stamped.clock;
        self.events += 1;
        self.room -= 1;
    }

    /// Appends that the node worked. It takes one place of the room, and can't fail.
    pub fn work(&mut self, clock: u64)
        requires { 1 ≤ self.old.spare }
        ensures node { self.new.node ≡ self.old.node }
        ensures entries { self.new.entries ≡ self.old.entries ++ record { clock = clock; event = event.Work self.old.node } ∷ [] }
        ensures spare { self.old.spare ≤ self.new.spare + 1 }
    {
        let entry = work_entry(rise_of(self.clock, clock));
        let event = Event::Work { node: self.node };
        keep_whole(&mut self.whole, entry, Stamped { clock, event });
        self.entries.push(entry);
        self.clock = clock;
        self.events += 1;
        self.room -= 1;
    }

    /// Appends that the node worked so many times, with the clocks that follow on this one. It takes as many places of the
    /// room, and can't fail.
    pub fn work_times(&mut self, clock: u64, times: usize)
        requires room { times ≤ self.old.spare }
        requires clocks { clock + times < 2 ^ 64 }
        ensures node { self.new.node ≡ self.old.node }
        ensures entries { self.new.entries ≡ self.old.entries ++ works_after self.old.node clock times }
        ensures spare { self.old.spare ≤ self.new.spare + times }
    {
        if times == 0 {
            return;
        }
        self.work(clock + 1);
        self.entries.push_times(Entry::Work { rise: 1 }, times - 1);
        self.clock = clock + times as u64;
        self.events += times - 1;
        self.room -= times - 1;
    }

    /// Appends that ingress made an input into items so many times, with the clocks that follow on this one. It takes as many
    /// places of the room, and can't fail.
    pub fn make_times(&mut self, clock: u64, times: usize)
        requires room { times ≤ self.old.spare }
        requires clocks { clock + times < 2 ^ 64 }
        ensures node { self.new.node ≡ self.old.node }
        ensures entries { self.new.entries ≡ self.old.entries ++ makes_after clock times }
        ensures spare { self.old.spare ≤ self.new.spare + times }
    {
        if times == 0 {
            return;
        }
        self.push_reserved(Stamped {
            clock: clock + 1,
            event: Event::Make,
        });
        self.entries.push_times(Entry::Make { rise: 1 }, times - 1);
        self.clock = clock + times as u64;
        self.events += times - 1;
        self.room -= times - 1;
    }

    /// Appends that the node took the packet with this index from a sender. It takes one place of the room, and can't fail.
    pub fn take(&mut self, sender: NodeId, index: u64, clock: u64)
        requires { 1 ≤ self.old.spare }
        ensures node { self.new.node ≡ self.old.node }
        ensures entries { self.new.entries ≡ self.old.entries ++ record { clock = clock; event = event.Take (record { «from» = sender; to = self.old.node }) index } ∷ [] }
        ensures spare { self.old.spare ≤ self.new.spare + 1 }
    {
        let link = LinkId {
            from: sender,
            to: self.node,
        };
        let stamped = Stamped {
            clock,
            event: Event::Take { link, index },
        };
        let rise = rise_of(self.clock, clock);
        let entry = take_of(&mut self.senders, sender, rise, index);
        keep_whole(&mut self.whole, entry, stamped);
        self.entries.push(entry);
        self.clock = clock;
        self.events += 1;
        self.room -= 1;
    }

    /// How many events there are.
    pub fn len(&self) -> usize
        ensures { result ≡ length self.now.entries }
    {
        self.events
    }

    /// Whether there is no event.
    pub fn is_empty(&self) -> bool
        ensures { IsTrue result ↔ (self.now.entries ≡ []) }
    {
        self.len() == 0
    }

    /// All of its events, as one list.
    pub fn entries(&self, alloc: Global) -> Result<Vec<Stamped>, OutOfMemory>
        ensures { IfOk result (λ all. all.items ≡ self.now.entries) }
    {
        let mut all = Vec::with_capacity(alloc, self.len())?;
        let mut reader = self.reader(alloc)?;
        while let Some(stamped) = reader.next() {
            all.push(stamped)?;
        }
        Ok(all)
    }

    /// A reader of its events, from the first on.
    pub fn reader(&self, alloc: Global) -> Result<Reader<'_>, OutOfMemory>
        ensures { IfOk result (λ reader. reader ≡ self.now.entries) }
    {
        Reader::new(
            alloc,
            self.node,
            self.senders.nodes(),
            &self.whole,
            self.entries.reader(),
        )
    }
}

/// The logs of nodes as histories, in the same order.
pub fn histories(alloc: Global, logs: &[Log]) -> Result<Vec<History>, OutOfMemory>
    ensures { IfOk result (λ told. named_histories told.items ≡ named_logs logs.now) }
{
    let mut told = Vec::with_capacity(alloc, logs.len())?;
    for log in logs {
        let entries = log.entries(alloc)?;
        told.push(History {
            node: log.node(),
            entries,
        })?;
    }
    Ok(told)
}
