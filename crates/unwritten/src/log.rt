// A log that takes no memory.
ghost use Rattle.event_log.specs.Views.{makes_after, repeated_after, works_after};
ghost use Rattle.std.specs.Prelude.{◌≡◌, ◌≤◌, ◌<◌, ◌+◌, ◌-◌, ◌^◌, ◌++◌, ◌∷◌, [], OnOk, OnErr};
ghost use Rattle.tuple_edge.specs.declared.event.Event.TheVariants as event;

use event_log::Keeps;
use past::Past;
use std::alloc::Global;
use std::marker::Model;
use tuple_edge::{Event, LinkId, NodeId, OutOfMemory, Stamped};

/// The events of a node, in order, as proofs alone know them.
#[derive(Drop)]
pub struct Log {
    node: NodeId,
    past: Past<Stamped>,
}

impl Model for Log {
    ghost use Rattle.event_log.specs.Views.{LogView};
    ghost use Rattle.std.specs.Prelude.{◌-◌, ◌^◌};

    ghost Value = { LogView };

    ghost view = { λ l. record { node = l.node; entries = l.past.items; spare = 2 ^ 64 - 1 } };
}

// The same event so many times, with the clocks that follow on this one.
fn push_times(past: &mut Past<Stamped>, event: Event, clock: u64, times: usize)
    requires { clock + times < 2 ^ 64 }
    ensures { past.new.items ≡ past.old.items ++ repeated_after event clock times }
{
    for nth in 0..times {
        let clock = clock + nth as u64 + 1;
        *past = past.and(&Stamped { clock, event });
    }
}

impl Log {
    /// The log of a node at which nothing happened.
    pub fn new(node: NodeId) -> Log
        ensures { result ≡ record { node = node; entries = []; spare = 2 ^ 64 - 1 } }
    {
        Log {
            node,
            past: Past::new(),
        }
    }

    /// Whose log it is.
    pub fn node(&self) -> NodeId
        ensures { result ≡ self.now.node }
    {
        self.node
    }

    /// There is always room.
    pub fn reserve(&mut self, _entries: usize) -> Result<(), OutOfMemory>
        ensures same { self.new ≡ record self.old { spare = self.new.spare } }
        ensures spare { OnOk result (_entries ≤ self.new.spare) }
        ensures kept { self.old.spare ≤ self.new.spare }
        ensures refused { OnErr result (self.old.spare + 1 ≤ _entries) }
    {
        let _node = self.node;
        Ok(())
    }

    /// How many further events surely fit without memory.
    pub fn spare(&self) -> usize
        ensures { result ≡ self.now.spare }
    {
        let _node = self.node;
        usize::MAX
    }

    /// Appends an event.
    pub fn push_reserved(&mut self, stamped: Stamped)
        requires { 1 ≤ self.old.spare }
        ensures node { self.new.node ≡ self.old.node }
        ensures entries { self.new.entries ≡ self.old.entries ++ stamped ∷ [] }
        ensures spare { self.old.spare ≤ self.new.spare + 1 }
    {
        self.past = self.past.and(&stamped);
    }

    /// Appends that the node worked so many times, with the clocks that follow on this one.
    pub fn work_times(&mut self, clock: u64, times: usize)
        requires room { times ≤ self.old.spare }
        requires clocks { clock + times < 2 ^ 64 }
        ensures node { self.new.node ≡ self.old.node }
        ensures entries { self.new.entries ≡ self.old.entries ++ works_after self.old.node clock times }
        ensures spare { self.old.spare ≤ self.new.spare + times }
    {
        let node = self.node;
        push_times(&mut self.past, Event::Work { node }, clock, times);
    }

    /// Appends that ingress made an input into items so many times, with the clocks that follow on this one.
    pub fn make_times(&mut self, clock: u64, times: usize)
        requires room { times ≤ self.old.spare }
        requires clocks { clock + times < 2 ^ 64 }
        ensures node { self.new.node ≡ self.old.node }
        ensures entries { self.new.entries ≡ self.old.entries ++ makes_after clock times }
        ensures spare { self.old.spare ≤ self.new.spare + times }
    {
        push_times(&mut self.past, Event::Make, clock, times);
    }

    /// Appends that the node took the packet with this index from a sender.
    pub fn take(&mut self, sender: NodeId, index: u64, clock: u64)
        requires { 1 ≤ self.old.spare }
        ensures node { self.new.node ≡ self.old.node }
        ensures entries { self.new.entries ≡ self.old.entries ++ record { clock = clock; event = event.Take (record { «from» = sender; to = self.old.node }) index } ∷ [] }
        ensures spare { self.old.spare ≤ self.new.spare + 1 }
    {
        let link = LinkId {
            from: sender,
            to: self.node,
        };
        let event = Event::Take { link, index };
        self.past = self.past.and(&Stamped { clock, event });
    }
}

impl Keeps for Log {
    ghost kept = { λ log. log };

    fn new(_alloc: Global, node: NodeId) -> Log {
        Log::new(node)
    }

    fn node(&self) -> NodeId {
        Log::node(self)
    }

    fn reserve(&mut self, entries: usize) -> Result<(), OutOfMemory> {
        Log::reserve(self, entries)
    }

    fn spare(&self) -> usize {
        Log::spare(self)
    }

    fn push_reserved(&mut self, stamped: Stamped) {
        Log::push_reserved(self, stamped);
    }

    fn work_times(&mut self, clock: u64, times: usize) {
        Log::work_times(self, clock, times);
    }

    fn make_times(&mut self, clock: u64, times: usize) {
        Log::make_times(self, clock, times);
    }

    fn take(&mut self, sender: NodeId, index: u64, clock: u64) {
        Log::take(self, sender, index, clock);
    }
}
