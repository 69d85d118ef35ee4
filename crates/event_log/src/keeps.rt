// What a node asks of its history.
ghost use Rattle.event_log.specs.Views.{LogView, makes_after, works_after};
ghost use Rattle.std.specs.Prelude.{◌≡◌, ◌≤◌, ◌<◌, ◌+◌, ◌^◌, ◌++◌, ◌∷◌, [], OnOk, OnErr};
ghost use Rattle.tuple_edge.specs.declared.event.Event.TheVariants as event;
ghost use Rattle.tuple_edge.specs.declared.node.NodeId.{NodeId};

use crate::log::Log;
use std::alloc::Global;
use tuple_edge::{NodeId, OutOfMemory, Stamped};

/// The history of a node, which grows event by event: in memory, or as proofs alone know it.
pub trait Keeps: Send + Drop {
    /// What it stands for.
    ghost kept: { Self → LogView };

    /// The history of a node at which nothing happened.
    fn new(alloc: Global, node: NodeId) -> Self
        ensures node { (kept result).node ≡ node }
        ensures entries { (kept result).entries ≡ [] };

    /// Whose history it is.
    fn node(&self) -> NodeId
        ensures { result ≡ (kept self.now).node };

    /// Makes room for this many further events. Where there is room already it is never refused.
    fn reserve(&mut self, entries: usize) -> Result<(), OutOfMemory>
        ensures same { kept self.new ≡ record (kept self.old) { spare = (kept self.new).spare } }
        ensures spare { OnOk result (entries ≤ (kept self.new).spare) }
        ensures kept { (kept self.old).spare ≤ (kept self.new).spare }

        // What is there already is never refused.
        ensures refused { OnErr result ((kept self.old).spare + 1 ≤ entries) };

    /// How many further events surely fit without memory.
    fn spare(&self) -> usize
        ensures { result ≡ (kept self.now).spare };

    /// Appends an event. It takes one place of the room, and can't fail.
    fn push_reserved(&mut self, stamped: Stamped)
        requires { 1 ≤ (kept self.old).spare }
        ensures node { (kept self.new).node ≡ (kept self.old).node }
        ensures entries { (kept self.new).entries ≡ (kept self.old).entries ++ stamped ∷ [] }
        ensures spare { (kept self.old).spare ≤ (kept self.new).spare + 1 };

    /// Appends that the node worked so many times, with the clocks that follow on this one. It takes as many places of the
    /// room, and can't fail.
    fn work_times(&mut self, clock: u64, times: usize)
        requires room { times ≤ (kept self.old).spare }
        requires clocks { clock + times < 2 ^ 64 }
        ensures node { (kept self.new).node ≡ (kept self.old).node }
        ensures entries { (kept self.new).entries ≡ (kept self.old).entries ++ works_after (kept self.old).node clock times }
        ensures spare { (kept self.old).spare ≤ (kept self.new).spare + times };

    /// Appends that ingress made an input into items so many times, with the clocks that follow on this one. It takes as many
    /// places of the room, and can't fail.
    fn make_times(&mut self, clock: u64, times: usize)
        requires room { times ≤ (kept self.old).spare }
        requires clocks { clock + times < 2 ^ 64 }
        ensures node { (kept self.new).node ≡ (kept self.old).node }
        ensures entries { (kept self.new).entries ≡ (kept self.old).entries ++ makes_after clock times }
        ensures spare { (kept self.old).spare ≤ (kept self.new).spare + times };

    /// Appends that the node took the packet with this index from a sender. It takes one place of the room, and can't fail.
    fn take(&mut self, sender: NodeId, index: u64, clock: u64)
        requires { 1 ≤ (kept self.old).spare }
        ensures node { (kept self.new).node ≡ (kept self.old).node }
        ensures entries { (kept self.new).entries ≡ (kept self.old).entries
            ++ record { clock = clock; event = event.Take (record { «from» = sender; to = (kept self.old).node }) index } ∷ [] }
        ensures spare { (kept self.old).spare ≤ (kept self.new).spare + 1 };
}

impl Keeps for Log {
    ghost kept = { λ log. log };

    fn new(alloc: Global, node: NodeId) -> Log {
        Log::new(alloc, node)
    }

    fn node(&self) -> NodeId {
        Log::node(self)
    }

    fn reserve(&mut self, entries: usize) -> Result<(), OutOfMemory> {
        Log::reserve(self, entries)
    }

    fn spare(&self) -> usize {
        Log::spare(self)
    }

    fn push_reserved(&mut self, stamped: Stamped) {
        Log::push_reserved(self, stamped);
    }

    fn work_times(&mut self, clock: u64, times: usize) {
        Log::work_times(self, clock, times);
    }

    fn make_times(&mut self, clock: u64, times: usize) {
        Log::make_times(self, clock, times);
    }

    fn take(&mut self, sender: NodeId, index: u64, clock: u64) {
        Log::take(self, sender, index, clock);
    }
}
