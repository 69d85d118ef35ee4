// Packets that a node of a group has to send.
ghost use Rattle.std.specs.Prelude.{◌≡◌, ◌≤◌, ◌<◌, ◌+◌, ◌++◌, ◌∷◌, [], length, OnOk, OnErr, IsTrue, ◌↔◌, slice_get};

use std::alloc::Global;
use std::marker::Model;
use trio_machine::{TrioBody, TrioNode};
use tuple_edge::OutOfMemory;

/// No event of a node of a group sends more packets.
pub const MOST_PACKETS: usize = 25;

/// The packets that a node has to send, in order, each with its receiver.
#[derive(Drop)]
pub struct TrioOutbox {
    packets: Vec<(TrioNode, TrioBody)>,
}

impl Model for TrioOutbox {
    ghost use Rattle.std.specs.Prelude.{◌-◌, vec_capacity, vec_len};
    ghost use Rattle.trio_nodes.specs.Outbox.{TrioOutboxView};

    ghost Value = { TrioOutboxView };

    ghost view = { λ o. record { packets = o.packets.items; spare = vec_capacity o.packets - vec_len o.packets } };
}

impl TrioOutbox {
    /// An outbox with nothing to be sent.
    pub fn new(alloc: Global) -> TrioOutbox
        ensures { result.packets ≡ [] }
    {
        TrioOutbox {
            packets: Vec::new(alloc),
        }
    }

    /// Makes room for this many further packets. Where there is room already it is never refused.
    pub fn reserve(&mut self, items: usize) -> Result<(), OutOfMemory>
        ensures packets { self.new.packets ≡ self.old.packets }
        ensures spare { OnOk result (items ≤ self.new.spare) }
        ensures kept { self.old.spare ≤ self.new.spare }
        ensures unchanged { OnErr result (self.new ≡ self.old) }

        // What is there already is never refused.
        ensures refused { OnErr result (self.old.spare < items) }
    {
        match self.packets.reserve(items) {
            Ok(()) => Ok(()),
            Err(_) => Err(OutOfMemory),
        }
    }

    /// Appends a packet for a receiver. It takes one place of the room, and can't fail.
    pub fn push(&mut self, to: TrioNode, body: TrioBody)
        requires { 1 ≤ self.old.spare }
        ensures packets { self.new.packets ≡ self.old.packets ++ (to, body) ∷ [] }
        ensures spare { self.new.spare + 1 ≡ self.old.spare }
    {
        self.packets.push_reserved((to, body));
    }

    /// How many packets there are.
    pub fn len(&self) -> usize
        ensures { result ≡ length self.now.packets }
    {
        self.packets.len()
    }

    /// Whether there is no packet.
    pub fn is_empty(&self) -> bool
        ensures { IsTrue result ↔ (self.now.packets ≡ []) }
    {
        self.packets.is_empty()
    }

    /// The packet at a place, from 0. None exactly where there are no more than `nth` packets.
    pub fn get(&self, nth: usize) -> Option<(TrioNode, TrioBody)>
        ensures { result ≡ slice_get self.now.packets nth }
    {
        self.packets.get(nth).copied()
    }

    /// Gives up all packets, and keeps the room.
    pub fn clear(&mut self)
        ensures packets { self.new.packets ≡ [] }
        ensures spare { self.new.spare ≡ self.old.spare + length self.old.packets }
    {
        self.packets.clear();
    }
}
