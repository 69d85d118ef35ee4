// The senders from which a node took.
ghost use Rattle.std.specs.Prelude.{◌≡◌, ◌≤◌, ◌<◌, ◌+◌, [], length, IfSome, OnOk, OnErr, Some, slice_get, slice_index_or, set};
ghost use Rattle.event_log.specs.Views.{AreMet, SendersView};

use std::alloc::Global;
use std::marker::Model;
use tuple_edge::{NodeId, OutOfMemory};

/// The senders from which a node took, by their places, with the index of the last take from each. There are
/// at most 256.
#[derive(Drop)]
pub(crate) struct Senders {
    nodes: Vec<NodeId>,
    taken: Vec<u64>,
    // Where the last one stands: the next take is mostly from the same one.
    near: u8,
}

impl Model for Senders {
    ghost use Rattle.std.specs.Prelude.{◌≡◌, ◌-◌, min, vec_capacity, vec_len};
    ghost use Rattle.event_log.specs.Views.{SendersView};

    ghost Value = { SendersView };

    ghost view = { λ s. record {
      nodes = s.nodes.items;
      taken = s.taken.items;
      spare = min (vec_capacity s.nodes - vec_len s.nodes) (vec_capacity s.taken - vec_len s.taken);
    } };

    ghost invariant = { λ s. vec_len s.nodes ≡ vec_len s.taken };
}

// The place of a node: the one that is near, or else the first.
fn place_of(nodes: &[NodeId], near: u8, node: NodeId) -> Option<u8>
    ensures { IfSome result (λ place. slice_get nodes.now place ≡ Some node) }
{
    if nodes.get(usize::from(near)) == Some(&node) {
        return Some(near);
    }
    let place = nodes.iter().position(|other| *other == node)?;
    u8::try_from(place).ok()
}

impl Senders {
    /// No senders.
    pub(crate) fn new(alloc: Global) -> Senders
        ensures { result ≡ record { nodes = []; taken = []; spare = 0 } }
    {
        Senders {
            nodes: Vec::new(alloc),
            taken: Vec::new(alloc),
            near: 0,
        }
    }

    /// Makes room for this many further senders. Where there is room already it is never refused.
    pub(crate) fn reserve(&mut self, senders: usize) -> Result<(), OutOfMemory>
        ensures nodes { self.new.nodes ≡ self.old.nodes }
        ensures taken { self.new.taken ≡ self.old.taken }
        ensures spare { OnOk result (senders ≤ self.new.spare) }
        ensures kept { self.old.spare ≤ self.new.spare }
        ensures refused { OnErr result (self.old.spare < senders) }
    {
        self.nodes.reserve(senders)?;
        self.taken.reserve(senders)?;
        Ok(())
    }

    /// The place of a sender. One that has none gets one, while there are fewer than 256.
    pub(crate) fn meet(&mut self, sender: NodeId) -> Option<u8>
        requires { 1 ≤ self.old.spare }
        ensures place { IfSome result (λ place. slice_get self.new.nodes place ≡ Some sender) }
        ensures met { AreMet self.old self.new }
        ensures sized { length self.new.nodes ≡ length self.new.taken }
        ensures spare { self.old.spare ≤ self.new.spare + 1 }
    {
        if let Some(place) = place_of(&self.nodes, self.near, sender) {
            self.near = place;
            return Some(place);
        }
        let Ok(place) = u8::try_from(self.nodes.len()) else {
            return None;
        };
        self.nodes.push_reserved(sender);
        self.taken.push_reserved(0);
        self.near = place;
        Some(place)
    }

    /// The index of the last take from a sender.
    pub(crate) fn taken(&self, place: u8) -> u64
        requires { place < length self.now.nodes }
        ensures { result ≡ slice_index_or self.now.taken place 0 }
    {
        self.taken[usize::from(place)]
    }

    /// The last take from a sender has this index.
    pub(crate) fn count(&mut self, place: u8, index: u64)
        requires { place < length self.old.nodes }
        ensures { self.new ≡ record self.old { taken = set self.old.taken place index } }
    {
        self.taken[usize::from(place)] = index;
    }

    /// Their names.
    pub(crate) fn nodes(&self) -> &[NodeId]
        ensures { result.now ≡ self.now.nodes }
    {
        &self.nodes
    }
}
