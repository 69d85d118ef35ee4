// The end of a link on which a node sends.
ghost use Rattle.pair_machine.specs.Numbers.{is_node};
ghost use Rattle.std.specs.Prelude.{◌≡◌, ◌≤◌, ◌+◌, ◌++◌, ◌∷◌, [], OnOk};

use flux_link::Outlet;
use std::alloc::Global;
use std::collections::VecDeque;
use std::marker::Model;
use tuple_edge::{NodeId, OutOfMemory, Packet};

/// The end of a link on which a node sends, with the packets that wait for room in the link.
#[derive(Drop)]
pub(crate) struct OutEnd<O: Outlet + Drop> {
    pub(crate) to: NodeId,
    pub(crate) outlet: O,
    waiting: VecDeque<Packet>,
}

impl<O: Outlet + Drop> Model for OutEnd<O> {
    ghost use Rattle.run_node.specs.Ends.{OutEndView};
    ghost use Rattle.std.specs.Prelude.{◌++◌, ◌-◌, length};
    ghost use Rattle.std.specs.VecDeque.{deque_capacity};

    ghost Value = { OutEndView };

    ghost view = { λ e. record {
      link = record { to = e.to; identity = O.identity e.outlet; emitted = O.sent e.outlet ++ e.waiting.items };
      spare = deque_capacity e.waiting - length e.waiting.items;
    } };
}

impl<O: Outlet + Drop> OutEnd<O> {
    /// An end with nothing to be sent.
    pub(crate) fn new(alloc: Global, to: NodeId, outlet: O) -> OutEnd<O>
        ensures { result.link ≡ record { to = to; identity = O.identity outlet; emitted = O.sent outlet } }
    {
        OutEnd {
            to,
            outlet,
            waiting: VecDeque::new(alloc),
        }
    }

    /// The node to which it leads.
    pub(crate) fn to(&self) -> NodeId
        ensures { result ≡ self.now.link.to }
    {
        self.to
    }

    /// Whether it leads to this node.
    pub(crate) fn leads_to(&self, to: NodeId) -> bool
        ensures { result ≡ is_node self.now.link.to to }
    {
        self.to == to
    }

    /// Makes room for this many further packets.
    pub(crate) fn reserve(&mut self, packets: usize) -> Result<(), OutOfMemory>
        ensures link { self.new.link ≡ self.old.link }
        ensures spare { OnOk result (packets ≤ self.new.spare) }
    {
        self.waiting.reserve(packets)?;
        Ok(())
    }

    /// Sends a packet behind those that wait: where none waits and the link has room, at once.
    pub(crate) fn put(&mut self, packet: Packet)
        requires { 1 ≤ self.old.spare }
        ensures link { self.new.link ≡ record self.old.link { emitted = self.old.link.emitted ++ packet ∷ [] } }
        ensures spare { self.old.spare ≤ self.new.spare + 1 }
    {
        if self.waiting.is_empty() && self.outlet.send(packet).is_ok() {
            return;
        }
        self.waiting.push_back_reserved(packet);
    }

    /// Whether a packet waits for room.
    pub(crate) fn waits(&self) -> bool {
        !self.waiting.is_empty()
    }

    /// Pushes what waits, as far as the link has room.
    pub(crate) fn flush(&mut self)
        ensures link { self.new.link ≡ self.old.link }
        ensures spare { self.old.spare ≤ self.new.spare }
    {
        for _ in 0..self.waiting.len() {
            if !self.push_one() {
                break;
            }
        }
    }

    fn push_one(&mut self) -> bool
        ensures link { self.new.link ≡ self.old.link }
        ensures spare { self.old.spare ≤ self.new.spare }
    {
        if self.waiting.is_empty() {
            return false;
        }
        let packet = self.waiting[0];
        if self.outlet.send(packet).is_err() {
            return false;
        }
        self.waiting.pop_front();
        true
    }
}
