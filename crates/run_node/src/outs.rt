// All ends of links on which a node sends.
ghost use Rattle.run_node.specs.Ends.{links_of};
ghost use Rattle.run_node.specs.Sends.{with_all_sent, with_steps_sent};
ghost use Rattle.node_tasks.specs.Steps.{pieces};
ghost use Rattle.std.specs.Prelude.{◌≡◌, ◌≤◌, ◌<◌, ◌+◌, ◌*◌, ◌^◌, [], OnOk, length};

use crate::out_end::OutEnd;
use crate::place_range::PlaceRange;
use crate::sending::{count_firsts, flush_all, reserve_all, send_all, send_steps};
use flux_link::Outlet;
use node_tasks::Steps;
use std::marker::Model;
use tuple_edge::{OutOfMemory, Outbox};

// Room is made for so many packets at once, so that not each event goes over all links for it.
const ROOM: usize = 96;

/// The ends of the links on which a node sends.
#[derive(Drop)]
pub(crate) struct Outs<O: Outlet + Drop> {
    pub(crate) ends: Vec<OutEnd<O>>,
    // At each end so many further packets may wait without memory.
    room: usize,
    // At no other end does a packet wait.
    waiting: PlaceRange,
    // So many ends from the front on are each the first one to its receiver: all of them, where no two lead to one node.
    firsts: usize,
    // Where a receiver was found last, by which the place of the next one is guessed.
    near: usize,
}

impl<O: Outlet + Drop> Model for Outs<O> {
    ghost use Rattle.run_node.specs.Ends.{HaveRoom, OutsView, links_of};
    ghost use Rattle.run_node.specs.FirstLinks.{AreFirst, receivers};

    ghost Value = { OutsView };

    ghost view = { λ o. record { links = links_of o.ends.items; room = o.room } };

    ghost invariant = { λ o. HaveRoom o.room o.ends.items × AreFirst o.firsts (receivers (links_of o.ends.items)) };
}

impl<O: Outlet + Drop> Outs<O> {
    /// These ends.
    pub(crate) fn new(ends: Vec<OutEnd<O>>) -> Outs<O>
        ensures { result ≡ record { links = links_of ends.items; room = 0 } }
    {
        let waiting = PlaceRange {
            first: 0,
            beyond: ends.len(),
        };
        let firsts = count_firsts(&ends);
        Outs {
            ends,
            room: 0,
            waiting,
            firsts,
            near: 0,
        }
    }

    /// Makes room for this many further packets on each link, where there is less.
    pub(crate) fn reserve(&mut self, packets: usize) -> Result<(), OutOfMemory>
        ensures links { self.new.links ≡ self.old.links }
        ensures room { OnOk result (packets ≤ self.new.room) }
    {
        if packets <= self.room {
            return Ok(());
        }
        let room = packets.max(ROOM);
        self.room = 0;
        reserve_all(&mut self.ends, room)?;
        self.room = room;
        Ok(())
    }

    /// Puts all packets of an outbox on their links, in order, each with the clock, and empties it.
    pub(crate) fn send_all(&mut self, outbox: &mut Outbox, clock: u64)
        requires { length outbox.old.packets ≤ self.old.room }
        ensures links { self.new.links ≡ with_all_sent clock outbox.old.packets self.old.links }
        ensures emptied { outbox.new.packets ≡ [] }
    {
        if outbox.is_empty() {
            return;
        }
        let left = self.room - outbox.len();
        self.waiting = send_all(
            &mut self.ends,
            outbox,
            clock,
            self.firsts,
            &mut self.near,
            self.waiting,
        );
        self.room = left;
        outbox.clear();
    }

    /// Puts the packets of steps on their links, in order, so many of each step with its clock, and empties the outbox. The clocks
    /// follow on this one.
    pub(crate) fn send_steps(&mut self, outbox: &mut Outbox, steps: Steps, clock: u64)
        requires whole { length outbox.old.packets ≡ steps.count * steps.each }
        requires clocks { clock + steps.count < 2 ^ 64 }
        requires room { length outbox.old.packets ≤ self.old.room }
        ensures links { self.new.links ≡ with_steps_sent clock (pieces steps.count steps.each outbox.old.packets) self.old.links }
        ensures emptied { outbox.new.packets ≡ [] }
    {
        if outbox.is_empty() {
            return;
        }
        let left = self.room - outbox.len();
        self.waiting = send_steps(
            &mut self.ends,
            outbox,
            steps,
            clock,
            self.firsts,
            &mut self.near,
            self.waiting,
        );
        self.room = left;
        outbox.clear();
    }

    /// Pushes what waits, on each link as far as it has room.
    pub(crate) fn flush(&mut self)
        ensures { self.new ≡ self.old }
    {
        if self.waiting.is_empty() {
            return;
        }
        self.waiting = flush_all(&mut self.ends, self.waiting);
    }

    /// Whether a packet waits for room on some link, once what waits was pushed.
    pub(crate) fn some_wait(&self) -> bool {
        !self.waiting.is_empty()
    }
}
