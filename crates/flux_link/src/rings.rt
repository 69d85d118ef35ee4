// A link of 128 places whose two ends may go to two threads.
ghost use Rattle.flux_link.specs.Arrivals.{numbered};
ghost use Rattle.flux_link.specs.Limits.{max_taken, ring_packets};
ghost use Rattle.std.specs.Prelude.{◌≡◌, ◌<◌, ◌≤◌, ◌+◌, [], ◌∷◌, ◌++◌, length, IfOk, OnOk, OnErr, IfErr, IsOk, IsSome, IfNone, IfSome, None};
ghost use mathlib.Core.List.{IsPrefix};

use crate::{Arrival, Inlet, Outlet};
use rtrb::{Consumer, Producer, PushError, RingBuffer};
use std::alloc::Global;
use std::marker::Model;
use tuple_edge::{OutOfMemory, Packet};

/// How many packets a ring holds.
pub const RING_PACKETS: usize = 128;

/// The end of a ring that sends.
#[derive(Drop)]
pub struct RingOut {
    producer: Producer<Packet>,
}

impl Model for RingOut {
    ghost use Rattle.flux_link.specs.RingViews.{RingOutView, ring_out_view};

    ghost Value = { RingOutView };

    ghost view = { λ outlet. ring_out_view outlet.producer };
}

impl Outlet for RingOut {
    ghost sent = { λ outlet. outlet.sent };

    ghost room = { λ _. None };

    ghost identity = { λ outlet. outlet.identity };

    fn send(&mut self, packet: Packet) -> Result<(), Packet>
        ensures link { self.new.identity ≡ self.old.identity }
        ensures sent { OnOk result (self.new.sent ≡ self.old.sent ++ packet ∷ []) }
        ensures back { IfErr result (λ back. back ≡ packet) }
        ensures unchanged { OnErr result (self.new ≡ self.old) }
        ensures room { OnOk result (self.old.known_free ≤ self.new.known_free + 1) }
        // It is refused only where this end knows of no free slot.
        ensures full { OnErr result (self.new.known_free ≡ 0) }
        ensures succeeds { 0 < self.old.known_free → IsOk result }
    {
        match self.producer.push(packet) {
            Ok(()) => Ok(()),
            Err(PushError::Full(back)) => Err(back),
        }
    }
}

/// The end of a ring that receives.
#[derive(Drop)]
pub struct RingIn {
    consumer: Consumer<Packet>,
    count: u64,
}

impl Model for RingIn {
    ghost use Rattle.flux_link.specs.RingViews.{RingInView, ring_in_view};
    ghost use Rattle.rtrb.specs.Ring.{received};
    ghost use Rattle.std.specs.Prelude.{◌≡◌, length};

    ghost Value = { RingInView };

    ghost view = { λ inlet. ring_in_view inlet.consumer };

    ghost invariant = { λ inlet. inlet.count ≡ length (received inlet.consumer) };
}

impl Inlet for RingIn {
    ghost use Rattle.flux_link.specs.Arrivals.{length-numbered_after, next_after};
    ghost use Rattle.flux_link.specs.RingViews.{GivesFirst};
    ghost use Rattle.std.proofs.Common.{arith};
    ghost use Rattle.std.specs.Prelude.{◌↔◌, IsTrue, MatchOption, Some};

    ghost given = { λ inlet. numbered inlet.given };

    ghost coming = { λ _. None };

    ghost next = { λ inlet. next_after (length inlet.given) inlet.known_waiting };

    ghost identity = { λ inlet. inlet.identity };

    ghost taken = { λ inlet. length inlet.given };

    ghost receives = { λ before result after. MatchOption result ((after ≡ before) × (after.known_waiting ≡ []))
        (λ arrival. GivesFirst before arrival after) };

    #[tactic(auto, using(crate::proofs::Numbered::numbered_push))]
    fn recv(&mut self) -> Option<Arrival>
        requires fits { length self.old.given < max_taken }
        ensures link { self.new.identity ≡ self.old.identity }
        ensures gives { IfSome result (λ arrival. GivesFirst self.old arrival self.new) }
        ensures place { IfSome result (λ arrival. numbered self.new.given ≡ numbered self.old.given ++ arrival ∷ []) }
        ensures unchanged { IfNone result (self.new ≡ self.old) }
        // It is None only where this end knows of no waiting packet.
        ensures empty { IfNone result (self.new.known_waiting ≡ []) }
        ensures succeeds { 0 < length self.old.known_waiting → IsSome result }
        ensures next { IfSome (next_after (length self.old.given) self.old.known_waiting) (λ arrival. result ≡ Some arrival) }
    {
        let packet = self.consumer.pop().ok()?;
        self.count += 1;
        Some(Arrival {
            index: self.count,
            packet,
        })
    }

    fn look(&mut self) -> bool
        requires fits { length self.old.given < max_taken }
        ensures link { self.new.identity ≡ self.old.identity }
        ensures given { self.new.given ≡ self.old.given }
        ensures known { IsPrefix self.old.known_waiting self.new.known_waiting }
        ensures looked { IsTrue result ↔ (0 < length self.new.known_waiting) }
        ensures next { IsTrue result → IsSome (next_after (length self.new.given) self.new.known_waiting) }
        ensures stays { IfSome (next_after (length self.old.given) self.old.known_waiting) (λ arrival.
            IsTrue result × (next_after (length self.new.given) self.new.known_waiting ≡ Some arrival)) }
    {
        !self.consumer.is_empty()
    }

    fn first(&self) -> &Packet
        requires { IsSome (next_after (length self.now.given) self.now.known_waiting) }
        ensures { IfSome (next_after (length self.now.given) self.now.known_waiting) (λ arrival. result.now ≡ arrival.packet) }
    {
        self.consumer.peek_known()
    }

    fn index(&self) -> u64
        requires fits { length self.now.given < max_taken }
        requires next { IsSome (next_after (length self.now.given) self.now.known_waiting) }
        ensures { IfSome (next_after (length self.now.given) self.now.known_waiting) (λ arrival. result ≡ arrival.index) }
    {
        self.count + 1
    }

    fn pass(&mut self)
        requires fits { length self.old.given < max_taken }
        requires next { IsSome (next_after (length self.old.given) self.old.known_waiting) }
        ensures gives { IfSome (next_after (length self.old.given) self.old.known_waiting) (λ arrival. GivesFirst self.old arrival self.new) }
        ensures place { IfSome (next_after (length self.old.given) self.old.known_waiting) (λ arrival.
            numbered self.new.given ≡ numbered self.old.given ++ arrival ∷ []) }
        ensures link { self.new.identity ≡ self.old.identity }
    {
        let index = self.count + 1;
        self.consumer.pop_known();
        self.count = index;
    }

    ghost few = { λ inlet. Prim.omega (arith, length-numbered_after 0 inlet.given) };
}

impl RingIn {
    ghost use Rattle.flux_link.specs.Arrivals.{WasSent};
    ghost use Rattle.std.specs.Prelude.{◌≡◌, ◌++◌, All};

    /// With both ends in one hand: the arrivals given are the first packets sent, each with its place,
    /// and the inlet knows the others to be waiting. What was sent and what was given stay the same.
    pub fn settle(&mut self, outlet: &mut RingOut)
        requires { self.old.identity ≡ outlet.old.identity }
        ensures link { (self.new.identity ≡ self.old.identity) × (outlet.new.identity ≡ outlet.old.identity) }
        ensures given { self.new.given ≡ self.old.given }
        ensures sent { outlet.new.sent ≡ outlet.old.sent }
        ensures rest { self.new.given ++ self.new.known_waiting ≡ outlet.new.sent }
        ensures prefix { IsPrefix (numbered self.new.given) (numbered outlet.new.sent) }
        ensures arrivals { All (WasSent outlet.new.sent) (numbered self.new.given) }
    {
        self.consumer.slots_beside(&mut outlet.producer);
    }
}

/// A link of 128 places with nothing sent, by its two ends.
pub fn ring(alloc: Global) -> Result<(RingOut, RingIn), OutOfMemory>
    ensures empty { IfOk result (λ ends. (ends.0.sent ≡ []) × (ends.1.given ≡ [])) }
    ensures room { IfOk result (λ ends. ends.0.known_free ≡ ring_packets) }
    ensures limit { RING_PACKETS ≡ ring_packets }
    ensures link { IfOk result (λ ends. ends.0.identity ≡ ends.1.identity) }
{
    let (producer, consumer) = RingBuffer::new(alloc, RING_PACKETS)?;
    Ok((RingOut { producer }, RingIn { consumer, count: 0 }))
}
