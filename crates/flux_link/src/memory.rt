// Both ends of an exact link in one hand.
ghost use Rattle.flux_link.specs.Arrivals.{numbered};
ghost use Rattle.flux_link.specs.Limits.{max_taken};
ghost use Rattle.flux_link.specs.MemLinkView.{all_sent, free_room};
ghost use Rattle.std.specs.Prelude.{◌≡◌, ◌<◌, ◌-◌, [], ◌∷◌, ◌++◌, length, IfOk, OnOk, OnErr, IfErr, IfNone, IfSome, IsErr, IsFalse, IsNone, IsSome, IsTrue, MatchResult, Some, ◌↔◌};

use crate::{Arrival, Inlet, Outlet};
use rtrb::{Consumer, Producer, RingBuffer};
use std::alloc::Global;
use std::marker::Model;
use tuple_edge::{OutOfMemory, Packet};

/// Both ends of an exact link: it refuses a packet exactly where its room is full of waiting packets,
/// and gives None exactly where none waits.
#[derive(Drop)]
pub struct MemLink {
    producer: Producer<Packet>,
    consumer: Consumer<Packet>,
    count: u64,
}

impl Model for MemLink {
    ghost use Rattle.flux_link.specs.MemLinkView.{MemLinkView, mem_link_view, AreEnds};

    ghost Value = { MemLinkView };

    ghost view = { λ link. mem_link_view link.producer link.consumer };

    ghost invariant = { λ link. AreEnds link.producer link.consumer link.count };
}

impl MemLink {
    /// A link with nothing sent, in which `room` packets may wait.
    pub fn new(alloc: Global, room: usize) -> Result<MemLink, OutOfMemory>
        ensures empty { IfOk result (λ link. (link.given ≡ []) × (link.waiting ≡ [])) }
        ensures room { IfOk result (λ link. link.room ≡ room) }
    {
        let (producer, consumer) = RingBuffer::new(alloc, room)?;
        Ok(MemLink {
            producer,
            consumer,
            count: 0,
        })
    }
}

impl Outlet for MemLink {
    ghost sent = { λ link. all_sent link };

    ghost room = { λ link. Some (free_room link) };

    ghost identity = { λ link. link.identity };

    fn send(&mut self, packet: Packet) -> Result<(), Packet>
        ensures waits { OnOk result (self.new ≡ record self.old { waiting = self.old.waiting ++ packet ∷ [] }) }
        ensures back { IfErr result (λ back. back ≡ packet) }
        ensures unchanged { OnErr result (self.new ≡ self.old) }
        ensures full { IsErr result ↔ (length self.old.waiting ≡ self.old.room) }
        ensures room { MatchResult result (λ _. (0 < free_room self.old) × (free_room self.new ≡ free_room self.old - 1))
            (λ _. free_room self.old ≡ 0) }
    {
        if self.producer.slots_beside(&mut self.consumer) == 0 {
            return Err(packet);
        }
        self.producer.push_reserved(packet);
        // The other end knows of it from now on, so that a look finds it.
        self.consumer.slots_beside(&mut self.producer);
        Ok(())
    }
}

impl Inlet for MemLink {
    ghost use Rattle.flux_link.specs.Arrivals.{length-numbered_after, next_after};
    ghost use Rattle.std.proofs.Common.{arith};

    ghost given = { λ link. numbered link.given };

    ghost coming = { λ link. Some link.waiting };

    ghost next = { λ link. next_after (length link.given) link.waiting };

    ghost identity = { λ link. link.identity };

    ghost taken = { λ link. length link.given };

    ghost receives = { λ before result after. IfNone result ((after ≡ before) × (after.waiting ≡ [])) };

    #[tactic(auto, using(crate::proofs::Numbered::numbered_push))]
    fn recv(&mut self) -> Option<Arrival>
        requires fits { length self.old.given < max_taken }
        ensures first { IfSome result (λ arrival. self.old.waiting ≡ arrival.packet ∷ self.new.waiting) }
        ensures gives { IfSome result (λ arrival.
            self.new ≡ record self.old { given = self.old.given ++ arrival.packet ∷ []; waiting = self.new.waiting }) }
        ensures place { IfSome result (λ arrival. numbered self.new.given ≡ numbered self.old.given ++ arrival ∷ []) }
        ensures unchanged { IfNone result (self.new ≡ self.old) }
        ensures empty { IsNone result ↔ (self.old.waiting ≡ []) }
        ensures next { IfSome (next_after (length self.old.given) self.old.waiting) (λ arrival. result ≡ Some arrival) }
    {
        if self.consumer.cached_slots() == 0 {
            return None;
        }
        let packet = self.consumer.pop_known();
        self.count += 1;
        Some(Arrival {
            index: self.count,
            packet,
        })
    }

    fn look(&mut self) -> bool
        ensures unchanged { self.new ≡ self.old }
        ensures waits { IsTrue result ↔ (0 < length self.old.waiting) }
        ensures next { IsTrue result → IsSome (next_after (length self.new.given) self.new.waiting) }
        ensures stays { IfSome (next_after (length self.old.given) self.old.waiting) (λ arrival.
            IsTrue result × (next_after (length self.new.given) self.new.waiting ≡ Some arrival)) }
        ensures spent { IsFalse result → self.new.waiting ≡ [] }
    {
        self.consumer.cached_slots() > 0
    }

    fn first(&self) -> &Packet
        requires { IsSome (next_after (length self.now.given) self.now.waiting) }
        ensures { IfSome (next_after (length self.now.given) self.now.waiting) (λ arrival. result.now ≡ arrival.packet) }
    {
        self.consumer.peek_known()
    }

    fn index(&self) -> u64
        requires fits { length self.now.given < max_taken }
        requires next { IsSome (next_after (length self.now.given) self.now.waiting) }
        ensures { IfSome (next_after (length self.now.given) self.now.waiting) (λ arrival. result ≡ arrival.index) }
    {
        self.count + 1
    }

    fn pass(&mut self)
        requires fits { length self.old.given < max_taken }
        requires next { IsSome (next_after (length self.old.given) self.old.waiting) }
        ensures link { self.new.identity ≡ self.old.identity }
        ensures place { IfSome (next_after (length self.old.given) self.old.waiting) (λ arrival.
            numbered self.new.given ≡ numbered self.old.given ++ arrival ∷ []) }
        ensures first { IfSome (next_after (length self.old.given) self.old.waiting) (λ arrival.
            self.old.waiting ≡ arrival.packet ∷ self.new.waiting) }
    {
        let index = self.count + 1;
        self.consumer.pop_known();
        self.count = index;
    }

    ghost few = { λ link. Prim.omega (arith, length-numbered_after 0 link.given) };
}
