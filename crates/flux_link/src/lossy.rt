// An inlet for tests that drops, repeats and reorders what another one gives.
ghost use Rattle.flux_link.specs.Limits.{max_ahead, max_taken};
ghost use Rattle.flux_link.specs.Treating.{IsTreating};

use crate::ready::{Ready, held_back};
use crate::{Arrival, Inlet, RingIn, RingOut};
use std::snapshot::Snapshot;
use tuple_edge::Packet;

/// What becomes of a packet.
#[derive(Clone, Copy, Debug, PartialEq, Eq)]
pub enum Choice {
    /// It is given.
    Pass,
    /// It is not given.
    Drop,
    /// It is given twice.
    Twice,
    /// It is held back until the next packet was treated by its own choice, and given then.
    Behind,
}

/// An inlet that treats each packet of another one by a choice of its own.
#[derive(Drop)]
pub struct LossyIn<I: Inlet> {
    inner: I,
    choices: Vec<Choice>,
    // The place of the choice for the next packet; the number of choices where they have ended.
    next: usize,
    held: Option<Arrival>,
    ready: Ready,
    // The inner inlet as it was handed over. What it gave before is no concern of the choices.
    opening: Snapshot<I>,
    ghost sound: { IsTreating (I.given opening.value) (I.given inner) choices.items next held ready
        (I.taken inner) },
}

impl<I: Inlet> LossyIn<I> {
    ghost use Rattle.flux_link.specs.Treating.{choice_after};
    ghost use Rattle.flux_link.specs.LossyInlets.{inner_of, choices_of, inner_arrivals, given_by, taken_by, steps_left, InnerKeepsAll};
    ghost use Rattle.flux_link.specs.declared.arrival.Arrival.{Arrival};
    ghost use Rattle.std.specs.Prelude.{◌≡◌, ◌<◌, ◌≤◌, ◌+◌, ◌-◌, ◌++◌, ◌∷◌, [], length, IfSome, MatchOption, None, Some, slice_get};
    ghost use Rattle.std.specs.Bool.{OnTrue, OnFalse};
    ghost use mathlib.Core.List.{IsPrefix};

    /// An inlet that treats the n-th packet that it takes from `inner` by the n-th choice, and passes
    /// those past the end of the choices.
    pub fn new(inner: I, choices: Vec<Choice>) -> LossyIn<I>
        requires fits { I.taken inner + length choices.items < max_ahead }
        ensures inner { inner_of result ≡ inner }
        ensures choices { choices_of result ≡ choices.items }
        ensures untouched { inner_arrivals result ≡ [] }
        ensures given { given_by result ≡ [] }
        ensures taken { taken_by result ≡ I.taken inner + length choices.items }
    {
        let opening = Snapshot::of(&inner);
        LossyIn {
            inner,
            choices,
            next: 0,
            held: None,
            ready: Ready::new(),
            opening,
        }
    }

    // The choice for the next packet.
    fn choice(&self) -> Choice
        ensures { result ≡ choice_after (choices_of self.now) (length (inner_arrivals self.now)) }
    {
        self.choices.get(self.next).copied().unwrap_or(Choice::Pass)
    }

    // Takes one packet of the inner inlet and makes ready what its choice gives; false where that inlet gives none.
    fn treat_next(&mut self) -> bool
        requires ready { self.old.ready ≡ [] }
        requires fits { I.taken self.old.inner < max_taken }
        ensures link { I.identity self.new.inner ≡ I.identity self.old.inner }
        ensures choices { self.new.choices ≡ self.old.choices }
        ensures given { given_by self.new ≡ given_by self.old }
        ensures grows { IsPrefix (inner_arrivals self.old) (inner_arrivals self.new) }
        ensures all { InnerKeepsAll self.old self.new }
        ensures taken { taken_by self.new + (1 - length self.new.ready) ≤ taken_by self.old + 1 }
        ensures nearer { OnTrue result (steps_left self.new < steps_left self.old) }
        ensures spent { OnFalse result ((self.new.ready ≡ []) × IfSome (I.coming self.new.inner) (λ packets. packets ≡ [])) }
        // It asks the inner inlet once.
        ensures came { OnTrue result ((arrival : Arrival) × I.receives self.old.inner (Some arrival) self.new.inner) }
        ensures none { OnFalse result (I.receives self.old.inner None self.new.inner) }
    {
        let choice = self.choice();
        let Some(arrival) = self.inner.recv() else {
            return false;
        };
        self.ready = Ready::of(choice, arrival, self.held);
        self.held = held_back(choice, arrival);
        self.next = (self.next + 1).min(self.choices.len());
        true
    }

    // What is ready to be given next.
    fn take_ready(&mut self) -> Option<Arrival>
        ensures inner { (self.new.inner ≡ self.old.inner) × (self.new.opening ≡ self.old.opening) }
        ensures choices { (self.new.choices ≡ self.old.choices) × (self.new.next ≡ self.old.next) }
        ensures given { MatchOption result
            ((self.old.ready ≡ []) × (self.new.ready ≡ []) × (given_by self.new ≡ given_by self.old))
            (λ arrival. given_by self.new ≡ given_by self.old ++ arrival ∷ []) }
        ensures first { result ≡ slice_get self.old.ready 0 }
    {
        self.ready.take()
    }
}

impl<I: Inlet> Inlet for LossyIn<I> {
    ghost use Rattle.flux_link.specs.Choices.{treated};
    ghost use Rattle.flux_link.specs.LossyInlets.{inner_of, choices_of, inner_arrivals, given_by, taken_by, AskedOn, AskedToItsEnd, InnerKeepsAll};
    ghost use Rattle.std.proofs.Common.{arith};
    ghost use Rattle.std.specs.Prelude.{◌≡◌, ◌<◌, ◌≤◌, ◌+◌, ◌++◌, ◌∷◌, [], None, Some, IfNone, IfSome, IsFalse, IsSome, IsTrue, MatchOption, slice_get};
    ghost use mathlib.Core.List.{IsPrefix};

    ghost given = { λ lossy. given_by lossy };

    ghost coming = { λ _. None };

    ghost next = { λ lossy. slice_get lossy.ready 0 };

    ghost identity = { λ lossy. I.identity (inner_of lossy) };

    ghost taken = { λ lossy. taken_by lossy };

    ghost receives = { λ before result after. MatchOption result (AskedToItsEnd before after) (λ _. AskedOn before after) };

    fn recv(&mut self) -> Option<Arrival>
        requires fits { taken_by self.old < max_taken }
        ensures link { I.identity (inner_of self.new) ≡ I.identity (inner_of self.old) }
        ensures choices { choices_of self.new ≡ choices_of self.old }
        ensures given { MatchOption result (given_by self.new ≡ given_by self.old)
            (λ arrival. given_by self.new ≡ given_by self.old ++ arrival ∷ []) }
        ensures taken { MatchOption result (taken_by self.new ≤ taken_by self.old)
            (λ _. taken_by self.new ≤ taken_by self.old + 1) }
        ensures grows { IsPrefix (inner_arrivals self.old) (inner_arrivals self.new) }
        ensures next { IfSome (slice_get self.old.ready 0) (λ arrival. result ≡ Some arrival) }
        // The inner inlet keeps what it has given and has still to come, where it tells that.
        ensures all { InnerKeepsAll self.old self.new }
        // It gives what the choices make of the arrivals of the inner inlet, and all of it before it gives none.
        ensures front { IsPrefix (given_by self.new) (treated (choices_of self.new) (inner_arrivals self.new)) }
        ensures whole { IfNone result (given_by self.new ≡ treated (choices_of self.new) (inner_arrivals self.new)) }
        // Where it gives a packet, it took packets of the inner inlet alone.
        ensures some { IfSome result (λ _. AskedOn self.old self.new) }
        // It gives none only where the inner inlet did in this call, last of all. Where that tells what is still to come,
        // it has nothing more.
        ensures none { IfNone result (AskedToItsEnd self.old self.new) }
        ensures spent { IfNone result (IfSome (I.coming (inner_of self.new)) (λ packets. packets ≡ [])) }
    {
        if !self.look() {
            return None;
        }
        let Some(arrival) = self.take_ready() else {
            unreachable!();
        };
        Some(arrival)
    }

    fn look(&mut self) -> bool
        requires fits { taken_by self.old < max_taken }
        ensures link { I.identity (inner_of self.new) ≡ I.identity (inner_of self.old) }
        ensures choices { choices_of self.new ≡ choices_of self.old }
        ensures given { given_by self.new ≡ given_by self.old }
        ensures taken { taken_by self.new ≤ taken_by self.old + 1 }
        ensures few { IsFalse result → taken_by self.new ≤ taken_by self.old }
        ensures grows { IsPrefix (inner_arrivals self.old) (inner_arrivals self.new) }
        // The inner inlet keeps what it has given and has still to come, where it tells that.
        ensures all { InnerKeepsAll self.old self.new }
        // It took packets of the inner inlet until one is ready, and there is none only where that inlet gave none in this
        // call, last of all: then all is given that the choices make of them.
        ensures next { IsTrue result → IsSome (slice_get self.new.ready 0) }
        ensures stays { IfSome (slice_get self.old.ready 0) (λ arrival. IsTrue result × (slice_get self.new.ready 0 ≡ Some arrival)) }
        ensures some { IsTrue result → AskedOn self.old self.new }
        ensures none { IsFalse result → AskedToItsEnd self.old self.new }
        ensures whole { IsFalse result → given_by self.new ≡ treated (choices_of self.new) (inner_arrivals self.new) }
        ensures spent { IsFalse result → IfSome (I.coming (inner_of self.new)) (λ packets. packets ≡ []) }
    {
        while self.ready.is_empty() {
            if !self.treat_next() {
                return false;
            }
        }
        true
    }

    fn first(&self) -> &Packet
        requires { IsSome (slice_get self.now.ready 0) }
        ensures { IfSome (slice_get self.now.ready 0) (λ arrival. result.now ≡ arrival.packet) }
    {
        let Some(arrival) = self.ready.first() else {
            unreachable!();
        };
        &arrival.packet
    }

    fn index(&self) -> u64
        requires next { IsSome (slice_get self.now.ready 0) }
        ensures { IfSome (slice_get self.now.ready 0) (λ arrival. result ≡ arrival.index) }
    {
        let Some(arrival) = self.ready.first() else {
            unreachable!();
        };
        arrival.index
    }

    fn pass(&mut self)
        requires next { IsSome (slice_get self.old.ready 0) }
        ensures link { I.identity (inner_of self.new) ≡ I.identity (inner_of self.old) }
        ensures choices { choices_of self.new ≡ choices_of self.old }
        ensures inner { inner_of self.new ≡ inner_of self.old }
        ensures given { IfSome (slice_get self.old.ready 0) (λ arrival. given_by self.new ≡ given_by self.old ++ arrival ∷ []) }
    {
        self.take_ready();
    }

    ghost few = { λ lossy. Prim.omega (arith, lossy.sound.few) };
}

impl LossyIn<RingIn> {
    ghost use Rattle.flux_link.specs.Arrivals.{WasSent};
    ghost use Rattle.flux_link.specs.LossyInlets.{inner_of, choices_of, inner_arrivals, given_by, taken_by};
    ghost use Rattle.std.specs.Prelude.{◌≡◌, All};

    /// With both ends in one hand: each arrival given has an index from 1 to the number of packets
    /// sent, and its packet is the one sent there. What was sent and what was given stay the same.
    pub fn settle(&mut self, outlet: &mut RingOut)
        requires { (inner_of self.old).identity ≡ outlet.old.identity }
        ensures link { ((inner_of self.new).identity ≡ (inner_of self.old).identity)
            × (outlet.new.identity ≡ outlet.old.identity) }
        ensures given { given_by self.new ≡ given_by self.old }
        ensures sent { outlet.new.sent ≡ outlet.old.sent }
        ensures arrivals { All (WasSent outlet.new.sent) (given_by self.new) }
        ensures treated { (choices_of self.new ≡ choices_of self.old)
            × (inner_arrivals self.new ≡ inner_arrivals self.old) }
        ensures taken { taken_by self.new ≡ taken_by self.old }
    {
        self.inner.settle(outlet);
    }
}
