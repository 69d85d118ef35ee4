// The two ends of a link, by what they have sent and given.
ghost use Rattle.flux_link.specs.Identity.{Identity};
ghost use Rattle.flux_link.specs.Limits.{max_ahead, max_taken};
ghost use Rattle.flux_link.specs.declared.arrival.Arrival.{Arrival};
ghost use Rattle.std.specs.Prelude.{◌≡◌, ◌<◌, ◌≤◌, ◌+◌, ◌-◌, ℕ, List, [], ◌∷◌, ◌++◌, length, Option, Some, OnOk, OnErr, IfErr, IfSome, IfNone, IsFalse, IsSome, IsTrue, MatchOption, MatchResult};
ghost use Rattle.tuple_edge.specs.declared.packet.Packet.{Packet};

use crate::Arrival;
use tuple_edge::Packet;

/// The end of a link that sends.
pub trait Outlet {
    /// The packets sent, in order.
    ghost sent: { Self → List Packet };

    /// For how many more packets there is room, where the outlet tells it.
    ghost room: { Self → Option ℕ };

    /// Which link it is, the same at both ends. Contracts alone see it, and no call changes it.
    ghost identity: { Self → Identity };

    /// Sends a packet. Where there is no room the packet is given back, and nothing was sent; an
    /// outlet that tells its room gives a packet back exactly where it has none. It never waits, and
    /// takes no memory.
    fn send(&mut self, packet: Packet) -> Result<(), Packet>
        ensures link { identity self.new ≡ identity self.old }
        ensures sent { OnOk result (sent self.new ≡ sent self.old ++ packet ∷ []) }
        ensures back { IfErr result (λ back. back ≡ packet) }
        ensures unchanged { OnErr result ((sent self.new ≡ sent self.old) × (room self.new ≡ room self.old)) }
        ensures room { IfSome (room self.old) (λ free.
            MatchResult result (λ _. (0 < free) × (room self.new ≡ Some (free - 1))) (λ _. free ≡ 0)) };
}

/// The end of a link that receives.
pub trait Inlet {
    /// The arrivals given, in order.
    ghost given: { Self → List Arrival };

    /// The packets still to come, where the inlet tells them.
    ghost coming: { Self → Option (List Packet) };

    /// The next arrival, where it is known that one waits.
    ghost next: { Self → Option Arrival };

    /// Which link it is, the same at both ends. Contracts alone see it, and no call changes it.
    ghost identity: { Self → Identity };

    /// How many packets it has taken from the link, with those that it may yet take and not give.
    ghost taken: { Self → ℕ };

    /// That a call of `recv` at the first inlet gave this and left the second. Of an inlet of which
    /// nothing more is known only the call itself can show it.
    ghost receives: { Self → Option Arrival → Self → Type 0 };

    /// The next arrival; None where none is to be had. An inlet that tells what is still to come
    /// gives exactly that, and None exactly where nothing is. It never waits, and takes no memory.
    fn recv(&mut self) -> Option<Arrival>
        requires fits { taken self.old < max_taken }
        ensures link { identity self.new ≡ identity self.old }
        ensures given { MatchOption result (given self.new ≡ given self.old)
            (λ arrival. given self.new ≡ given self.old ++ arrival ∷ []) }
        ensures taken { MatchOption result (taken self.new ≤ taken self.old)
            (λ _. taken self.new ≤ taken self.old + 1) }
        ensures call { receives self.old result self.new }
        // An arrival that was known to be next is given.
        ensures next { IfSome (next self.old) (λ arrival. result ≡ Some arrival) }
        ensures unchanged { IfNone result (coming self.new ≡ coming self.old) }
        ensures coming { IfSome (coming self.old) (λ packets. MatchOption result (packets ≡ [])
            (λ arrival. (later : List Packet) × (packets ≡ arrival.packet ∷ later) × (coming self.new ≡ Some later))) };

    /// Looks whether an arrival is to be had, which stays in the link: `first` and `index` tell it, and
    /// `pass` gives it. False where none is to be had, as by `recv`. It never waits, and takes no memory.
    fn look(&mut self) -> bool
        requires fits { taken self.old < max_taken }
        ensures link { identity self.new ≡ identity self.old }
        ensures given { given self.new ≡ given self.old }
        ensures next { IsTrue result → IsSome (next self.new) }
        // An arrival that was known to be next stays the next one.
        ensures stays { IfSome (next self.old) (λ arrival. IsTrue result × (next self.new ≡ Some arrival)) }
        ensures coming { coming self.new ≡ coming self.old }
        ensures spent { IsFalse result → IfSome (coming self.new) (λ packets. packets ≡ []) };

    /// The packet that is next, which stays in the link.
    fn first(&self) -> &Packet
        requires { IsSome (next self.now) }
        ensures { IfSome (next self.now) (λ arrival. result.now ≡ arrival.packet) };

    /// The index of the packet that is next.
    fn index(&self) -> u64
        requires fits { taken self.now < max_taken }
        requires next { IsSome (next self.now) }
        ensures { IfSome (next self.now) (λ arrival. result ≡ arrival.index) };

    /// Gives the arrival that is next, so that it is no longer in the link.
    fn pass(&mut self)
        requires fits { taken self.old < max_taken }
        requires next { IsSome (next self.old) }
        ensures link { identity self.new ≡ identity self.old }
        ensures given { IfSome (next self.old) (λ arrival. given self.new ≡ given self.old ++ arrival ∷ []) }
        ensures coming { IfSome (next self.old) (λ arrival. IfSome (coming self.old) (λ packets.
            (later : List Packet) × (packets ≡ arrival.packet ∷ later) × (coming self.new ≡ Some later))) };

    /// So `recv`, `look`, `index` and `pass` may be called wherever fewer than 2^62 arrivals were given.
    ghost few: { (inlet : Self) → taken inlet ≤ length (given inlet) + max_ahead };
}
