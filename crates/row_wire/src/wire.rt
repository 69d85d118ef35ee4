// What rows are written onto.
ghost use Rattle.flux_outside.specs.Outside.{IsOffered, Rose, Takes, TakesPart};
ghost use Rattle.flux_outside.specs.Told.{SinkTold};
ghost use Rattle.row_wire.specs.Written.{OffersText};
ghost use Rattle.std.specs.Prelude.{◌≡◌, ◌≤◌, ◌<◌, length, take, IfOk, OnErr, OnOk};

use flux_outside::{Failed, Sink};

/// A wire took no more, and its count of faults rose.
#[derive(Clone, Copy, Debug, PartialEq, Eq)]
pub struct Broken;

/// A wire: what is put goes out at once, while the run that makes it goes on.
pub trait Wire {
    /// What the wire tells, as a sink does: the bytes that were taken, the pieces that puts were given, and the count of faults.
    ghost told: { Self → SinkTold };

    /// Takes bytes from the front of the piece, and says how many. To take none is a fault. A put that
    /// fails has taken a proper prefix, which may be empty.
    fn put(&mut self, bytes: &[u8]) -> Result<usize, Broken>
        requires { 0 < length bytes.now }
        ensures given { IsOffered (told self.old).offered (told self.new).offered bytes.now }
        ensures within { IfOk result (λ count. count ≤ length bytes.now) }
        ensures ok { IfOk result (λ count. Takes (told self.old).taken (told self.new).taken (take count bytes.now)) }
        ensures failed { OnErr result (TakesPart (told self.old).taken (told self.new).taken bytes.now) }
        ensures none { IfOk result (λ count. count ≡ 0 → Rose (told self.old).faults (told self.new).faults) }
        ensures cause { OnErr result (Rose (told self.old).faults (told self.new).faults) }
        ensures later { (told self.old).faults ≤ (told self.new).faults };
}

/// A sink is a wire.
impl<S: Sink> Wire for S {
    ghost told = { λ s. S.told s };

    fn put(&mut self, bytes: &[u8]) -> Result<usize, Broken> {
        match Sink::put(self, bytes) {
            Ok(count) => Ok(count),
            Err(Failed) => Err(Broken),
        }
    }
}

// Puts all bytes in order: each put is given all that were not taken yet.
#[tactic(auto, using(crate::proofs::Offers::offers_nothing, crate::proofs::Offers::not_begun, crate::proofs::Offers::puts_all, crate::proofs::Offers::puts_until))]
pub(crate) fn put_all<W: Wire>(wire: &mut W, bytes: &[u8]) -> Result<(), Broken>
    ensures offers { OffersText (W.told wire.old).offered (W.told wire.new).offered bytes.now }
    ensures ok { OnOk result (Takes (W.told wire.old).taken (W.told wire.new).taken bytes.now) }
    ensures failed { OnErr result (TakesPart (W.told wire.old).taken (W.told wire.new).taken bytes.now) }
    ensures cause { OnErr result (Rose (W.told wire.old).faults (W.told wire.new).faults) }
    ensures later { (W.told wire.old).faults ≤ (W.told wire.new).faults }
{
    let mut rest = bytes;
    while !rest.is_empty() {
        let count = wire.put(rest)?;
        if count == 0 {
            return Err(Broken);
        }
        let (_, left) = rest.split_at(count);
        rest = left;
    }
    Ok(())
}
