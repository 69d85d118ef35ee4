// Writing a text as a whole.
ghost use Rattle.std.specs.Prelude.{◌≤◌, OnErr, OnOk};
ghost use Rattle.flux_outside.specs.Outside.{OffersRests, Rose, Takes, TakesPart};

use crate::{Failed, Sink};

/// Puts all bytes in order: each put is given all that were not taken yet.
#[tactic(auto, using(crate::proofs::Sinks::offers_nothing, crate::proofs::Sinks::offers_last, crate::proofs::Sinks::offers_rests))]
pub fn write_all<S: Sink>(sink: &mut S, bytes: &[u8]) -> Result<(), Failed>
    ensures offers { OffersRests (S.told sink.old).offered (S.told sink.new).offered bytes.now }
    ensures ok { OnOk result (Takes (S.told sink.old).taken (S.told sink.new).taken bytes.now) }
    ensures failed { OnErr result (TakesPart (S.told sink.old).taken (S.told sink.new).taken bytes.now) }
    ensures cause { OnErr result (Rose (S.told sink.old).faults (S.told sink.new).faults) }
    ensures later { (S.told sink.old).faults ≤ (S.told sink.new).faults }
{
    let mut rest = bytes;
    while !rest.is_empty() {
        let count = sink.put(rest)?;
        if count == 0 {
            return Err(Failed);
        }
        let (_, left) = rest.split_at(count);
        rest = left;
    }
    Ok(())
}
