// The drain.
ghost use Rattle.core_drain.specs.Drained.{IsCutShort, IsDrained};
ghost use Rattle.flux_core.specs.CoreView.{gone_by, inputs_of};
ghost use Rattle.flux_core.specs.Promises.{EmitsAFront, HoldsWhatIsOwed, MergesInOrder};
ghost use Rattle.flux_core.specs.Stands.{IsCore};
ghost use Rattle.std.specs.Prelude.{◌≡◌, IfOk, OnErr};

use crate::serving::first_lost;
use crate::turn::drain_all;
use event_log::EventBlocks;
use flux_core::{Core, CoreRows};
use tuple_edge::{Drained, OutOfMemory};

/// Brings a core to its end by makes, pulls and merges alone, with no packet, and appends these events. Lost
/// exactly where egress has more to merge and no counted replica of a pair runs: it names the first such pair,
/// stage by stage, and nothing is done. Else Whole, and all of the plan's output is emitted; where it was
/// already, nothing is done. Where memory is wanting, the core stands after the events that were appended.
pub fn drain<R: CoreRows>(
    core: &mut Core<R>,
    events: &mut EventBlocks,
) -> Result<Drained, OutOfMemory>
    ensures drained { IfOk result (IsDrained core.old core.new events.old.events events.new.events) }
    ensures cut_short { OnErr result (IsCutShort core.old core.new events.old.events events.new.events) }
    ensures plan { core.new.plan ≡ core.old.plan }
    ensures inputs { inputs_of core.new ≡ inputs_of core.old }
    ensures whole { core.new.whole ≡ core.old.whole }
    ensures gone { gone_by core.new ≡ gone_by core.old }
    ensures core { IsCore core.new }
    ensures emitted { EmitsAFront core.new }
    ensures merged { MergesInOrder core.new }
    ensures owed { HoldsWhatIsOwed core.new }
{
    core.known();
    if core.egress().done() {
        return Ok(Drained::Whole);
    }
    if let Some((stage, part)) = first_lost(core) {
        return Ok(Drained::Lost { stage, part });
    }
    drain_all(core, events)?;
    Ok(Drained::Whole)
}
