// The drain.
ghost use Rattle.std.specs.Prelude.{◌≡◌, IfOk, OnErr};
ghost use Rattle.trio_core.specs.CoreView.{flow_in, inputs_of};
ghost use Rattle.trio_core.specs.Promises.{EmitsAFront, HoldsWhatIsOwed, emitted_by};
ghost use Rattle.trio_core.specs.Stands.{IsCore, StandsFor};
ghost use Rattle.trio_drain.specs.Drained.{IsCutShort, IsDrained};
ghost use Rattle.trio_drain.specs.Ending.{ending, rows_at_end};
ghost use Rattle.trio_machine.specs.Machine.{State};

use crate::serving::first_lost;
use crate::turn::drain_all;
use trio_core::TrioCore;
use tuple_edge::{Drained, OutOfMemory};

/// Brings a core to its end by makes, pulls and merges alone, with no packet. Lost exactly where egress has more
/// to merge and no counted replica of a group runs: it names the first such group, stage by stage, and nothing is
/// done. Else Whole, and all of the plan's output is emitted; where it was already, nothing is done. Where memory
/// is wanting, the core stands after some of the drain's events, the first ones.
pub fn drain(core: &mut TrioCore) -> Result<Drained, OutOfMemory>
    ensures drained { IfOk result (IsDrained core.old core.new) }
    // How it ends, and which rows are emitted then, is what any state says that the core stood for.
    ensures ends { IfOk result (λ d. (s : State) → StandsFor core.old s → d ≡ ending (flow_in core.old) s) }
    ensures rows { IfOk result (λ d. (s : State) → StandsFor core.old s → emitted_by core.new ≡ rows_at_end core.old.plan (inputs_of core.old) s) }
    ensures cut_short { OnErr result (IsCutShort core.old core.new) }
    ensures plan { core.new.plan ≡ core.old.plan }
    ensures inputs { inputs_of core.new ≡ inputs_of core.old }
    ensures core { IsCore core.new }
    ensures emitted { EmitsAFront core.new }
    ensures owed { HoldsWhatIsOwed core.new }
{
    core.known();
    if core.egress().done() {
        return Ok(Drained::Whole);
    }
    if let Some((stage, part)) = first_lost(core) {
        return Ok(Drained::Lost { stage, part });
    }
    drain_all(core)?;
    Ok(Drained::Whole)
}
