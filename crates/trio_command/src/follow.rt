// A list of events, applied one after another.
ghost use Rattle.std.specs.Prelude.{◌≡◌, All, IfErr, OnOk};
ghost use Rattle.trio_command.specs.Follows.{IsFollowed, IsStopped};
ghost use Rattle.trio_core.specs.CoreView.{inputs_of};
ghost use Rattle.trio_text.specs.Text.{IsNamed};

use trio_core::{TrioCore, TrioError};
use trio_text::TrioLined;

/// Where a list of events stopped: at an event that is no step, with its line.
#[derive(Clone, Copy, Debug, PartialEq, Eq)]
pub struct Stopped {
    /// The line of the event.
    pub line: u64,
    /// Why it is no step.
    pub error: TrioError,
}

// Applies events of the plan one after another, up to the first one that is no step: those before it stay applied.
pub(crate) fn follow(core: &mut TrioCore, events: &[TrioLined]) -> Result<(), Stopped>
    requires named { All (λ x. IsNamed core.old.plan x.event) events.now }
    ensures followed { OnOk result (IsFollowed core.old core.new events.now) }
    ensures stopped { IfErr result (IsStopped core.old events.now) }
    ensures plan { core.new.plan ≡ core.old.plan }
    ensures inputs { inputs_of core.new ≡ inputs_of core.old }
{
    core.known();
    for lined in events {
        if let Err(error) = core.apply(lined.event) {
            return Err(Stopped {
                line: lined.line,
                error,
            });
        }
    }
    Ok(())
}
