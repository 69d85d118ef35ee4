// One event, watched; and events, one after another.
ghost use Rattle.flux_core.specs.CoreView.{inputs_of};
ghost use Rattle.flux_core.specs.Follows.{AreNamed};
ghost use Rattle.flux_core.specs.Stands.{IsCore, StandsFor};
ghost use Rattle.pair_machine.specs.Machine.{State};
ghost use Rattle.plan_reader.specs.Nodes.{names_event};
ghost use Rattle.run_watch.specs.Seen.{HasHalted, HasSeen, HasStopped};
ghost use Rattle.run_watch.specs.Stamps.{IsAt};
ghost use Rattle.run_watch.specs.TraceView.{view_of};
ghost use Rattle.std.specs.Prelude.{◌≡◌, ◌<◌, ◌+◌, ◌^◌, [], ◌∷◌, true, IfErr, IsTrue, OnOk, length};

use crate::looking::glimpse;
use crate::pairs::pair_loss;
use crate::trace::{At, Trace};
use crate::watching::WatchError;
use flux_core::{Core, Stopped};
use run_journal::Lined;

// Where a run is after the event of this place and line.
fn at(core: &Core, place: u64, line: u64) -> At
    ensures { (s : State) → StandsFor core.now s → IsAt core.now.plan (inputs_of core.now) result place line s }
{
    core.known();
    At {
        place,
        line,
        made: core.ingress().makes(),
        emitted: core.emitted().len() as u64,
    }
}

// Applies an event, and tells what happens at it.
fn see(core: &mut Core, trace: &mut Trace, lined: &Lined) -> Result<(), WatchError>
    requires named { IsTrue (names_event core.old.plan lined.now.event) }
    requires whole { core.old.whole ≡ true }
    requires room { trace.old.place + 1 < 2 ^ 64 }
    ensures seen { OnOk result (HasSeen core.old core.new (view_of trace.old) (view_of trace.new) (lined.now ∷ [])) }
    ensures halted { IfErr result (HasHalted core.old core.new lined.now) }
    ensures plan { core.new.plan ≡ core.old.plan }
    ensures inputs { inputs_of core.new ≡ inputs_of core.old }
    ensures whole { core.new.whole ≡ core.old.whole }
    ensures core { IsCore core.new }
{
    core.known();
    let node = lined.event.node();
    let before = glimpse(core, node)?;
    if let Err(error) = core.apply(lined.event) {
        return Err(WatchError::Stopped(Stopped {
            line: lined.line,
            error,
        }));
    }
    let after = glimpse(core, node)?;
    let loss = pair_loss(core, node, &before, &after);
    let at = at(core, trace.place() + 1, lined.line);
    trace.note(&at, &lined.event, node, &before, &after, loss)?;
    trace.pass(&lined.event)?;
    Ok(())
}

// Applies events one after another, up to the first one that is no step, and tells what happens at each.
pub(crate) fn walk(core: &mut Core, trace: &mut Trace, events: &[Lined]) -> Result<(), WatchError>
    requires named { AreNamed core.old.plan events.now }
    requires whole { core.old.whole ≡ true }
    requires room { trace.old.place + length events.now < 2 ^ 64 }
    ensures seen { OnOk result (HasSeen core.old core.new (view_of trace.old) (view_of trace.new) events.now) }
    ensures stopped { IfErr result (HasStopped core.old core.new events.now) }
    ensures plan { core.new.plan ≡ core.old.plan }
    ensures inputs { inputs_of core.new ≡ inputs_of core.old }
    ensures whole { core.new.whole ≡ core.old.whole }
    ensures core { IsCore core.new }
{
    core.known();
    for lined in events {
        see(core, trace, lined)?;
    }
    Ok(())
}
