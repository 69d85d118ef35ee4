// The command `trio`: what it writes, of its inputs one after the other.
ghost use Rattle.command_course.specs.Course.{Came, Writes};
ghost use Rattle.command_course.specs.Feeds.{fed};
ghost use Rattle.command_course.specs.Steps.{HasReadCause, OnlyReads, StopsOf};
ghost use Rattle.std.specs.Prelude.{◌≡◌, [], ℕ, All, IfErr, IfOk, false};
ghost use Rattle.trade_text.specs.TradesView.{inputs_in};
ghost use Rattle.trio_command.specs.Courses.{goes_along, trio_course, trio_events, trio_plan, trio_trades};
ghost use Rattle.trio_command.specs.Ends.{StopsHere, WritesHere};
ghost use Rattle.trio_command.specs.Text.{trio_text};
ghost use Rattle.trio_core.specs.CoreView.{flow_in, inputs_of};
ghost use Rattle.trio_core.specs.Stands.{StandsFor};
ghost use Rattle.trio_machine.specs.Machine.{State, opening};
ghost use Rattle.trio_machine.specs.Sound.{IsSound};
ghost use Rattle.trio_text.specs.Text.{IsNamed};

use crate::event_line::refused_event;
use crate::events_file::{Events, EventsFile};
use crate::follow::follow;
use crate::text::drained_text;
use command_course::{PlanFile, Stop, TradesFile, input_at, refused};
use flux_outside::Files;
use plan_reader::Plan;
use std::alloc::Global;
use trade_text::Trades;
use trio_core::TrioCore;

/// The text that `trio` writes: the groups of the state which the events of a file reach from the opening of a plan,
/// how the drain from there ended, and the rows that were emitted then.
#[tactic(auto, using(crate::proofs::Ways::reads_on, crate::proofs::Ways::reads_passed))]
pub fn text_of_trio<F: Files>(
    alloc: Global,
    files: &mut F,
    plan: &str,
    trades: &str,
    events: &str,
) -> Result<Vec<u8>, Stop>
    ensures comes { IfOk result (λ bytes. Came (F.told files.old) (F.told files.new) (trio_course plan.now trades.now events.now) (Writes bytes.items)) }
    ensures stops { IfErr result (λ stop. StopsOf (F.told files.old) (F.told files.new) (trio_course plan.now trades.now events.now) stop) }
    ensures reads { OnlyReads (F.told files.old) (F.told files.new) result }
{
    let it = input_at(alloc, files, plan, &PlanFile)?;
    text_of_plan(alloc, files, plan, &it, trades, events)
}

// The text, once the plan was read: it is to have one source.
#[tactic(auto, using(crate::proofs::Ways::refused_here, crate::proofs::Ways::reads_refused))]
fn text_of_plan<F: Files>(
    alloc: Global,
    files: &mut F,
    name: &str,
    plan: &Plan,
    trades: &str,
    events: &str,
) -> Result<Vec<u8>, Stop>
    ensures comes { IfOk result (λ bytes. Came (F.told files.old) (F.told files.new) (trio_plan name.now trades.now events.now plan.now) (Writes bytes.items)) }
    ensures stops { IfErr result (λ stop. StopsOf (F.told files.old) (F.told files.new) (trio_plan name.now trades.now events.now plan.now) stop) }
    ensures reads { OnlyReads (F.told files.old) (F.told files.new) result }
{
    if plan.version() == 1 {
        text_of_trades(alloc, files, plan, trades, events)
    } else {
        Err(refused(alloc, name, "not for trio"))
    }
}

// The text, once the plan was accepted.
#[tactic(auto, using(crate::proofs::Ways::reads_on, crate::proofs::Ways::reads_passed))]
fn text_of_trades<F: Files>(
    alloc: Global,
    files: &mut F,
    plan: &Plan,
    trades: &str,
    events: &str,
) -> Result<Vec<u8>, Stop>
    requires { plan.now.version ≡ 1 }
    ensures comes { IfOk result (λ bytes. Came (F.told files.old) (F.told files.new) (trio_trades trades.now events.now plan.now) (Writes bytes.items)) }
    ensures stops { IfErr result (λ stop. StopsOf (F.told files.old) (F.told files.new) (trio_trades trades.now events.now plan.now) stop) }
    ensures reads { OnlyReads (F.told files.old) (F.told files.new) result }
{
    let trades = input_at(alloc, files, trades, &TradesFile)?;
    text_of_events(alloc, files, plan, &trades, events)
}

// The text, once the trades were read too.
#[tactic(auto, using(crate::proofs::Ways::reads_passed))]
fn text_of_events<F: Files>(
    alloc: Global,
    files: &mut F,
    plan: &Plan,
    trades: &Trades,
    events: &str,
) -> Result<Vec<u8>, Stop>
    requires version { plan.now.version ≡ 1 }
    requires unmerged { trades.now.merged ≡ false }
    ensures comes { IfOk result (λ bytes. Came (F.told files.old) (F.told files.new) (trio_events events.now plan.now trades.now) (Writes bytes.items)) }
    ensures stops { IfErr result (λ stop. StopsOf (F.told files.old) (F.told files.new) (trio_events events.now plan.now trades.now) stop) }
    ensures reads { OnlyReads (F.told files.old) (F.told files.new) result }
{
    let lines = input_at(alloc, files, events, &EventsFile { plan })?;
    text_along(alloc, plan, trades, events, &lines)
}

// The text of events from the opening on, or the refusal of the first one that is no step.
fn text_along(
    alloc: Global,
    plan: &Plan,
    trades: &Trades,
    name: &str,
    events: &Events,
) -> Result<Vec<u8>, Stop>
    requires version { plan.now.version ≡ 1 }
    requires unmerged { trades.now.merged ≡ false }
    requires named { All (λ x. IsNamed plan.now x.event) events.now }
    ensures comes { IfOk result (λ bytes. WritesHere (goes_along name.now (fed plan.now trades.now []) events.now) bytes.items) }
    ensures stops { IfErr result (StopsHere (goes_along name.now (fed plan.now trades.now []) events.now)) }
    ensures cause { IfErr result (λ stop. (faults : ℕ) → HasReadCause faults faults stop) }
{
    // Asked only for what its contract says: trades are within their limits.
    let _rows = trades.rows();
    let mut core = opened(alloc, plan, trades)?;
    text_from(alloc, &mut core, trades, name, events)
}

// The nodes of a plan as they open, where want of memory is why the command stops.
fn opened(alloc: Global, plan: &Plan, trades: &Trades) -> Result<TrioCore, Stop>
    requires version { plan.now.version ≡ 1 }
    requires unmerged { trades.now.merged ≡ false }
    ensures opens { IfOk result (λ core. StandsFor core opening) }
    ensures plan { IfOk result (λ core. core.plan ≡ plan.now) }
    ensures inputs { IfOk result (λ core. inputs_of core ≡ inputs_in trades.now) }
    ensures want { IfErr result (λ stop. stop ≡ Stop.OutOfMemory) }
{
    let core = TrioCore::new(alloc, plan, trades)?;
    Ok(core)
}

// The same, of a core that opens with a plan and trades.
fn text_from(
    alloc: Global,
    core: &mut TrioCore,
    trades: &Trades,
    name: &str,
    events: &Events,
) -> Result<Vec<u8>, Stop>
    requires named { All (λ x. IsNamed core.old.plan x.event) events.now }
    requires opens { StandsFor core.old opening }
    ensures comes { IfOk result (λ bytes. WritesHere (goes_along name.now (record { plan = core.old.plan; inputs = inputs_of core.old; symbols = trades.now.symbols }) events.now) bytes.items) }
    ensures stops { IfErr result (StopsHere (goes_along name.now (record { plan = core.old.plan; inputs = inputs_of core.old; symbols = trades.now.symbols }) events.now)) }
    ensures cause { IfErr result (λ stop. (faults : ℕ) → HasReadCause faults faults stop) }
{
    core.known();
    match follow(core, events.lines()) {
        Ok(()) => written(alloc, core, trades),
        Err(stopped) => Err(refused_event(alloc, name, stopped)),
    }
}

// The text of the state that a core stands for, where want of memory is why the command stops.
fn written(alloc: Global, core: &mut TrioCore, trades: &Trades) -> Result<Vec<u8>, Stop>
    ensures text { IfOk result (λ text. (s : State) → StandsFor core.old s → IsSound (flow_in core.old) s
        → text.items ≡ trio_text core.old.plan (inputs_of core.old) trades.now.symbols s) }
    ensures want { IfErr result (λ stop. stop ≡ Stop.OutOfMemory) }
{
    let text = drained_text(core, alloc, trades)?;
    Ok(text)
}
