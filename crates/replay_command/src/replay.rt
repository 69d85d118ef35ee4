// The command `replay`.
ghost use Rattle.std.specs.Prelude.{◌≡◌, ◌≢◌, true, IfErr, IfOk, OnOk, option_map};
ghost use Rattle.command_course.specs.Course.{Came, Writes};
ghost use Rattle.command_course.specs.Feeds.{feed_of};
ghost use Rattle.command_course.specs.Steps.{IsRefusedBy, OnlyReads, StopsOf};
ghost use Rattle.command_course.specs.Lines.{line_of};
ghost use Rattle.text_words.specs.Messages.{at_line};
ghost use Rattle.replay_command.specs.Replaying.{error_text};
ghost use Rattle.flux_core.specs.CoreView.{emitted_by, flow_in, inputs_of};
ghost use Rattle.flux_core.specs.Follows.{AreNamed};
ghost use Rattle.flux_core.specs.Stands.{StandsFor};
ghost use Rattle.pair_machine.specs.Machine.{State, opening};
ghost use Rattle.trade_text.specs.TradesView.{inputs_in};
ghost use Rattle.replay_command.specs.Courses.{replay_course, replays, replays_file};
ghost use Rattle.replay_command.specs.Ends.{StopsIn};
ghost use Rattle.state_text.specs.StateText.{state_text};

use crate::event_line::refused_event;
use crate::events_file::{Events, EventsFile};
use command_course::{Feed, Stop, feed_at, input_at};
use flux_core::{ApplyError, Core, Stopped};
use flux_outside::Files;
use state_text::write_state;
use std::alloc::Global;
use trade_text::Trades;

/// The text that `replay` writes: that of the state which the events of a file reach from the opening of a plan.
#[tactic(auto, using(crate::proofs::Ways::reads_on, crate::proofs::Ways::reads_passed))]
pub fn replay_text<F: Files>(
    alloc: Global,
    files: &mut F,
    plan: &str,
    trades: &str,
    events: &str,
    cash: Option<&str>,
) -> Result<Vec<u8>, Stop>
    ensures comes { IfOk result (λ bytes. Came (F.told files.old) (F.told files.new) (replay_course plan.now trades.now events.now (option_map (λ name. name.now) cash.entry)) (Writes bytes.items)) }
    ensures stops { IfErr result (λ stop. StopsOf (F.told files.old) (F.told files.new) (replay_course plan.now trades.now events.now (option_map (λ name. name.now) cash.entry)) stop) }
    ensures reads { OnlyReads (F.told files.old) (F.told files.new) result }
{
    let feed = feed_at(alloc, files, plan, trades, cash)?;
    fed_text(alloc, files, &feed, events)
}

// The same, once all inputs but the events were read.
#[tactic(auto, using(crate::proofs::Ways::reads_in, crate::proofs::Ways::reads_passed))]
fn fed_text<F: Files>(
    alloc: Global,
    files: &mut F,
    feed: &Feed,
    events: &str,
) -> Result<Vec<u8>, Stop>
    ensures comes { IfOk result (λ bytes. Came (F.told files.old) (F.told files.new) (replays_file events.now (feed_of feed.now)) (Writes bytes.items)) }
    ensures stops { IfErr result (λ stop. StopsOf (F.told files.old) (F.told files.new) (replays_file events.now (feed_of feed.now)) stop) }
    ensures reads { OnlyReads (F.told files.old) (F.told files.new) result }
{
    let file = EventsFile { plan: &feed.plan };
    let lines = input_at(alloc, files, events, &file)?;
    replayed(alloc, feed, events, &lines)
}

// The text of the state that events reach from the opening, or the refusal of the first one that is no step.
fn replayed(alloc: Global, feed: &Feed, name: &str, events: &Events) -> Result<Vec<u8>, Stop>
    requires { AreNamed feed.now.plan events.now }
    ensures text { IfOk result (λ bytes. replays name.now (feed_of feed.now) events.now ≡ Writes bytes.items) }
    ensures refused { IfErr result (StopsIn (replays name.now (feed_of feed.now) events.now)) }
{
    let mut core = Core::new(alloc, &feed.plan, &feed.trades)?;
    applied(alloc, feed, name, events, &mut core)
}

// The same, of a core that opens with the plan and the trades.
fn applied(
    alloc: Global,
    feed: &Feed,
    name: &str,
    events: &Events,
    core: &mut Core,
) -> Result<Vec<u8>, Stop>
    requires named { AreNamed core.old.plan events.now }
    requires opens { StandsFor core.old opening }
    requires plan { core.old.plan ≡ feed.now.plan }
    requires inputs { inputs_of core.old ≡ inputs_in feed.now.trades }
    requires whole { core.old.whole ≡ true }
    ensures text { IfOk result (λ bytes. replays name.now (feed_of feed.now) events.now ≡ Writes bytes.items) }
    ensures refused { IfErr result (StopsIn (replays name.now (feed_of feed.now) events.now)) }
{
    let lines = events.lines();
    match core.follow(lines) {
        Ok(()) => written(alloc, core, &feed.trades),
        Err(stopped) => refusal(alloc, name, stopped),
    }
}

// No text, but the refusal of the event at which a core stopped.
fn refusal(alloc: Global, name: &str, stopped: Stopped) -> Result<Vec<u8>, Stop>
    ensures none { OnOk result ⊥ }
    ensures refused { IfErr result (λ stop. IsRefusedBy stop (line_of name.now (at_line stopped.line (error_text stopped.error))) (stopped.error ≢ ApplyError.OutOfMemory)) }
{
    Err(refused_event(alloc, name, stopped))
}

// The text of the state that a core stands for, where want of memory is why the command stops.
fn written(alloc: Global, core: &Core, trades: &Trades) -> Result<Vec<u8>, Stop>
    ensures text { IfOk result (λ text. (s : State) → StandsFor core.now s
        → text.items ≡ state_text (flow_in core.now) s trades.now.symbols (emitted_by core.now)) }
    ensures want { IfErr result (λ stop. stop ≡ Stop.OutOfMemory) }
{
    let text = write_state(core, alloc, trades)?;
    Ok(text)
}
