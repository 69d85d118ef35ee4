// The command `run`.
ghost use Rattle.std.specs.Prelude.{◌≡◌, IfErr, IfOk};
ghost use Rattle.command_course.specs.Feeds.{IsFed, feed_of};
ghost use Rattle.command_course.specs.Steps.{OnlyReads, StopsOf};
ghost use Rattle.command_line.specs.Views.{AreInRange, options_in};
ghost use Rattle.run_command.specs.Courses.{run_course, run_of, runs};
ghost use Rattle.run_command.specs.Endings.{CameToRun, HasEnded, ending_of};

use crate::ending::run_end;
use crate::outcome::Outcome;
use crate::script_file::script_at;
use command_course::{Feed, Stop, feed_at};
use command_line::RunOptions;
use drained_run::Gate;
use failure_script::Script;
use flux_outside::Files;
use std::alloc::Global;
use std::thread::Threads;

/// What `run` comes to: a plan is run by pairs on threads for its inputs, under the failure script.
#[tactic(auto, using(crate::proofs::Ways::reads_on, crate::proofs::Ways::reads_passed))]
pub fn run_outcome<'a, R: Threads + Sync, F: Files, G: Gate>(
    rt: &R,
    alloc: Global,
    files: &mut F,
    plan: &str,
    trades: &str,
    options: RunOptions<'a>,
    gate: &G,
) -> Result<Outcome<'a>, Stop>
    requires { AreInRange options }
    ensures comes { IfOk result (λ outcome. CameToRun (F.told files.old) (F.told files.new) (run_course plan.now trades.now (options_in options.entry)) outcome) }
    ensures stops { IfErr result (λ stop. StopsOf (F.told files.old) (F.told files.new) (run_course plan.now trades.now (options_in options.entry)) stop) }
    ensures reads { OnlyReads (F.told files.old) (F.told files.new) result }
{
    let feed = feed_at(alloc, files, plan, trades, options.cash)?;
    fed_outcome(rt, alloc, files, &feed, options, false, gate)
}

/// What a run comes to, once all inputs but the script were read.
#[tactic(auto, using(crate::proofs::Ways::reads_then, crate::proofs::Ways::reads_passed))]
pub(crate) fn fed_outcome<'a, R: Threads + Sync, F: Files, G: Gate>(
    rt: &R,
    alloc: Global,
    files: &mut F,
    feed: &Feed,
    options: RunOptions<'a>,
    is_summary: bool,
    gate: &G,
) -> Result<Outcome<'a>, Stop>
    requires range { AreInRange options }
    requires fed { IsFed feed.now }
    ensures comes { IfOk result (λ outcome. CameToRun (F.told files.old) (F.told files.new) (runs (options_in options.entry) is_summary (feed_of feed.now)) outcome) }
    ensures stops { IfErr result (λ stop. StopsOf (F.told files.old) (F.told files.new) (runs (options_in options.entry) is_summary (feed_of feed.now)) stop) }
    ensures reads { OnlyReads (F.told files.old) (F.told files.new) result }
{
    let script = script_at(alloc, files, &feed.plan, options.script)?;
    ended(rt, alloc, feed, &script, options, is_summary, gate)
}

// The end of a run, where want of memory is why the command stops.
fn ended<'a, R: Threads + Sync, G: Gate>(
    rt: &R,
    alloc: Global,
    feed: &Feed,
    script: &Script,
    options: RunOptions<'a>,
    is_summary: bool,
    gate: &G,
) -> Result<Outcome<'a>, Stop>
    requires range { AreInRange options }
    requires fed { IsFed feed.now }
    ensures ended { IfOk result (λ outcome. HasEnded (run_of (options_in options.entry) is_summary (feed_of feed.now) script.now) outcome.drained (ending_of outcome)) }
    ensures want { IfErr result (λ stop. stop ≡ Stop.OutOfMemory) }
{
    let outcome = run_end(rt, alloc, feed, script, options, is_summary, gate)?;
    Ok(outcome)
}
