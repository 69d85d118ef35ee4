// The command `rehearse`.
ghost use Rattle.command_course.specs.Feeds.{IsFed, feed_of};
ghost use Rattle.command_course.specs.Steps.{OnlyReads, StopsOf};
ghost use Rattle.rehearse_command.specs.Courses.{rehearse_course, rehearses, run_under};
ghost use Rattle.command_course.specs.Answers.{answer_of};
ghost use Rattle.rehearse_command.specs.Rehearsals.{CameToRehearsal, IsRehearsed};
ghost use Rattle.partition_runner.specs.Job.{AreWorkers};
ghost use Rattle.std.specs.Prelude.{◌≡◌, IfErr, IfOk, option_map};

use crate::reporting::told_again;
use command_course::{Answer, Feed, Stop, feed_at};
use failure_script::Script;
use flux_outside::Files;
use listed_run::run_and_list;
use partition_runner::{Gate, Job};
use run_command::script_at;
use std::alloc::Global;
use std::thread::Threads;
use tuple_edge::OutOfMemory;

/// What `rehearse` comes to: a plan is run by pairs on threads for its inputs, under the failure script, and of its events
/// it is told what became of each order.
#[tactic(auto, using(crate::proofs::Ways::reads_on, crate::proofs::Ways::reads_passed))]
pub fn rehearse_report<R: Threads + Sync, F: Files, G: Gate>(
    rt: &R,
    alloc: Global,
    files: &mut F,
    plan: &str,
    trades: &str,
    script: &str,
    cash: Option<&str>,
    threads: u32,
    turns: u64,
    svg: Option<&str>,
    gate: &G,
) -> Result<Answer, Stop>
    requires { AreWorkers threads }
    ensures comes { IfOk result (λ answer. CameToRehearsal (F.told files.old) (F.told files.new) (rehearse_course plan.now trades.now script.now (option_map (λ n. n.now) cash.entry)) (option_map (λ n. n.now) svg.entry) (answer_of answer)) }
    ensures stops { IfErr result (λ stop. StopsOf (F.told files.old) (F.told files.new) (rehearse_course plan.now trades.now script.now (option_map (λ n. n.now) cash.entry)) stop) }
    ensures reads { OnlyReads (F.told files.old) (F.told files.new) result }
{
    let feed = feed_at(alloc, files, plan, trades, cash)?;
    fed_report(rt, alloc, files, &feed, script, threads, turns, svg, gate)
}

// The same, once plan, trades and movements were read.
#[tactic(auto, using(crate::proofs::Ways::reads_then, crate::proofs::Ways::reads_passed))]
fn fed_report<R: Threads + Sync, F: Files, G: Gate>(
    rt: &R,
    alloc: Global,
    files: &mut F,
    feed: &Feed,
    script: &str,
    threads: u32,
    turns: u64,
    svg: Option<&str>,
    gate: &G,
) -> Result<Answer, Stop>
    requires fed { IsFed feed.now }
    requires workers { AreWorkers threads }
    ensures comes { IfOk result (λ answer. CameToRehearsal (F.told files.old) (F.told files.new) (rehearses script.now (feed_of feed.now)) (option_map (λ n. n.now) svg.entry) (answer_of answer)) }
    ensures stops { IfErr result (λ stop. StopsOf (F.told files.old) (F.told files.new) (rehearses script.now (feed_of feed.now)) stop) }
    ensures reads { OnlyReads (F.told files.old) (F.told files.new) result }
{
    let script = script_at(alloc, files, &feed.plan, Some(script))?;
    scripted_report(rt, alloc, feed, &script, threads, turns, svg, gate)
}

// The same, once all inputs were read, where want of memory is why the command stops.
fn scripted_report<R: Threads + Sync, G: Gate>(
    rt: &R,
    alloc: Global,
    feed: &Feed,
    script: &Script,
    threads: u32,
    turns: u64,
    svg: Option<&str>,
    gate: &G,
) -> Result<Answer, Stop>
    requires fed { IsFed feed.now }
    requires workers { AreWorkers threads }
    ensures rehearsed { IfOk result (λ answer. IsRehearsed (run_under (feed_of feed.now) script.now) (option_map (λ n. n.now) svg.entry) (answer_of answer)) }
    ensures want { IfErr result (λ stop. stop ≡ Stop.OutOfMemory) }
{
    let answer = rehearsed(rt, alloc, feed, script, threads, turns, svg, gate)?;
    Ok(answer)
}

// Runs the plan, and tells of its events.
fn rehearsed<R: Threads + Sync, G: Gate>(
    rt: &R,
    alloc: Global,
    feed: &Feed,
    script: &Script,
    threads: u32,
    turns: u64,
    svg: Option<&str>,
    gate: &G,
) -> Result<Answer, OutOfMemory>
    requires fed { IsFed feed.now }
    requires workers { AreWorkers threads }
    ensures { IfOk result (λ answer. IsRehearsed (run_under (feed_of feed.now) script.now) (option_map (λ n. n.now) svg.entry) (answer_of answer)) }
{
    let job = Job {
        plan: &feed.plan,
        trades: &feed.trades,
        script,
        threads,
        turns,
        gate,
    };
    let listed = run_and_list(rt, alloc, &job)?;
    told_again(alloc, feed, script, &listed, svg)
}
