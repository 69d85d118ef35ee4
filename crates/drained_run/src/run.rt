// A run: the nodes on threads, and then the drain on the caller.
ghost use mathlib.Core.List.{IsPrefix};
ghost use Rattle.drained_run.specs.Ended.{IsEnded};
ghost use Rattle.pair_machine.specs.Output.{output};
ghost use Rattle.partition_runner.specs.Job.{AreWorkers};
ghost use Rattle.partition_runner.specs.Ran.{IsLegalKept, emitted_in};
ghost use Rattle.std.specs.Prelude.{IfOk};
ghost use Rattle.trade_text.specs.TradesView.{inputs_in};

use crate::ended::Ended;
use core_drain::drain;
use event_log::{EventBlocks, Keeps};
use flux_core::Core;
use partition_runner::{Gate, Job, Left, Unwritten, run_logged, run_unlogged};
use std::alloc::Global;
use std::thread::Threads;
use tuple_edge::OutOfMemory;

/// Brings what the threads left to the end of the run: what is left to be done is drained on the caller.
///
/// It ends as a run by `run_and_drain` does, with its events written where those of the threads are. Its rows begin with those that egress had emitted, which are a front of
/// the plan's output whatever comes.
pub fn finish_run<K: Keeps, G: Gate>(
    alloc: Global,
    job: &Job<'_, G>,
    left: Left<K>,
) -> Result<Ended<K>, OutOfMemory>
    requires { IsLegalKept K.kept job.now.plan.now (inputs_in job.now.trades.now) job.now.script.now left }
    ensures ended { IfOk result (IsEnded job.now.plan.now (inputs_in job.now.trades.now) job.now.script.now) }
    ensures goes_on { IfOk result (λ ended. IsPrefix (emitted_in left.nodes.items) ended.rows) }
    ensures front { IsPrefix (emitted_in left.nodes.items) (output job.now.plan.now (inputs_in job.now.trades.now)) }
{
    // This call's clause says that a plan is within the limits.
    let _stages = job.plan.stages();
    let Left { nodes, logs } = left;
    let mut core = Core::of(alloc, job.plan, nodes)?;
    let mut events = EventBlocks::new(alloc);
    let drained = drain(&mut core, &mut events)?;
    Ok(Ended {
        core,
        logs,
        drain: events,
        drained,
    })
}

/// Runs a plan over its trades under a failure script: its nodes by so many workers, each for so many turns or
/// until egress is done, and then the drain on the caller.
///
/// The rows are all of the plan's output, each once and in order; or the first lost pair is named, and they are a
/// front of it. Under a safe script no pair is ever lost. Either way the events are one legal list within the script
/// that leads to these rows, and in every state along it the buffers hold what takeover owes.
pub fn run_and_drain<R: Threads + Sync, G: Gate>(
    rt: &R,
    alloc: Global,
    job: &Job<'_, G>,
) -> Result<Ended, OutOfMemory>
    requires { AreWorkers job.now.threads }
    ensures { IfOk result (IsEnded job.now.plan.now (inputs_in job.now.trades.now) job.now.script.now) }
{
    let left = run_logged(rt, alloc, job)?;
    finish_run(alloc, job, left)
}

/// The same with events that are not written: proofs alone know them, and they take no memory. So such a run has no journal.
pub fn run_unlogged_and_drain<R: Threads + Sync, G: Gate>(
    rt: &R,
    alloc: Global,
    job: &Job<'_, G>,
) -> Result<Ended<Unwritten>, OutOfMemory>
    requires { AreWorkers job.now.threads }
    ensures { IfOk result (IsEnded job.now.plan.now (inputs_in job.now.trades.now) job.now.script.now) }
{
    let left = run_unlogged(rt, alloc, job)?;
    finish_run(alloc, job, left)
}
