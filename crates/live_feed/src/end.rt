// The end of a run, and what of its rows was given on.
ghost use mathlib.Core.List.{IsPrefix};
ghost use Rattle.live_feed.specs.Sides.{HasRun};
ghost use Rattle.pair_machine.specs.Output.{output};
ghost use Rattle.partition_runner.specs.Ran.{IsLegalLeft, emitted_in};
ghost use Rattle.std.specs.Prelude.{IfOk, List, MatchResult};
ghost use Rattle.trade_text.specs.TradesView.{inputs_in};
ghost use Rattle.tuple_edge.specs.declared.row.Row.{Row};

use drained_run::{Ended, finish_run};
use partition_runner::{Gate, Job, Left, Unwritten};
use std::alloc::Global;
use tuple_edge::OutOfMemory;

// Brings what the threads left to the end of the run, if they found memory.
pub(crate) fn end_of<G: Gate>(
    alloc: Global,
    job: &Job<'_, G>,
    left: Result<Left<Unwritten>, OutOfMemory>,
) -> Result<Ended<Unwritten>, OutOfMemory>
    requires { IfOk left (IsLegalLeft job.now.plan.now (inputs_in job.now.trades.now) job.now.script.now) }
    ensures { (given : List Row) → MatchResult left (λ left. IsPrefix given (emitted_in left.nodes.items)) (λ _. IsPrefix given (output job.now.plan.now (inputs_in job.now.trades.now))) → HasRun job.now.plan.now (inputs_in job.now.trades.now) job.now.script.now given result }
{
    match left {
        Ok(left) => finish_run(alloc, job, left),
        Err(OutOfMemory) => Err(OutOfMemory),
    }
}
