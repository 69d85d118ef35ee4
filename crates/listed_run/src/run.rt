// A run, and its events as one list.
ghost use Rattle.listed_run.specs.Listed.{IsListed, first_line};
ghost use Rattle.partition_runner.specs.Job.{AreWorkers};
ghost use Rattle.partition_runner.specs.Ran.{IsLegalRun};
ghost use Rattle.run_journal.specs.Text.{lined_from};
ghost use Rattle.std.specs.Prelude.{◌≡◌, IfOk};
ghost use Rattle.trade_text.specs.TradesView.{inputs_in};

use core_drain::drain;
use event_log::EventBlocks;
use flux_core::Core;
use partition_runner::{Gate, Job, Ran, run_nodes};
use run_journal::{Lined, merge};
use std::alloc::Global;
use std::thread::Threads;
use tuple_edge::{Drained, Event, OutOfMemory, Row};

/// The line of the first event in a journal: before it stands the line that says what the text is.
const FIRST_LINE: u64 = 2;

/// A run that has ended, with its events as one list.
#[derive(Drop)]
pub struct Listed {
    /// The events in order, each with the line that it has in the run's journal.
    pub lines: Vec<Lined>,
    /// The rows that were emitted, in order.
    pub rows: Vec<Row>,
    /// How it ended: whole, or with the first lost pair.
    pub drained: Drained,
}

// Events with the lines that they have in a journal.
fn lined(alloc: Global, events: &[Event]) -> Result<Vec<Lined>, OutOfMemory>
    ensures { IfOk result (λ lines. lines.items ≡ lined_from first_line events.now) }
{
    let mut lines = Vec::with_capacity(alloc, events.len())?;
    let mut line = FIRST_LINE;
    for event in events {
        lines.push(Lined {
            line,
            event: *event,
        })?;
        line += 1;
    }
    Ok(lines)
}

// Brings what the threads left to the end of the run, and makes one list of all events.
fn finish<G: Gate>(alloc: Global, job: &Job<'_, G>, ran: Ran) -> Result<Listed, OutOfMemory>
    requires { IsLegalRun job.now.plan.now (inputs_in job.now.trades.now) job.now.script.now ran }
    ensures { IfOk result (IsListed job.now.plan.now (inputs_in job.now.trades.now) job.now.script.now) }
{
    // This call's clause says that a plan is within the limits.
    let _stages = job.plan.stages();
    let Ran { nodes, histories } = ran;
    let mut events = merge(alloc, &histories)?;
    drop(histories);
    let mut core = Core::of(alloc, job.plan, nodes)?;
    let mut blocks = EventBlocks::new(alloc);
    let drained = drain(&mut core, &mut blocks)?;
    blocks.append_to(&mut events)?;
    let rows = Vec::from_slice(alloc, core.emitted())?;
    let lines = lined(alloc, &events)?;
    Ok(Listed {
        lines,
        rows,
        drained,
    })
}

/// Runs a plan over its trades under a failure script, as `run_and_drain` of `drained_run` does: its nodes by so many
/// workers, each for so many turns or until egress is done, and then the drain on the caller. Of what happened it gives
/// one list.
pub fn run_and_list<R: Threads + Sync, G: Gate>(
    rt: &R,
    alloc: Global,
    job: &Job<'_, G>,
) -> Result<Listed, OutOfMemory>
    requires { AreWorkers job.now.threads }
    ensures { IfOk result (IsListed job.now.plan.now (inputs_in job.now.trades.now) job.now.script.now) }
{
    let ran = run_nodes(
        rt,
        alloc,
        job.plan,
        job.trades,
        job.script,
        job.threads,
        job.turns,
        job.gate,
    )?;
    finish(alloc, job, ran)
}
