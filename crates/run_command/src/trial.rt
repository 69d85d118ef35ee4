// The command `trial`: a run over made trades, with a summary in place of the rows.
ghost use Rattle.std.specs.Prelude.{◌≡◌, ◌≤◌, false, true, IfErr, IfOk, Ok};
ghost use Rattle.command_course.specs.Feeds.{with_movements};
ghost use Rattle.command_course.specs.Steps.{OnlyReads, StopsOf};
ghost use Rattle.command_line.specs.Forms.{max_count, max_start};
ghost use Rattle.command_line.specs.Views.{AreInRange, options_in};
ghost use Rattle.run_command.specs.Courses.{runs, trial_course, trial_with};
ghost use Rattle.run_command.specs.Endings.{CameToRun};
ghost use Rattle.trade_maker.specs.MadeText.{made_text};
ghost use Rattle.trade_text.specs.Trades.{trades_of};

use crate::outcome::Outcome;
use crate::run::fed_outcome;
use command_course::{Stop, movements_at, plan_at};
use command_line::RunOptions;
use drained_run::Gate;
use flux_outside::Files;
use plan_reader::Plan;
use std::alloc::Global;
use std::thread::Threads;
use trade_maker::make_trades;
use trade_text::{Trades, read_trades};
use tuple_edge::OutOfMemory;

/// What `trial` comes to: a plan is run by pairs on threads for made trades, under the failure script.
#[tactic(auto, using(crate::proofs::Ways::reads_on, crate::proofs::Ways::reads_passed))]
pub fn trial_outcome<'a, R: Threads + Sync, F: Files, G: Gate>(
    rt: &R,
    alloc: Global,
    files: &mut F,
    plan: &str,
    start: u32,
    count: u32,
    options: RunOptions<'a>,
    gate: &G,
) -> Result<Outcome<'a>, Stop>
    requires start { start ≤ max_start }
    requires count { count ≤ max_count }
    requires range { AreInRange options }
    ensures comes { IfOk result (λ outcome. CameToRun (F.told files.old) (F.told files.new) (trial_course plan.now start count (options_in options.entry)) outcome) }
    ensures stops { IfErr result (λ stop. StopsOf (F.told files.old) (F.told files.new) (trial_course plan.now start count (options_in options.entry)) stop) }
    ensures reads { OnlyReads (F.told files.old) (F.told files.new) result }
{
    let plan = plan_at(alloc, files, plan, options.cash)?;
    planned_outcome(rt, alloc, files, plan, start, count, options, gate)
}

// What it comes to, once the plan was read.
#[tactic(auto, using(crate::proofs::Ways::reads_none))]
fn planned_outcome<'a, R: Threads + Sync, F: Files, G: Gate>(
    rt: &R,
    alloc: Global,
    files: &mut F,
    plan: Plan,
    start: u32,
    count: u32,
    options: RunOptions<'a>,
    gate: &G,
) -> Result<Outcome<'a>, Stop>
    requires start { start ≤ max_start }
    requires count { count ≤ max_count }
    requires range { AreInRange options }
    ensures comes { IfOk result (λ outcome. CameToRun (F.told files.old) (F.told files.new) (trial_with start count (options_in options.entry) plan) outcome) }
    ensures stops { IfErr result (λ stop. StopsOf (F.told files.old) (F.told files.new) (trial_with start count (options_in options.entry) plan) stop) }
    ensures reads { OnlyReads (F.told files.old) (F.told files.new) result }
{
    let trades = made(alloc, start, count)?;
    made_outcome(rt, alloc, files, plan, trades, options, gate)
}

// The trades that are made from a number, as they are read. None of them is refused.
fn made(alloc: Global, start: u32, count: u32) -> Result<Trades, OutOfMemory>
    requires start { start ≤ max_start }
    requires count { count ≤ max_count }
    ensures value { IfOk result (λ trades. trades_of (made_text start count) ≡ Ok trades) }
    ensures unmerged { IfOk result (λ trades. trades.merged ≡ false) }
{
    let text = make_trades(alloc, start, count)?;
    match read_trades(alloc, &text) {
        Ok(trades) => Ok(trades),
        Err(_) => Err(OutOfMemory),
    }
}

// What it comes to, once the trades were made too.
#[tactic(auto, using(crate::proofs::Ways::reads_on, crate::proofs::Ways::reads_passed))]
fn made_outcome<'a, R: Threads + Sync, F: Files, G: Gate>(
    rt: &R,
    alloc: Global,
    files: &mut F,
    plan: Plan,
    trades: Trades,
    options: RunOptions<'a>,
    gate: &G,
) -> Result<Outcome<'a>, Stop>
    requires unmerged { trades.merged ≡ false }
    requires range { AreInRange options }
    ensures comes { IfOk result (λ outcome. CameToRun (F.told files.old) (F.told files.new) (with_movements (options_in options.entry).cash plan trades (runs (options_in options.entry) true)) outcome) }
    ensures stops { IfErr result (λ stop. StopsOf (F.told files.old) (F.told files.new) (with_movements (options_in options.entry).cash plan trades (runs (options_in options.entry) true)) stop) }
    ensures reads { OnlyReads (F.told files.old) (F.told files.new) result }
{
    let feed = movements_at(alloc, files, plan, trades, options.cash)?;
    fed_outcome(rt, alloc, files, &feed, options, true, gate)
}
