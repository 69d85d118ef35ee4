// What a plan is fed with: the inputs with which all commands over a plan begin.
ghost use Rattle.std.specs.Prelude.{◌≡◌, ◌↔◌, ◌≤◌, ◌+◌, ◌-◌, [], ℕ, IfErr, IfOk, Some, false, length, option_map, true};
ghost use Rattle.command_course.specs.Feeds.{IsFed, fed, feed_of, for_plan, with_feed, with_movements, with_plan, with_trades};
ghost use Rattle.command_course.specs.Steps.{GivesBy, HasReadCause, OnlyReads, StopsBy};
ghost use Rattle.flux_outside.specs.Told.{FilesTold};
ghost use Rattle.trade_text.specs.Inputs.{inputs_of};
ghost use Rattle.trade_text.specs.Limits.{max_inputs};
ghost use Rattle.trade_text.specs.TradesView.{inputs_in};

use crate::input_files::{CashFile, PlanFile, TradesFile};
use crate::inputs::{input_at, refused};
use crate::stop::Stop;
use flux_outside::Files;
use plan_reader::Plan;
use std::alloc::Global;
use trade_text::{Cash, MAX_INPUTS, Trades};
use tuple_edge::OutOfMemory;

/// A plan and what it is fed with: trades and, for a plan of version 2, the cash movements that were merged with them.
#[derive(Drop)]
pub struct Feed {
    pub plan: Plan,
    pub trades: Trades,
}

/// Reads the plan, the trades and, where a file of them is named, the cash movements.
#[tactic(auto, using(crate::proofs::Courses::reads_on, crate::proofs::Courses::reads_passed, crate::proofs::Courses::reads_then, crate::proofs::Courses::reads_judged, crate::proofs::Courses::reads_none))]
pub fn feed_at<F: Files>(
    alloc: Global,
    files: &mut F,
    plan: &str,
    trades: &str,
    cash: Option<&str>,
) -> Result<Feed, Stop>
    ensures gives { IfOk result (λ feed. GivesBy (F.told files.old) (F.told files.new) (with_feed plan.now trades.now (option_map (λ name. name.now) cash.entry)) (feed_of feed)) }
    ensures fed { IfOk result IsFed }
    ensures stops { IfErr result (λ stop. StopsBy (F.told files.old) (F.told files.new) (with_feed plan.now trades.now (option_map (λ name. name.now) cash.entry)) stop) }
    ensures reads { OnlyReads (F.told files.old) (F.told files.new) result }
{
    let plan = plan_at(alloc, files, plan, cash)?;
    feed_for(alloc, files, plan, trades, cash)
}

// The trades and the movements, once the plan was accepted.
#[tactic(auto, using(crate::proofs::Courses::reads_on, crate::proofs::Courses::reads_passed, crate::proofs::Courses::reads_then, crate::proofs::Courses::reads_judged, crate::proofs::Courses::reads_none))]
fn feed_for<F: Files>(
    alloc: Global,
    files: &mut F,
    plan: Plan,
    trades: &str,
    cash: Option<&str>,
) -> Result<Feed, Stop>
    ensures gives { IfOk result (λ feed. GivesBy (F.told files.old) (F.told files.new) (with_trades trades.now (option_map (λ name. name.now) cash.entry) plan) (feed_of feed)) }
    ensures fed { IfOk result IsFed }
    ensures stops { IfErr result (λ stop. StopsBy (F.told files.old) (F.told files.new) (with_trades trades.now (option_map (λ name. name.now) cash.entry) plan) stop) }
    ensures reads { OnlyReads (F.told files.old) (F.told files.new) result }
{
    let trades = input_at(alloc, files, trades, &TradesFile)?;
    movements_at(alloc, files, plan, trades, cash)
}

/// Reads a plan, which may be given cash movements only where it is of version 2.
#[tactic(auto, using(crate::proofs::Courses::reads_on, crate::proofs::Courses::reads_passed, crate::proofs::Courses::reads_then, crate::proofs::Courses::reads_judged, crate::proofs::Courses::reads_none))]
pub fn plan_at<F: Files>(
    alloc: Global,
    files: &mut F,
    plan: &str,
    cash: Option<&str>,
) -> Result<Plan, Stop>
    ensures gives { IfOk result (λ it. GivesBy (F.told files.old) (F.told files.new) (with_plan plan.now (option_map (λ name. name.now) cash.entry)) it) }
    ensures stops { IfErr result (λ stop. StopsBy (F.told files.old) (F.told files.new) (with_plan plan.now (option_map (λ name. name.now) cash.entry)) stop) }
    ensures reads { OnlyReads (F.told files.old) (F.told files.new) result }
{
    let plan = input_at(alloc, files, plan, &PlanFile)?;
    with_source(alloc, plan, cash)
}

// A plan, where it has the source of the movements that are given.
fn with_source(alloc: Global, plan: Plan, cash: Option<&str>) -> Result<Plan, Stop>
    ensures gives { IfOk result (λ it. (told : FilesTold) → GivesBy told told (for_plan (option_map (λ name. name.now) cash.entry) plan) it) }
    ensures stops { IfErr result (λ stop. (told : FilesTold) → StopsBy told told (for_plan (option_map (λ name. name.now) cash.entry) plan) stop) }
    ensures cause { IfErr result (λ stop. (faults : ℕ) → HasReadCause faults faults stop) }
{
    match cash {
        None => Ok(plan),
        Some(name) => {
            if plan.version() == 1 {
                return Err(refused(alloc, name, "not in the plan"));
            }
            Ok(plan)
        }
    }
}

/// Reads the cash movements where a file of them is named, once plan and trades are there.
#[tactic(auto, using(crate::proofs::Courses::reads_on, crate::proofs::Courses::reads_passed, crate::proofs::Courses::reads_then, crate::proofs::Courses::reads_judged, crate::proofs::Courses::reads_none))]
pub fn movements_at<F: Files>(
    alloc: Global,
    files: &mut F,
    plan: Plan,
    trades: Trades,
    cash: Option<&str>,
) -> Result<Feed, Stop>
    requires { trades.merged ≡ false }
    ensures gives { IfOk result (λ feed. GivesBy (F.told files.old) (F.told files.new) (with_movements (option_map (λ name. name.now) cash.entry) plan trades) (feed_of feed)) }
    ensures fed { IfOk result IsFed }
    ensures stops { IfErr result (λ stop. StopsBy (F.told files.old) (F.told files.new) (with_movements (option_map (λ name. name.now) cash.entry) plan trades) stop) }
    ensures reads { OnlyReads (F.told files.old) (F.told files.new) result }
{
    match cash {
        None => without_movements(alloc, plan, trades),
        Some(name) => movements_of(alloc, files, plan, trades, name),
    }
}

// The movements of a file.
#[tactic(auto, using(crate::proofs::Courses::reads_on, crate::proofs::Courses::reads_passed, crate::proofs::Courses::reads_then, crate::proofs::Courses::reads_judged, crate::proofs::Courses::reads_none))]
fn movements_of<F: Files>(
    alloc: Global,
    files: &mut F,
    plan: Plan,
    trades: Trades,
    name: &str,
) -> Result<Feed, Stop>
    requires { trades.merged ≡ false }
    ensures gives { IfOk result (λ feed. GivesBy (F.told files.old) (F.told files.new) (with_movements (Some name.now) plan trades) (feed_of feed)) }
    ensures fed { IfOk result IsFed }
    ensures stops { IfErr result (λ stop. StopsBy (F.told files.old) (F.told files.new) (with_movements (Some name.now) plan trades) stop) }
    ensures reads { OnlyReads (F.told files.old) (F.told files.new) result }
{
    let room = room_beside(&trades);
    let movements = input_at(alloc, files, name, &CashFile { room })?;
    merged(plan, trades, &movements)
}

// For how many movements trades leave room.
fn room_beside(trades: &Trades) -> u32
    ensures room { result ≡ max_inputs - length trades.now.rows }
    ensures few { length trades.now.rows ≤ max_inputs }
{
    (MAX_INPUTS - trades.rows().len()) as u32
}

// No movements.
fn without_movements(alloc: Global, plan: Plan, trades: Trades) -> Result<Feed, Stop>
    requires { trades.merged ≡ false }
    ensures feed { IfOk result (λ feed. feed_of feed ≡ fed plan trades []) }
    ensures fed { IfOk result IsFed }
    ensures want { IfErr result (λ stop. stop ≡ Stop.OutOfMemory) }
{
    let none = Cash::empty(alloc);
    merged(plan, trades, &none)
}

// A plan with the trades and the movements that it takes, where want of memory is why the command stops.
fn merged(plan: Plan, trades: Trades, movements: &Cash) -> Result<Feed, Stop>
    requires unmerged { trades.merged ≡ false }
    requires few { length trades.rows + length movements.now ≤ max_inputs }
    ensures feed { IfOk result (λ feed. feed_of feed ≡ fed plan trades movements.now) }
    ensures fed { IfOk result IsFed }
    ensures want { IfErr result (λ stop. stop ≡ Stop.OutOfMemory) }
{
    let trades = taken(&plan, trades, movements)?;
    Ok(Feed { plan, trades })
}

// The trades with the movements that a plan takes: one of version 1 takes none.
#[tactic(auto, using(crate::proofs::MergedInputs::unmerged_inputs))]
fn taken(plan: &Plan, mut trades: Trades, movements: &Cash) -> Result<Trades, OutOfMemory>
    requires unmerged { trades.merged ≡ false }
    requires few { length trades.rows + length movements.now ≤ max_inputs }
    ensures inputs { IfOk result (λ all. inputs_in all ≡ inputs_of plan.now.version trades.rows movements.now) }
    ensures symbols { IfOk result (λ all. all.symbols ≡ trades.symbols) }
    ensures merged { IfOk result (λ all. (all.merged ≡ true) ↔ (plan.now.version ≡ 2)) }
{
    // Asked only for what its contract says beside: trades are within their limits. Nothing was merged yet.
    let merged = trades.merged();
    prove!(!merged);
    if plan.version() == 1 {
        return Ok(trades);
    }
    trades.merge_cash(movements)?;
    Ok(trades)
}
