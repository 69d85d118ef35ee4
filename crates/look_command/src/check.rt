// The command `check`.
ghost use Rattle.command_course.specs.Lines.{not_in_plan_line};
ghost use Rattle.command_course.specs.Steps.{GivesBy, OnlyReads, StopsBy};
ghost use Rattle.look_command.specs.Check.{check_way, checks_cash, checks_script, checks_trades, given_of, is_without_cash, judgement, room_beside, tries_cash, tries_script};
ghost use Rattle.command_course.specs.Answers.{answer_of};
ghost use Rattle.look_command.specs.Trying.{named_of, tried_of};
ghost use Rattle.std.specs.Prelude.{◌≡◌, ◌-◌, Err, IfErr, IfOk, Some, length, option_map};
ghost use Rattle.trade_text.specs.Limits.{max_inputs};

use crate::faults::{Said, judged};
use crate::kinds::{ToldCash, ToldPlan, ToldScript, ToldTrades};
use crate::trying::{tried_at, tried_if_named};
use command_course::{Answer, Stop, refused};
use failure_script::Script;
use flux_outside::Files;
use plan_reader::Plan;
use std::alloc::Global;
use trade_check::GivenTrades;
use trade_text::{Cash, MAX_INPUTS};

/// What `check` says of the files that are named, as text or as JSON: what the plan does and what is hardly meant; or their
/// faults, of trades and of movements the first one or, where it is asked for, all of them.
#[tactic(auto, using(crate::proofs::Ways::reads_on, crate::proofs::Ways::reads_passed))]
pub fn check_report<F: Files>(
    alloc: Global,
    files: &mut F,
    plan: &str,
    trades: Option<&str>,
    cash: Option<&str>,
    script: Option<&str>,
    all: bool,
    json: bool,
) -> Result<Answer, Stop>
    ensures gives { IfOk result (λ answer. GivesBy (F.told files.old) (F.told files.new) (check_way plan.now (option_map (λ n. n.now) trades.entry) (option_map (λ n. n.now) cash.entry) (option_map (λ n. n.now) script.entry) all json) (answer_of answer)) }
    ensures stops { IfErr result (λ stop. StopsBy (F.told files.old) (F.told files.new) (check_way plan.now (option_map (λ n. n.now) trades.entry) (option_map (λ n. n.now) cash.entry) (option_map (λ n. n.now) script.entry) all json) stop) }
    ensures reads { OnlyReads (F.told files.old) (F.told files.new) result }
{
    let plan = tried_at(alloc, files, plan, &ToldPlan)?;
    with_trades(alloc, files, plan, trades, cash, script, all, json)
}

// The same, once the plan was read.
#[tactic(auto, using(crate::proofs::Ways::reads_on, crate::proofs::Ways::reads_passed))]
fn with_trades<F: Files>(
    alloc: Global,
    files: &mut F,
    plan: Result<Plan, String>,
    trades: Option<&str>,
    cash: Option<&str>,
    script: Option<&str>,
    all: bool,
    json: bool,
) -> Result<Answer, Stop>
    ensures gives { IfOk result (λ answer. GivesBy (F.told files.old) (F.told files.new) (checks_trades (option_map (λ n. n.now) trades.entry) (option_map (λ n. n.now) cash.entry) (option_map (λ n. n.now) script.entry) all json (tried_of plan)) (answer_of answer)) }
    ensures stops { IfErr result (λ stop. StopsBy (F.told files.old) (F.told files.new) (checks_trades (option_map (λ n. n.now) trades.entry) (option_map (λ n. n.now) cash.entry) (option_map (λ n. n.now) script.entry) all json (tried_of plan)) stop) }
    ensures reads { OnlyReads (F.told files.old) (F.told files.new) result }
{
    let trades = tried_if_named(alloc, files, trades, &ToldTrades { all })?;
    with_cash(alloc, files, plan, trades, cash, script, all, json)
}

// The same, once plan and trades were read.
#[tactic(auto, using(crate::proofs::Ways::reads_on, crate::proofs::Ways::reads_passed))]
fn with_cash<F: Files>(
    alloc: Global,
    files: &mut F,
    plan: Result<Plan, String>,
    trades: Option<Result<GivenTrades, String>>,
    cash: Option<&str>,
    script: Option<&str>,
    all: bool,
    json: bool,
) -> Result<Answer, Stop>
    ensures gives { IfOk result (λ answer. GivesBy (F.told files.old) (F.told files.new) (checks_cash (option_map (λ n. n.now) cash.entry) (option_map (λ n. n.now) script.entry) all json (tried_of plan) (named_of trades)) (answer_of answer)) }
    ensures stops { IfErr result (λ stop. StopsBy (F.told files.old) (F.told files.new) (checks_cash (option_map (λ n. n.now) cash.entry) (option_map (λ n. n.now) script.entry) all json (tried_of plan) (named_of trades)) stop) }
    ensures reads { OnlyReads (F.told files.old) (F.told files.new) result }
{
    let room = room_beside(&trades);
    let cash = tried_cash(alloc, files, &plan, room, cash, all)?;
    with_script(alloc, files, plan, trades, cash, script, json)
}

// The same, once all but the script was read.
#[tactic(auto, using(crate::proofs::Ways::reads_passed, crate::proofs::Ways::reads_then))]
fn with_script<F: Files>(
    alloc: Global,
    files: &mut F,
    plan: Result<Plan, String>,
    trades: Option<Result<GivenTrades, String>>,
    cash: Option<Result<Cash, String>>,
    script: Option<&str>,
    json: bool,
) -> Result<Answer, Stop>
    ensures gives { IfOk result (λ answer. GivesBy (F.told files.old) (F.told files.new) (checks_script (option_map (λ n. n.now) script.entry) json (tried_of plan) (named_of trades) (named_of cash)) (answer_of answer)) }
    ensures stops { IfErr result (λ stop. StopsBy (F.told files.old) (F.told files.new) (checks_script (option_map (λ n. n.now) script.entry) json (tried_of plan) (named_of trades) (named_of cash)) stop) }
    ensures reads { OnlyReads (F.told files.old) (F.told files.new) result }
{
    let script = tried_script(alloc, files, &plan, script)?;
    all_judged(
        alloc,
        Said {
            plan,
            trades,
            cash,
            script,
        },
        json,
    )
}

// What is said of the files, where want of memory is why the command stops.
fn all_judged(alloc: Global, said: Said, json: bool) -> Result<Answer, Stop>
    ensures answer { IfOk result (λ answer. answer_of answer ≡ judgement json (given_of said)) }
    ensures want { IfErr result (λ stop. stop ≡ Stop.OutOfMemory) }
{
    let answer = judged(alloc, said, json)?;
    Ok(answer)
}

// For how many movements trades leave room.
fn room_beside(trades: &Option<Result<GivenTrades, String>>) -> u32
    ensures { result ≡ room_beside (named_of trades.now) }
{
    match trades {
        None => MAX_INPUTS as u32,
        Some(Err(_)) => MAX_INPUTS as u32,
        Some(Ok(trades)) => room_of(trades),
    }
}

// For how many movements these trades leave room.
fn room_of(given: &GivenTrades) -> u32
    ensures { result ≡ max_inputs - length given.now.trades.rows }
{
    (MAX_INPUTS - given.trades().rows().len()) as u32
}

// The movements, which a plan of version 1 doesn't have.
#[tactic(auto, using(crate::proofs::Ways::reads_none))]
fn tried_cash<F: Files>(
    alloc: Global,
    files: &mut F,
    plan: &Result<Plan, String>,
    room: u32,
    cash: Option<&str>,
    all: bool,
) -> Result<Option<Result<Cash, String>>, Stop>
    ensures gives { IfOk result (λ tried. GivesBy (F.told files.old) (F.told files.new) (tries_cash all (tried_of plan.now) room (option_map (λ n. n.now) cash.entry)) (named_of tried)) }
    ensures stops { IfErr result (λ stop. StopsBy (F.told files.old) (F.told files.new) (tries_cash all (tried_of plan.now) room (option_map (λ n. n.now) cash.entry)) stop) }
    ensures reads { OnlyReads (F.told files.old) (F.told files.new) result }
{
    match cash {
        None => Ok(None),
        Some(name) => tried_movements(alloc, files, plan, room, name, all),
    }
}

// The movements of a file.
#[tactic(auto, using(crate::proofs::Ways::reads_none))]
fn tried_movements<F: Files>(
    alloc: Global,
    files: &mut F,
    plan: &Result<Plan, String>,
    room: u32,
    name: &str,
    all: bool,
) -> Result<Option<Result<Cash, String>>, Stop>
    ensures gives { IfOk result (λ tried. GivesBy (F.told files.old) (F.told files.new) (tries_cash all (tried_of plan.now) room (Some name.now)) (named_of tried)) }
    ensures stops { IfErr result (λ stop. StopsBy (F.told files.old) (F.told files.new) (tries_cash all (tried_of plan.now) room (Some name.now)) stop) }
    ensures reads { OnlyReads (F.told files.old) (F.told files.new) result }
{
    if is_without_cash(plan) {
        return not_in_plan(alloc, name);
    }
    tried_if_named(alloc, files, Some(name), &ToldCash { room, all })
}

// Whether a plan was read that has no movements.
fn is_without_cash(plan: &Result<Plan, String>) -> bool
    ensures { result ≡ is_without_cash (tried_of plan.now) }
{
    match plan {
        Ok(plan) => plan.version() == 1,
        Err(_) => false,
    }
}

// The fault that movements are given to a plan that has none.
fn not_in_plan(alloc: Global, name: &str) -> Result<Option<Result<Cash, String>>, Stop>
    ensures fault { IfOk result (λ tried. named_of tried ≡ Some (Err (not_in_plan_line name.now))) }
    ensures want { IfErr result (λ stop. stop ≡ Stop.OutOfMemory) }
{
    match refused(alloc, name, "not in the plan") {
        Stop::Refused { line } => Ok(Some(Err(line))),
        _ => Err(Stop::OutOfMemory),
    }
}

// The script, which is one for a plan.
#[tactic(auto, using(crate::proofs::Ways::reads_none))]
fn tried_script<F: Files>(
    alloc: Global,
    files: &mut F,
    plan: &Result<Plan, String>,
    script: Option<&str>,
) -> Result<Option<Result<Script, String>>, Stop>
    ensures gives { IfOk result (λ tried. GivesBy (F.told files.old) (F.told files.new) (tries_script (tried_of plan.now) (option_map (λ n. n.now) script.entry)) (named_of tried)) }
    ensures stops { IfErr result (λ stop. StopsBy (F.told files.old) (F.told files.new) (tries_script (tried_of plan.now) (option_map (λ n. n.now) script.entry)) stop) }
    ensures reads { OnlyReads (F.told files.old) (F.told files.new) result }
{
    match plan {
        Ok(plan) => tried_if_named(alloc, files, script, &ToldScript { plan }),
        Err(_) => Ok(None),
    }
}
