// The kinds of files that `check` reads: those of `flux`, of whose faults it is told where they stand and what may stand
// there.
ghost use Rattle.command_course.specs.Inputs.{cash_from, plan_from};
ghost use Rattle.command_course.specs.Steps.{IsRefusedBy};
ghost use Rattle.failure_script.specs.Limits.{max_script_bytes};
ghost use Rattle.input_faults.specs.WordFaults.{plan_fault, script_fault};
ghost use Rattle.look_command.specs.Check.{movement_faults, trades_faults, trades_told};
ghost use Rattle.look_command.specs.Kinds.{IsTold, IsToldUnlessLong, told_from};
ghost use Rattle.plan_reader.specs.Limits.{max_plan_bytes};
ghost use Rattle.run_command.specs.Scripts.{script_from};
ghost use Rattle.std.specs.Prelude.{◌≡◌, ◌≤◌, ◌++◌, IfErr, IfOk, codes, false, length, nat_lt, option_map, string_bytes};
ghost use Rattle.trade_check.specs.Given.{given};
ghost use Rattle.trade_text.specs.Limits.{max_input_bytes};

use command_course::{CashFile, Input, PlanFile, Stop, TradesFile};
use failure_script::{MAX_SCRIPT_BYTES, Script};
use input_faults::{
    all_cash_faults, all_trades_faults, cash_fault, plan_fault, script_fault, trades_fault,
};
use plan_reader::{MAX_PLAN_BYTES, Plan};
use run_command::ScriptFile;
use std::alloc::Global;
use trade_check::GivenTrades;
use trade_text::{Cash, MAX_INPUT_BYTES, Trades};
use tuple_edge::OutOfMemory;

/// A file with a plan.
#[derive(Drop)]
pub(crate) struct ToldPlan;

/// A file with trades, of which each refused record is told, or the first one alone.
#[derive(Drop)]
pub(crate) struct ToldTrades {
    pub(crate) all: bool,
}

/// A file with cash movements, of which so many have room, told so too.
#[derive(Drop)]
pub(crate) struct ToldCash {
    pub(crate) room: u32,
    pub(crate) all: bool,
}

/// A file with a failure script for a plan.
#[derive(Drop)]
pub(crate) struct ToldScript<'a> {
    pub(crate) plan: &'a Plan,
}

// A line that ends.
fn refused_by(mut text: String) -> Stop
    ensures { IsRefusedBy result (string_bytes text ++ codes "\n") (Unit {0}) }
{
    match text.push('\n') {
        Ok(()) => Stop::Refused { line: text },
        Err(_) => Stop::OutOfMemory,
    }
}

// A refusal, with the line of the fault where that is told.
fn told_refusal(line: String, fault: Result<Option<String>, OutOfMemory>) -> Stop
    ensures { IsTold (Stop.Refused line) fault result }
{
    match fault {
        Ok(None) => Stop::Refused { line },
        Ok(Some(text)) => refused_by(text),
        Err(_) => Stop::OutOfMemory,
    }
}

// The same stop, with the line of the fault where that is told.
fn told_stop(stop: Stop, fault: Result<Option<String>, OutOfMemory>) -> Stop
    ensures { IsTold stop fault result }
{
    match stop {
        Stop::Refused { line } => told_refusal(line, fault),
        stop => stop,
    }
}

// The same, of bytes that are too many or not: of too many no place is told.
fn told(stop: Stop, is_long: bool, fault: Result<Option<String>, OutOfMemory>) -> Stop
    ensures { IsToldUnlessLong is_long stop fault result }
{
    if is_long {
        return stop;
    }
    told_stop(stop, fault)
}

// Whether bytes are more than so many.
fn is_long(bytes: &[u8], most: u64) -> bool
    ensures { result ≡ nat_lt most (length bytes.now) }
{
    bytes.len() as u64 > most
}

// What is said of trades that are refused: of each record that is, or of the first one alone.
fn trades_faults(
    alloc: Global,
    name: &str,
    bytes: &[u8],
    all: bool,
) -> Result<Option<String>, OutOfMemory>
    ensures { IfOk result (λ said. option_map string_bytes said ≡ trades_faults all name.now bytes.now) }
{
    if all {
        return all_trades_faults(alloc, name, bytes);
    }
    trades_fault(alloc, name, bytes)
}

// The same of movements, of which so many have room.
fn movement_faults(
    alloc: Global,
    name: &str,
    bytes: &[u8],
    room: u32,
    all: bool,
) -> Result<Option<String>, OutOfMemory>
    ensures { IfOk result (λ said. option_map string_bytes said ≡ movement_faults all room name.now bytes.now) }
{
    if all {
        return all_cash_faults(alloc, name, bytes, room);
    }
    cash_fault(alloc, name, bytes, room)
}

impl Input for ToldPlan {
    type Value = Plan;

    ghost most = { λ _. max_plan_bytes };

    ghost reading = { λ _. told_from max_plan_bytes plan_fault plan_from };

    ghost keeps = { λ _ _. Unit {0} };

    fn most(&self) -> u64 {
        MAX_PLAN_BYTES
    }

    fn value(&self, alloc: Global, name: &str, bytes: &[u8]) -> Result<Plan, Stop> {
        match PlanFile.value(alloc, name, bytes) {
            Ok(value) => Ok(value),
            Err(stop) => {
                let fault = plan_fault(alloc, name, bytes);
                Err(told(stop, is_long(bytes, MAX_PLAN_BYTES), fault))
            }
        }
    }

    fn too_long(&self, alloc: Global, name: &str, seen: u64) -> Stop {
        PlanFile.too_long(alloc, name, seen)
    }
}

// Trades with their file, where want of memory is why the command stops.
fn with_file(alloc: Global, name: &str, bytes: &[u8], trades: Trades) -> Result<GivenTrades, Stop>
    requires alone { trades.merged ≡ false }
    ensures given { IfOk result (λ it. it ≡ given name.now bytes.now trades) }
    ensures want { IfErr result (λ stop. stop ≡ Stop.OutOfMemory) }
{
    let it = GivenTrades::new(alloc, name, bytes, trades)?;
    Ok(it)
}

impl Input for ToldTrades {
    type Value = GivenTrades;

    ghost most = { λ _. max_input_bytes };

    ghost reading = { λ file. trades_told file.all };

    ghost keeps = { λ _ it. it.trades.merged ≡ false };

    fn most(&self) -> u64 {
        MAX_INPUT_BYTES
    }

    fn value(&self, alloc: Global, name: &str, bytes: &[u8]) -> Result<GivenTrades, Stop> {
        match TradesFile.value(alloc, name, bytes) {
            Ok(trades) => with_file(alloc, name, bytes, trades),
            Err(stop) => {
                let fault = trades_faults(alloc, name, bytes, self.all);
                Err(told(stop, is_long(bytes, MAX_INPUT_BYTES), fault))
            }
        }
    }

    fn too_long(&self, alloc: Global, name: &str, seen: u64) -> Stop {
        TradesFile.too_long(alloc, name, seen)
    }
}

impl Input for ToldCash {
    type Value = Cash;

    ghost most = { λ _. max_input_bytes };

    ghost reading = { λ file. told_from max_input_bytes (movement_faults file.all file.room) (cash_from file.room) };

    ghost keeps = { λ file movements. length movements ≤ file.room };

    fn most(&self) -> u64 {
        MAX_INPUT_BYTES
    }

    fn value(&self, alloc: Global, name: &str, bytes: &[u8]) -> Result<Cash, Stop> {
        match (CashFile { room: self.room }).value(alloc, name, bytes) {
            Ok(value) => Ok(value),
            Err(stop) => {
                let fault = movement_faults(alloc, name, bytes, self.room, self.all);
                Err(told(stop, is_long(bytes, MAX_INPUT_BYTES), fault))
            }
        }
    }

    fn too_long(&self, alloc: Global, name: &str, seen: u64) -> Stop {
        (CashFile { room: self.room }).too_long(alloc, name, seen)
    }
}

impl<'a> Input for ToldScript<'a> {
    type Value = Script;

    ghost most = { λ _. max_script_bytes };

    ghost reading = { λ file. told_from max_script_bytes (script_fault file.plan.now) (script_from file.plan.now) };

    ghost keeps = { λ _ _. Unit {0} };

    fn most(&self) -> u64 {
        MAX_SCRIPT_BYTES
    }

    fn value(&self, alloc: Global, name: &str, bytes: &[u8]) -> Result<Script, Stop> {
        match (ScriptFile { plan: self.plan }).value(alloc, name, bytes) {
            Ok(value) => Ok(value),
            Err(stop) => {
                let fault = script_fault(alloc, name, bytes, self.plan);
                Err(told(stop, is_long(bytes, MAX_SCRIPT_BYTES), fault))
            }
        }
    }

    fn too_long(&self, alloc: Global, name: &str, seen: u64) -> Stop {
        (ScriptFile { plan: self.plan }).too_long(alloc, name, seen)
    }
}
