// The kinds of input files: a plan, trades and cash movements.
ghost use Rattle.std.specs.Prelude.{◌≡◌, ◌≤◌, false, length};
ghost use Rattle.plan_reader.specs.Limits.{max_plan_bytes};
ghost use Rattle.trade_text.specs.Limits.{max_input_bytes};
ghost use Rattle.command_course.specs.Inputs.{cash_from, plan_from, trades_from};

use crate::inputs::{Input, refused};
use crate::stop::Stop;
use plan_reader::{MAX_PLAN_BYTES, Plan, PlanError, read_plan};
use std::alloc::Global;
use trade_text::{Cash, CashError, MAX_INPUT_BYTES, TradeError, Trades, read_cash, read_trades};

/// A file with a plan.
#[derive(Drop)]
pub struct PlanFile;

/// A file with trades.
#[derive(Drop)]
pub struct TradesFile;

/// A file with cash movements, of which so many have room.
#[derive(Drop)]
pub struct CashFile {
    pub room: u32,
}

impl Input for PlanFile {
    type Value = Plan;

    ghost most = { λ _. max_plan_bytes };

    ghost reading = { λ _. plan_from };

    ghost keeps = { λ _ _. Unit {0} };

    fn most(&self) -> u64 {
        MAX_PLAN_BYTES
    }

    #[tactic(auto, using(crate::proofs::Refusals::plan_refused))]
    fn value(&self, alloc: Global, name: &str, bytes: &[u8]) -> Result<Plan, Stop> {
        match read_plan(alloc, bytes) {
            Ok(plan) => Ok(plan),
            Err(PlanError::OutOfMemory) => Err(Stop::OutOfMemory),
            Err(error) => Err(refused(alloc, name, error)),
        }
    }

    #[tactic(auto, using(crate::proofs::Refusals::long_plan))]
    fn too_long(&self, alloc: Global, name: &str, seen: u64) -> Stop {
        refused(alloc, name, PlanError::TooLong { bytes: seen })
    }
}

impl Input for TradesFile {
    type Value = Trades;

    ghost most = { λ _. max_input_bytes };

    ghost reading = { λ _. trades_from };

    ghost keeps = { λ _ trades. trades.merged ≡ false };

    fn most(&self) -> u64 {
        MAX_INPUT_BYTES
    }

    #[tactic(auto, using(crate::proofs::Refusals::trades_refused))]
    fn value(&self, alloc: Global, name: &str, bytes: &[u8]) -> Result<Trades, Stop> {
        match read_trades(alloc, bytes) {
            Ok(trades) => Ok(trades),
            Err(TradeError::OutOfMemory) => Err(Stop::OutOfMemory),
            Err(error) => Err(refused(alloc, name, error)),
        }
    }

    #[tactic(auto, using(crate::proofs::Refusals::long_trades))]
    fn too_long(&self, alloc: Global, name: &str, seen: u64) -> Stop {
        refused(alloc, name, TradeError::TooLong { bytes: seen })
    }
}

impl Input for CashFile {
    type Value = Cash;

    ghost most = { λ _. max_input_bytes };

    ghost reading = { λ file. cash_from file.room };

    ghost keeps = { λ file movements. length movements ≤ file.room };

    fn most(&self) -> u64 {
        MAX_INPUT_BYTES
    }

    #[tactic(auto, using(crate::proofs::Refusals::cash_refused))]
    fn value(&self, alloc: Global, name: &str, bytes: &[u8]) -> Result<Cash, Stop> {
        match read_cash(alloc, bytes, self.room) {
            Ok(cash) => Ok(cash),
            Err(CashError::OutOfMemory) => Err(Stop::OutOfMemory),
            Err(error) => Err(refused(alloc, name, error)),
        }
    }

    #[tactic(auto, using(crate::proofs::Refusals::long_cash))]
    fn too_long(&self, alloc: Global, name: &str, seen: u64) -> Stop {
        refused(alloc, name, CashError::TooLong { bytes: seen })
    }
}
