// Files that are read and whose text is kept, as lines are told of them.
ghost use Rattle.std.specs.Prelude.{◌≡◌, ◌≤◌, IfOk, false, length};
ghost use Rattle.trade_text.specs.Limits.{max_input_bytes};
ghost use Rattle.why_command.specs.Kept.{kept_cash_from, kept_trades_from};

use command_course::{CashFile, Input, Stop, TradesFile};
use std::alloc::Global;
use std::marker::Model;
use trade_text::{Cash, MAX_INPUT_BYTES, Trades};
use tuple_edge::OutOfMemory;

/// Trades, with the bytes of their file.
#[derive(Drop)]
pub(crate) struct KeptTrades {
    pub(crate) trades: Trades,
    pub(crate) bytes: Vec<u8>,
}

impl Model for KeptTrades {
    ghost use Rattle.why_command.specs.Kept.{KeptTrades};

    ghost Value = { KeptTrades };

    ghost view = { λ k. record { trades = k.trades; bytes = k.bytes.items } };
}

/// Cash movements, with the bytes of their file.
#[derive(Drop)]
pub(crate) struct KeptCash {
    pub(crate) cash: Cash,
    pub(crate) bytes: Vec<u8>,
}

impl Model for KeptCash {
    ghost use Rattle.why_command.specs.Kept.{KeptCash};

    ghost Value = { KeptCash };

    ghost view = { λ k. record { rows = k.cash; bytes = k.bytes.items } };
}

// A copy of items.
pub(crate) fn copied<T: Copy>(alloc: Global, items: &[T]) -> Result<Vec<T>, OutOfMemory>
    ensures { IfOk result (λ copy. copy.items ≡ items.now) }
{
    let copy = Vec::from_slice(alloc, items)?;
    Ok(copy)
}

/// A file with trades.
#[derive(Drop)]
pub(crate) struct KeptTradesFile;

/// A file with cash movements, of which so many have room.
#[derive(Drop)]
pub(crate) struct KeptCashFile {
    pub(crate) room: u32,
}

impl Input for KeptTradesFile {
    type Value = KeptTrades;

    ghost most = { λ _. max_input_bytes };

    ghost reading = { λ _. kept_trades_from };

    ghost keeps = { λ _ kept. kept.trades.merged ≡ false };

    fn most(&self) -> u64 {
        MAX_INPUT_BYTES
    }

    #[tactic(auto, using(crate::proofs::Readings::stops_with, crate::proofs::Readings::read_is))]
    fn value(&self, alloc: Global, name: &str, bytes: &[u8]) -> Result<KeptTrades, Stop> {
        let trades = TradesFile.value(alloc, name, bytes)?;
        let bytes = copied(alloc, bytes)?;
        Ok(KeptTrades { trades, bytes })
    }

    #[tactic(auto, using(crate::proofs::Readings::stops_with))]
    fn too_long(&self, alloc: Global, name: &str, seen: u64) -> Stop {
        TradesFile.too_long(alloc, name, seen)
    }
}

impl Input for KeptCashFile {
    type Value = KeptCash;

    ghost most = { λ _. max_input_bytes };

    ghost reading = { λ file. kept_cash_from file.room };

    ghost keeps = { λ file kept. length kept.rows ≤ file.room };

    fn most(&self) -> u64 {
        MAX_INPUT_BYTES
    }

    #[tactic(auto, using(crate::proofs::Readings::stops_with, crate::proofs::Readings::read_is))]
    fn value(&self, alloc: Global, name: &str, bytes: &[u8]) -> Result<KeptCash, Stop> {
        let cash = (CashFile { room: self.room }).value(alloc, name, bytes)?;
        let bytes = copied(alloc, bytes)?;
        Ok(KeptCash { cash, bytes })
    }

    #[tactic(auto, using(crate::proofs::Readings::stops_with))]
    fn too_long(&self, alloc: Global, name: &str, seen: u64) -> Stop {
        CashFile { room: self.room }.too_long(alloc, name, seen)
    }
}
