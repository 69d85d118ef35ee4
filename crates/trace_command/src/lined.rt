// Trades, and the one of them that stands in a line of their file.
ghost use Rattle.command_course.specs.Lines.{or_line};
ghost use Rattle.command_course.specs.Steps.{StopsOn};
ghost use Rattle.csv.specs.Reading.{strip_bom};
ghost use Rattle.std.specs.Prelude.{◌≡◌, IfErr, IfOk, Ok, false};
ghost use Rattle.trace_command.specs.Courses.{lined_from, with_place};
ghost use Rattle.trade_line.specs.Lines.{line_fault, trade_in};
ghost use Rattle.trade_text.specs.Limits.{max_input_bytes};

use command_course::{Input, Stop, TradesFile, refused};
use std::alloc::Global;
use trade_line::trade_in;
use trade_text::{Trades, without_mark};

/// Trades, and the place of one of them.
#[derive(Drop)]
pub struct LinedTrades {
    pub trades: Trades,
    pub place: usize,
}

// A file of trades, of which that of a line is asked about.
#[derive(Drop)]
pub(crate) struct LinedFile {
    pub(crate) line: u64,
}

// Trades with the one that stands in a line of their file.
#[tactic(auto, using(crate::proofs::Placing::place_is, crate::proofs::Placing::place_refused))]
fn lined_in(
    alloc: Global,
    name: &str,
    bytes: &[u8],
    line: u64,
    trades: Trades,
) -> Result<LinedTrades, Stop>
    ensures gives { IfOk result (λ it. with_place trades (or_line line_fault name.now (trade_in (strip_bom bytes.now) line)) ≡ Ok it) }
    ensures kept { IfOk result (λ it. it.trades ≡ trades) }
    ensures stops { IfErr result (λ stop. StopsOn (with_place trades (or_line line_fault name.now (trade_in (strip_bom bytes.now) line))) stop) }
{
    match trade_in(without_mark(bytes), line) {
        Ok(place) => Ok(LinedTrades {
            trades,
            place: place as usize,
        }),
        Err(fault) => Err(refused(alloc, name, fault)),
    }
}

impl Input for LinedFile {
    type Value = LinedTrades;

    ghost most = { λ _. max_input_bytes };

    ghost reading = { λ file. lined_from file.line };

    ghost keeps = { λ _ it. it.trades.merged ≡ false };

    fn most(&self) -> u64 {
        TradesFile.most()
    }

    #[tactic(auto, using(crate::proofs::Placing::lined_is, crate::proofs::Placing::lined_stops, crate::proofs::Placing::trades_stop))]
    fn value(&self, alloc: Global, name: &str, bytes: &[u8]) -> Result<LinedTrades, Stop> {
        let trades = TradesFile.value(alloc, name, bytes)?;
        lined_in(alloc, name, bytes, self.line, trades)
    }

    fn too_long(&self, alloc: Global, name: &str, seen: u64) -> Stop {
        TradesFile.too_long(alloc, name, seen)
    }
}
