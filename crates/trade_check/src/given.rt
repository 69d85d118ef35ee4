// Trades with the file from which they were read.
ghost use Rattle.std.specs.Prelude.{◌≡◌, IfOk};
ghost use Rattle.trade_check.specs.Given.{given, line_of};

use input_faults::record_line;
use std::alloc::Global;
use std::marker::Model;
use trade_text::{Trades, without_mark};
use tuple_edge::OutOfMemory;

/// Trades, with the name and the bytes of the file from which they were read, so that it can be said where in it something stands.
/// No movements are merged with them.
///
/// Contracts see these three.
#[derive(Drop)]
pub struct GivenTrades {
    name: String,
    bytes: Vec<u8>,
    trades: Trades,
}

impl Model for GivenTrades {
    ghost use Rattle.std.specs.Prelude.{◌≡◌, false, string_bytes};
    ghost use Rattle.trade_check.specs.Given.{GivenView};

    ghost Value = { GivenView };

    ghost view = { λ g. record { name = string_bytes g.name; bytes = g.bytes.items; trades = g.trades } };

    ghost invariant = { λ g. g.trades.merged ≡ false };
}

impl GivenTrades {
    ghost use Rattle.std.specs.Prelude.{false};

    /// The trades of a file of this name with these bytes.
    pub fn new(
        alloc: Global,
        name: &str,
        bytes: &[u8],
        trades: Trades,
    ) -> Result<GivenTrades, OutOfMemory>
        requires { trades.merged ≡ false }
        ensures { IfOk result (λ it. it ≡ given name.now bytes.now trades) }
    {
        let mut kept = String::new(alloc);
        kept.push_str(name)?;
        let mut copied = Vec::with_capacity(alloc, bytes.len())?;
        copied.extend_from_slice(bytes)?;
        Ok(GivenTrades {
            name: kept,
            bytes: copied,
            trades,
        })
    }

    /// The trades.
    pub fn trades(&self) -> &Trades
        ensures trades { result.now ≡ self.now.trades }
    {
        &self.trades
    }

    // The same, once nothing is to be said of their file any more.
    pub(crate) fn into_trades(self) -> Trades
        ensures trades { result ≡ self.trades }
        ensures alone { result.merged ≡ false }
    {
        self.trades
    }

    // The name of the file.
    pub(crate) fn name(&self) -> &str
        ensures { result.now ≡ self.now.name }
    {
        self.name.as_str()
    }

    // The line in which the record of this number begins.
    pub(crate) fn line_of(&self, number: u64) -> u64
        ensures { result ≡ line_of self.now number }
    {
        record_line(without_mark(&self.bytes), number)
    }
}
