// Trades as a dataflow takes them: rows, the source of each, and the symbols.
ghost use Rattle.std.specs.Prelude.{◌≡◌, ◌<◌, ◌≤◌, All, Some, length, slice_get};
ghost use Rattle.trade_text.specs.Limits.{max_inputs, max_symbols};
ghost use Rattle.trade_text.specs.TradesView.{IsInputRow, only_trades};
ghost use Rattle.tuple_edge.specs.declared.row.Row.{Row};

use crate::{HasSymbols, Symbols};
use std::alloc::Global;
use std::marker::Model;
use tuple_edge::{Input, Row};

/// Trades as rows, whose symbols are numbers from 1 by first appearance.
///
/// Contracts see the rows, the source of each, as far as it is listed, whether a second source was
/// merged, and the symbols.
#[derive(Drop)]
pub struct Trades {
    pub(crate) rows: Vec<Row>,
    // The source of each row once a second one was merged; none is listed before.
    pub(crate) sources: Vec<u32>,
    pub(crate) merged: bool,
    symbols: Symbols,
}

impl Model for Trades {
    ghost use Rattle.trade_text.specs.TradesView.{TradesView, IsTrades};

    ghost Value = { TradesView };

    ghost view = { λ t. record { rows = t.rows.items; sources = t.sources.items; merged = t.merged; symbols = t.symbols } };

    ghost invariant = { λ t. IsTrades (record { rows = t.rows.items; sources = t.sources.items; merged = t.merged; symbols = t.symbols }) };
}

impl Trades {
    ghost use Rattle.trade_text.specs.Limits.{max_symbol_bytes};
    ghost use Rattle.trade_text.specs.Symbols.{symbol_at};
    ghost use Rattle.trade_text.specs.TradesView.{IsTrades, inputs_in};

    /// The rows in order. A row has the time in seconds, the account, the number of the symbol, the
    /// quantity, below zero for a sale, and the quantity times the price in cents.
    pub fn rows(&self) -> &[Row]
        ensures rows { result.now ≡ self.now.rows }
        ensures limits { IsTrades self.now }
    {
        &self.rows
    }

    /// The source of a row, from 0: trades come from source 0.
    #[tactic(auto, using(crate::proofs::Sources::input_at))]
    pub fn source(&self, nth: usize) -> u32
        requires { nth < length self.now.rows }
        ensures input { (row : Row) → slice_get self.now.rows nth ≡ Some row → slice_get (inputs_in self.now) nth ≡ Some (record { source = result; row = row }) }
        ensures limits { result ≤ 1 }
    {
        match self.sources.get(nth) {
            None => 0,
            Some(source) => *source,
        }
    }

    /// The input at a place, from 0: a row with its source.
    pub fn input(&self, nth: usize) -> Input
        requires { nth < length self.now.rows }
        ensures { slice_get (inputs_in self.now) nth ≡ Some result }
    {
        let row = self.rows[nth];
        let source = self.source(nth);
        Input { source, row }
    }

    /// Whether a second source was merged.
    pub fn merged(&self) -> bool
        ensures merged { result ≡ self.now.merged }
        ensures limits { IsTrades self.now }
    {
        self.merged
    }

    /// The symbol of a number: `-` where it is that of none.
    pub fn symbol(&self, number: i64) -> &[u8]
        ensures symbol { result.now ≡ symbol_at self.now.symbols number }
        ensures short { length result.now ≤ max_symbol_bytes }
    {
        self.symbols.name(number)
    }
}

impl HasSymbols for Trades {
    ghost symbols = { λ trades. trades.symbols };

    fn symbol(&self, number: i64) -> &[u8] {
        Trades::symbol(self, number)
    }
}

// Trades alone.
pub(crate) fn only_trades(alloc: Global, rows: Vec<Row>, symbols: Symbols) -> Trades
    requires few_rows { length rows.items ≤ max_inputs }
    requires few_symbols { length symbols ≤ max_symbols }
    requires rows { All IsInputRow rows.items }
    ensures { result ≡ only_trades rows.items symbols }
{
    Trades {
        rows,
        sources: Vec::new(alloc),
        merged: false,
        symbols,
    }
}
