// Trades that are parsed from bytes that are pushed.
ghost use Rattle.std.specs.Prelude.{◌≡◌, ◌≤◌, ◌∷◌, [], ℕ, IfErr, IfOk, IfSome, List, MatchResult, None, Ok, OnOk, false, length, true};
ghost use Rattle.trade_text.specs.Limits.{max_symbol_bytes, max_symbols};
ghost use Rattle.trade_stream.specs.Pushed.{IsReady, Learns, TellsLast, TellsLong, TellsOn, has_header, standing_after, standing_on, told_behind};
ghost use Rattle.trade_text.specs.Streams.{told_of};
ghost use Rattle.trade_text.specs.Symbols.{symbol_at};
ghost use Rattle.trade_text.specs.TradesView.{IsInputRow};

use crate::parsing::Parsing;
use crate::stage::Stage;
use std::alloc::Global;
use trade_text::StreamError;
use tuple_edge::Row;

/// Trades that are parsed from bytes that are pushed, in pieces of any size. It keeps the symbols, and the front of one record.
#[derive(Drop)]
pub struct TradeParser {
    at: Parsing,
    over: bool,
    ghost ready: { over ≡ false → IsReady at },
}

impl TradeParser {
    /// At the start of a text.
    pub fn new(alloc: Global) -> TradeParser
        ensures told { (rest : List ℕ) → told_behind result.at rest ≡ told_of rest }
        ensures standing { (rest : List ℕ) → standing_on result.at rest ≡ standing_after rest }
        ensures symbols { result.at.form.symbols ≡ [] }
        ensures goes_on { result.over ≡ false }
    {
        TradeParser {
            at: Parsing::new(alloc),
            over: false,
        }
    }

    /// Takes the next byte, and gives the row of the trade whose record it ends, if it ends one. A byte order mark at the
    /// front of the text is dropped, once. After an error nothing is taken any more.
    pub fn push(&mut self, alloc: Global, byte: u8) -> Result<Option<Row>, StreamError>
        ensures tells { self.old.over ≡ false → (rest : List ℕ) → TellsOn result (told_behind self.old.at (byte ∷ rest)) (told_behind self.new.at rest) }
        ensures within { IfOk result (λ row. IfSome row IsInputRow) }
        ensures learns { self.old.over ≡ false → IfOk result (λ row. Learns row self.old.at.form.symbols self.new.at.form.symbols) }
        ensures standing { self.old.over ≡ false → OnOk result ((rest : List ℕ) → standing_on self.old.at (byte ∷ rest) ≡ standing_on self.new.at rest) }
        ensures long { self.old.over ≡ false → IfErr result (λ e. TellsLong e self.old.at) }

        // Nothing is taken behind an error.
        ensures over { MatchResult result (λ _. self.new.over ≡ self.old.over) (λ _. self.new.over ≡ true) }
        ensures nothing { self.old.over ≡ true → result ≡ Ok None }
    {
        if self.over {
            return Ok(None);
        }
        self.over = true;
        let row = self.at.push(alloc, byte)?;
        self.over = false;
        Ok(row)
    }

    /// Takes the end of the text, and gives the row of the trade whose record it ends, if it ends one. After it nothing is
    /// taken any more.
    pub fn finish(&mut self, alloc: Global) -> Result<Option<Row>, StreamError>
        ensures tells { self.old.over ≡ false → TellsLast result (told_behind self.old.at []) self.new.at.form.symbols }
        ensures within { IfOk result (λ row. IfSome row IsInputRow) }
        ensures learns { self.old.over ≡ false → IfOk result (λ row. Learns row self.old.at.form.symbols self.new.at.form.symbols) }
        ensures over { self.new.over ≡ true }
        ensures nothing { self.old.over ≡ true → result ≡ Ok None }
    {
        if self.over {
            return Ok(None);
        }
        self.over = true;
        self.at.finish(alloc)
    }

    /// Whether the header has come, and was accepted.
    pub fn has_header(&self) -> bool
        ensures { result ≡ has_header self.now.at.stage }
    {
        self.at.stage == Stage::Trades
    }

    /// How many symbols are known: they have the numbers from 1 on.
    pub fn symbols(&self) -> usize
        ensures count { result ≡ length self.now.at.form.symbols }
        ensures few { result ≤ max_symbols }
    {
        self.at.form.symbols.count()
    }

    /// The symbol of a number: `-` where it is that of none.
    pub fn symbol(&self, number: i64) -> &[u8]
        ensures symbol { result.now ≡ symbol_at self.now.at.form.symbols number }
        ensures short { length result.now ≤ max_symbol_bytes }
    {
        self.at.form.symbols.name(number)
    }
}
