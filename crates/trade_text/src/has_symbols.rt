// What has the symbols of numbers.

/// What has the symbols of numbers, by which rows are written.
pub trait HasSymbols {
    ghost use Rattle.std.specs.Prelude.{◌≡◌, ◌≤◌, ℕ, List, length};
    ghost use Rattle.trade_text.specs.Limits.{max_symbol_bytes};
    ghost use Rattle.trade_text.specs.Symbols.{symbol_at};

    /// The symbols in the order of their numbers, of which the first is 1.
    ghost symbols: { Self → List (List ℕ) };

    /// The symbol of a number: `-` where it is that of none.
    fn symbol(&self, number: i64) -> &[u8]
        ensures symbol { result.now ≡ symbol_at (symbols self.now) number }
        ensures short { length result.now ≤ max_symbol_bytes };
}
