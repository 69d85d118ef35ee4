// Symbols, numbered from 1 by first appearance.
ghost use Rattle.std.specs.Prelude.{◌≡◌, ◌≤◌, [], None, length, IfOk, IfSome, IsSome, OnErr, option_map, true};
ghost use Rattle.trade_text.specs.Fields.{is_symbol};
ghost use Rattle.trade_text.specs.Limits.{max_symbol_bytes, max_symbols};
ghost use Rattle.trade_text.specs.Symbols.{number_in, numbered, symbol_at};

use indexmap::IndexSet;
use std::alloc::Global;
use std::marker::Model;
use tuple_edge::OutOfMemory;

/// The most different symbols.
pub const MAX_SYMBOLS: usize = 4_096;

/// What stands for the symbol of no number.
pub const NO_SYMBOL: &[u8] = b"-";

/// The known symbols, in the order of their numbers.
#[derive(Drop)]
pub struct Symbols {
    names: IndexSet<Vec<u8>>,
}

impl Model for Symbols {
    ghost use Rattle.std.specs.Prelude.{ℕ, ◌≤◌, List};
    ghost use Rattle.indexmap.specs.IndexSet.{index_set_len};
    ghost use Rattle.trade_text.specs.Limits.{max_symbols};
    ghost use Rattle.trade_text.specs.Symbols.{AreSymbols, texts};

    ghost Value = { List (List ℕ) };

    ghost view = { λ s. texts s.names.keys };

    ghost invariant = { λ s. (index_set_len s.names ≤ max_symbols) × AreSymbols s.names.keys };
}

impl Symbols {
    /// No symbols.
    pub fn new(alloc: Global) -> Symbols
        ensures { result ≡ [] }
    {
        Symbols {
            names: IndexSet::new(alloc),
        }
    }

    /// How many are known.
    pub fn count(&self) -> usize
        ensures count { result ≡ length self.now }
        ensures few { result ≤ max_symbols }
    {
        self.names.len()
    }

    // The number of a symbol that is known, which tells that the text is one.
    #[inline(always)]
    pub(crate) fn known(&self, name: &[u8]) -> Option<u64>
        ensures number { result ≡ number_in self.now name.now }
        ensures symbol { IsSome result → is_symbol name.now ≡ true }
        ensures within { IfSome result (λ n. (1 ≤ n) × (n ≤ max_symbols)) }
    {
        match self.names.get_index_of(name) {
            None => None,
            Some(place) => Some(place as u64 + 1),
        }
    }

    // The number of a symbol that becomes known, or None where no more fit.
    pub(crate) fn add(&mut self, alloc: Global, name: &[u8]) -> Result<Option<u64>, OutOfMemory>
        requires new { number_in self.old name.now ≡ None }
        requires symbol { is_symbol name.now ≡ true }
        ensures numbers { IfOk result (λ number. numbered self.old name.now ≡ option_map (λ n. (n, self.new)) number) }
        ensures within { IfOk result (λ number. IfSome number (λ n. (1 ≤ n) × (n ≤ max_symbols))) }
        ensures few { length self.new ≤ max_symbols }
        ensures unchanged { OnErr result (self.new ≡ self.old) }
    {
        let count = self.names.len();
        if count >= MAX_SYMBOLS {
            return Ok(None);
        }
        let name = Vec::from_slice(alloc, name)?;
        self.names.insert(name)?;
        Ok(Some(count as u64 + 1))
    }

    /// The symbol of a number: `-` where it is that of none.
    pub fn name(&self, number: i64) -> &[u8]
        ensures symbol { result.now ≡ symbol_at self.now number }
        ensures short { length result.now ≤ max_symbol_bytes }
    {
        if number < 1 {
            return NO_SYMBOL;
        }
        match self.names.get_index(number as usize - 1) {
            None => NO_SYMBOL,
            Some(name) => name.as_slice(),
        }
    }
}
