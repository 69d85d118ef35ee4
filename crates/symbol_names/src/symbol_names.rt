// The names of symbols that were learnt.
ghost use Rattle.std.specs.Prelude.{◌≡◌, ◌≤◌, ◌++◌, ◌∷◌, ◌↔◌, [], ℕ, All, IfOk, IsTrue, List, OnErr, OnOk, length, take};
ghost use Rattle.std.specs.List.{flat_map};
ghost use Rattle.symbol_names.specs.Names.{IsKnown, IsUnknownAt, name_of, names_of};
ghost use Rattle.trade_text.specs.Text.{row_line};
ghost use mathlib.Core.List.{IsPrefix};

use crate::SymbolName;
use std::alloc::Global;
use trade_text::{HasSymbols, NO_SYMBOL, write_lines};
use tuple_edge::{OutOfMemory, Row};

/// The names of symbols in the order in which they were learnt: the first has the number 1.
#[derive(Drop)]
pub struct SymbolNames {
    names: Vec<SymbolName>,
}

impl SymbolNames {
    /// No names.
    pub fn new(alloc: Global) -> SymbolNames
        ensures { names_of result ≡ [] }
    {
        SymbolNames {
            names: Vec::new(alloc),
        }
    }

    /// Learns the name of the next number.
    pub fn learn(&mut self, name: SymbolName) -> Result<(), OutOfMemory>
        ensures learnt { OnOk result (names_of self.new ≡ names_of self.old ++ name_of name ∷ []) }
        ensures unchanged { OnErr result (names_of self.new ≡ names_of self.old) }
    {
        self.names.push(name)?;
        Ok(())
    }

    /// How many names were learnt.
    pub fn count(&self) -> usize
        ensures { result ≡ length (names_of self.now) }
    {
        self.names.len()
    }

    /// How many rows at the front have a symbol that is known: those of the other ones are to be learnt first.
    pub fn known(&self, rows: &[Row]) -> usize
        ensures within { result ≤ length rows.now }
        ensures known { All (IsKnown (names_of self.now)) (take result rows.now) }
        ensures next { IsUnknownAt (names_of self.now) rows.now result }
    {
        let mut count = 0;
        while count < rows.len() && self.knows(&rows[count]) {
            count += 1;
        }
        count
    }

    /// Whether the symbol of a row is known. Of a number below 1 there is none, and it is written `-`.
    pub fn knows(&self, row: &Row) -> bool
        ensures { IsTrue result ↔ IsKnown (names_of self.now) row.now }
    {
        row.symbol < 1 || row.symbol as u64 <= self.names.len() as u64
    }

    /// The lines of rows whose symbols are known. They are the same whatever names are learnt behind those that are known.
    pub fn lines(&self, alloc: Global, rows: &[Row]) -> Result<Vec<u8>, OutOfMemory>
        requires { All (IsKnown (names_of self.now)) rows.now }
        ensures { IfOk result (λ bytes. (names : List (List ℕ)) → IsPrefix (names_of self.now) names → bytes.items ≡ flat_map (row_line names) rows.now) }
    {
        write_lines(alloc, rows, self)
    }
}

impl HasSymbols for SymbolNames {
    ghost symbols = { names_of };

    fn symbol(&self, number: i64) -> &[u8] {
        if number < 1 {
            return NO_SYMBOL;
        }
        match self.names.get(number as usize - 1) {
            None => NO_SYMBOL,
            Some(name) => name.as_bytes(),
        }
    }
}
