// The symbols of the records that were accepted.
ghost use Rattle.std.specs.Prelude.{◌≡◌, OnOk, Some, [], option_map, true};
ghost use Rattle.std.specs.Option.{is_some};
ghost use Rattle.trade_text.specs.Symbols.{numbered, texts};

use indexmap::IndexSet;
use std::alloc::Global;
use trade_text::MAX_SYMBOLS;
use tuple_edge::OutOfMemory;

// The symbols that are known, in the order in which they came.
#[derive(Drop)]
pub(crate) struct KnownSymbols {
    names: IndexSet<Vec<u8>>,
}

impl KnownSymbols {
    // None is known.
    pub(crate) fn new(alloc: Global) -> KnownSymbols
        ensures { texts result.names.keys ≡ [] }
    {
        KnownSymbols {
            names: IndexSet::new(alloc),
        }
    }

    // Whether there is room for a symbol: it is known, or fewer than 4,096 are.
    pub(crate) fn has_room(&self, name: &[u8]) -> bool
        ensures { result ≡ is_some (numbered (texts self.now.names.keys) name.now) }
    {
        self.names.contains(name) || self.names.len() < MAX_SYMBOLS
    }

    // A symbol for which there is room becomes known.
    pub(crate) fn learn(&mut self, alloc: Global, name: &[u8]) -> Result<(), OutOfMemory>
        requires { is_some (numbered (texts self.old.names.keys) name.now) ≡ true }
        ensures { OnOk result (option_map (λ next. next.1) (numbered (texts self.old.names.keys) name.now) ≡ Some (texts self.new.names.keys)) }
    {
        if self.names.contains(name) {
            return Ok(());
        }
        let name = Vec::from_slice(alloc, name)?;
        self.names.insert(name)?;
        Ok(())
    }
}
