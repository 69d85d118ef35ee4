// The name of one symbol.
ghost use Rattle.std.specs.Prelude.{◌≡◌, ◌≤◌, length};
ghost use Rattle.symbol_names.specs.Names.{name_of};
ghost use Rattle.trade_text.specs.Limits.{max_symbol_bytes};

use trade_text::MAX_SYMBOL_BYTES;

/// The name of a symbol, which takes no memory of its own.
#[derive(Clone, Copy)]
pub struct SymbolName {
    bytes: [u8; MAX_SYMBOL_BYTES],
    len: usize,
}

impl SymbolName {
    /// This name.
    pub fn new(name: &[u8]) -> SymbolName
        requires { length name.now ≤ max_symbol_bytes }
        ensures { name_of result ≡ name.now }
    {
        let mut bytes = [0; MAX_SYMBOL_BYTES];
        bytes[..name.len()].copy_from_slice(name);
        SymbolName {
            bytes,
            len: name.len(),
        }
    }

    /// Its bytes.
    pub fn as_bytes(&self) -> &[u8]
        ensures name { result.now ≡ name_of self.now }
        ensures short { length result.now ≤ max_symbol_bytes }
    {
        &self.bytes[..self.len.min(MAX_SYMBOL_BYTES)]
    }
}
