// What is told of the trades that come.
use symbol_names::SymbolName;
use tuple_edge::Row;

/// A trade, and the name of its symbol where that comes for the first time.
#[derive(Clone, Copy)]
pub struct Trade {
    pub row: Row,
    pub name: Option<SymbolName>,
}

/// What there is of the bytes that have come.
#[derive(Clone, Copy)]
pub enum Next {
    /// The next trade.
    Trade(Trade),
    /// No further record has ended: more has to be read.
    Nothing,
}
