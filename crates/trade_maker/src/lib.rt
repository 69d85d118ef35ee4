//! Trades that are made from a number, for trying things out, and the summary of what became of them.
//!
//! It promises that `make_trades` writes exactly the text that its definition says; that this text reads
//! back as so many trades, whatever the number; and that `write_summary` gives exactly its four lines. It
//! stands on `trade_text` for what trades are, and on itoa.
#![tactic(auto)]

mod generator;
mod made_text;
mod summary;

pub use made_text::{made_trades_read_back, make_trades};
pub use summary::write_summary;
