//! Trades that are parsed from bytes that are pushed.
//!
//! A `TradeParser` takes bytes one by one, in pieces of any size, and gives the row of a trade as soon as its record has ended.
//! It promises that what it gives is what the bytes say by `told_of` of trade_text, whatever comes behind them; that it never
//! holds more than one record of at most as many bytes as a file may have; and that a refusal is the first fault. It stands on
//! trade_text, for what bytes say and for the parts of which its reading is made, and on csv for the fields of a record.
#![tactic(auto)]

mod parsing;
mod stage;
mod trade_parser;

pub use trade_parser::TradeParser;
