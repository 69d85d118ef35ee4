//! Trades that are read one by one, while they come, from any source of bytes.
//!
//! A `StreamReader` never reads while it has a whole record: `take` gives the next trade of what has come, with the name of its
//! symbol where that is new, or says that nothing more is at hand; `read_more` waits for the next piece; and `finish` gives the
//! trade whose record the end of the input ends. It promises that what was told is what the bytes that came say, whatever comes
//! behind them, however they were cut into pieces, and whatever the source tells; that every record that has ended is told before
//! more is read; and that a refusal is the first fault of the bytes. It keeps the symbols, one record and one piece. It stands on
//! trade_stream for the parsing of what comes, on byte_source for where they come from, and on symbol_names for names.
#![tactic(auto)]

mod stream_reader;
mod trade;

pub use self::stream_reader::{PIECE_BYTES, StreamReader};
pub use trade::{Next, Trade};
