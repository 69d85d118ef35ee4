//! Which trade stands in a line of its file.
//!
//! `trade_in` gives the place of the trade whose record begins in a line, or says why there is none: the file has fewer lines, the line is the
//! header's, or no record begins there. `spot_at` and `place_among` give
//! the place of a trade among the rows of trades and movements that come in.
//! It stands on trade_text for trades, and on text_words for the ends of lines.
#![tactic(auto)]

mod lines;
mod order;
mod scan;

pub use lines::{LineFault, trade_in};
pub use order::{Spot, place_among, spot_at};
