//! The command `trace` of `flux_look`: what became of the trade in a line of its file.
//!
//! It gives the text that it writes, and how it ends; the clauses say which files it reads, and that the text is the defined one of the
//! trade that stands in the line. It stands on command_course for the courses and the answer, on trade_line for the trade of a
//! line, on reach_finder for the rows that rest on it, and on reach_text for the text.
#![tactic(auto)]

mod command;
mod lined;

pub use command::trace_report;
pub use lined::LinedTrades;
