//! The command `why` of `flux_look`: it reads a plan, trades and movements, and says how a row of the output came about.
//!
//! The clauses say which files are read, and that the text is the defined one of what they say, or why a number is refused that no row has. It
//! stands on command_course for the reading and the answer, on origin_finder and origin_text for what is told, and on trade_text,
//! plan_reader and tuple_edge.
#![tactic(auto)]

mod kept;
mod why;

pub use why::{Wanted, why_report};
