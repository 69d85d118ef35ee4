//! What becomes of a trade, as text: for each stage the rows that rest on it, where they go and what they are added to, and at last
//! those of the output.
//!
//! `write_trace` writes exactly the defined text of the rows that are reached. It stands on reach_finder for these rows, and on
//! trade_text, plan_reader and op_spec for symbols, stages and operators.
#![tactic(auto)]

mod pieces;
mod rows;
mod told;
mod trace;

pub use told::ToldRow;
pub use trace::{Question, write_trace};
