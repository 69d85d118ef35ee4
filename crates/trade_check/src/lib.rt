//! What is said of a plan and of the files that are given with it: what plan_check says of plans and scripts, and beside it what is
//! hardly meant about the trades, and which counts of a script replicas don't come to in time.
//!
//! It promises that the text and the number of warnings are those of the definitions, in which each warning has a condition of its own.
//! It stands on plan_check for plans and scripts, on trade_text for trades, on input_faults for where a record stands in its file, and
//! on item_counts for how many items a replica merges.
#![tactic(auto)]

mod check;
mod given;
mod law;
mod order_counts;
mod order_lines;
mod sentences;
mod symbols;
mod times;
mod trade_lines;
mod trade_warnings;
mod warning;

pub use check::{Checked, write_check};
pub use given::GivenTrades;
pub use law::worked_rows;
