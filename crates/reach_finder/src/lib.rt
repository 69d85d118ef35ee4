//! Which rows are reached from a trade, found in one walk over the rows of each stage.
//!
//! `passages` gives, for each stage of a plan, the rows that come to it and which of them are reached from one of the trades, and at last the
//! rows of the output. Each operator runs twice: on the rows, and on the same rows with a mark in place of an amount, 1 where the row is
//! reached and 0 where it isn't. A sum of marks is above 0 exactly where a reached row counts into it. It stands on row_reach for what is reached, on
//! stream_ops for operators, and on plan_reader and trade_text for plans and trades.
#![tactic(auto)]

mod shades;
mod stages;
mod tracer;
mod walk;

pub use shades::Traced;
pub use walk::{Passage, passages};
