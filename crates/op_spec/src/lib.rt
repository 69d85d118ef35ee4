//! What an operator is told to do: its settings with their limits, the keys of rows, comparisons, and
//! the times that rows may have.
//!
//! It is a crate of its own so that a plan's text is read with no operator proved yet. It stands on
//! `tuple_edge`.
#![tactic(auto)]

mod spec;

pub use spec::{
    By, Compare, MAX_JOIN_ROWS, MAX_LAST_ROWS, MAX_TIME_SECONDS, MAX_WINDOW_SECONDS, OpSpec,
    is_timely,
};
