//! The output of a plan on one thread.
//!
//! `evaluate` gives exactly the rows of the plan as a function on lists, stage by stage and without stamps or merges.
//! It stands on plan_reader, stream_ops and trade_text, and on the definitions of merge_order and pair_machine.
#![tactic(auto)]

mod output;
mod stage;
mod states;

pub use output::evaluate;
