//! What became of a script's orders in a run, as a text for people: a line for each order and its way back, for each
//! takeover and for each catch-up, and how the run ended.
//!
//! It promises that `write_rehearsal` gives exactly the text that is defined of what was told, of the orders, and of how
//! many items each replica had merged in the state that the run reached; and that `are_obeyed` holds just where every
//! order was obeyed. An order is obeyed by a failure or a stop of its own replica alone. It stands on `run_watch` for what
//! is told, on `flux_core` for the nodes at the end, and on `run_journal` for the names of nodes.
#![tactic(auto)]

mod ends;
mod fates;
mod follows;
mod law;
mod merged;
mod orders;
mod rehearsal;

pub use fates::are_obeyed;
pub use law::worked_rehearsal;
pub use rehearsal::write_rehearsal;
