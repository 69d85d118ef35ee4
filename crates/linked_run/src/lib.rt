//! A run of nodes that are linked: their links are made, and workers on threads turn them.
//!
//! Each worker takes one node after another off a board, gives it a turn and puts it back. Then, with all nodes in one hand,
//! the links are settled: what each node took is seen to be what the others sent. So whatever the workers, the links and the
//! script did, all events in the order of their clocks are legal and within the script, and each node stands for its numbers
//! in the state that they reach.
//!
//! It stands on `run_node` for a node and what it does in a turn, on `claim_board`, where nodes float between workers, and on
//! the laws of `pair_machine` for histories. What the nodes are it doesn't know: no crate of the nodes stands below it.
#![tactic(auto)]

mod connecting;
mod floating;
mod gate;
mod running;
mod settling;
mod worker;

pub use connecting::connect_all;
pub use gate::{FreeGate, Gate};
pub use running::run_linked;
pub use worker::Shared;
