//! The runner: the nodes of a plan, linked, and turned by workers on threads under a failure script.
//!
//! Each worker takes one node after another off a board, gives it a turn and puts it back. Whatever the workers, the links
//! and the script did, a run that finds memory gives the nodes of the plan in their order, and one history for each, with
//! rising clocks; all events in the order of their clocks are legal and within the script, and each node stands for its
//! numbers in the state that they reach. A tap beside egress gave on a front of its rows; where there was no memory, a front of the plan's output.
//! How far a run comes is not promised.
//!
//! It stands on `plan_nodes` for the nodes of a plan, on `linked_run`, which links nodes and turns them on a `claim_board`, on
//! `run_node` for a node with its links, on `event_log` for their histories, and on `flux_link` for rings.
#![tactic(auto)]

mod fed;
mod feed;
mod job;
mod lossy_rings;
mod making;
mod names;
mod ran;
mod ready;
mod rings;
mod runs;
mod streams;
mod supply;

pub use job::{Job, StreamJob};
pub use linked_run::{FreeGate, Gate};
pub use lossy_rings::LossyRings;
pub use names::FedNames;
pub use node_tasks::{Came, Source};
pub use ran::{Left, Ran};
pub use rings::Rings;
pub use run_node::{Links, NoTap, RowTap, RunNames, Tap};
pub use runs::{Tapped, ready_tapped, run_logged, run_nodes, run_over, run_tapped, run_unlogged};
pub use streams::{StreamLeft, Streaming, ready_streamed, run_streamed};
pub use unwritten::Log as Unwritten;
