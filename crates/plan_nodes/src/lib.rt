//! The nodes of a plan: in which order they stand, each as it opens, and what each does in a run.
//!
//! A [`NodeState`] is a node's own part, of any of the four kinds. It is a node of a run by the trait `Acts`: it says beforehand
//! whether a task may be done, and a task that is done is a step of the machine at this node, which sends few packets, and
//! those over links of its plan alone. It takes a packet in one call where it may be given it, and does several pieces of work in
//! one. A core calls the functions of the four kinds (`ingress_acts` and so on).
//!
//! It stands on the nodes (`ingress_egress`, `replica_node`, `pair_control`) for what is done, and on `node_tasks` for tasks and the trait.
#![tactic(auto)]

mod acts;
mod making;
mod may;
mod opening;
mod order;
mod state;
mod taking;
mod working;

pub use acts::{control_acts, egress_acts, ingress_acts, replica_acts};
pub use may::{control_may, egress_may, ingress_may, replica_may};
pub use opening::{opening_state, streamed_state};
pub use order::{nodes_before_egress, nodes_of};
pub use state::NodeState;
