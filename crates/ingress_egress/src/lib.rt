//! The two nodes at the ends of a dataflow: ingress makes the trades and movements into numbered items and
//! sends them to the first stage, and egress merges what the last stage sends.
//!
//! It promises that each event of either node is its step of the machine of `pair_machine`, and that a
//! packet that a sound machine has sent is admitted. It stands on trade_text for the inputs, on
//! flux_producer and flux_consumer for the numbered edges, and on node_edges for what a node keeps of
//! them.
#![tactic(auto)]

mod admission;
mod egress;
mod ingress;
mod making;

pub use egress::Egress;
pub use ingress::Ingress;
pub use making::make_at;
