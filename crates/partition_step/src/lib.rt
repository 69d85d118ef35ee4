//! One step of a partition, whoever runs it: the next merged item goes through the operator, and what
//! answers it goes on the out-edges.
//!
//! [`merge_next`] promises that it is the merge of the machines: where a consumer, an operator and a
//! producer stand for a partition's numbers, they stand for those with one more item merged. It stands on
//! flux_consumer and flux_producer for the edges, on stream_ops for the operator, and on node_edges for
//! what they stand for.
#![tactic(auto)]

mod answer;
mod merge;
mod task;

pub use answer::make_room;
pub use merge::merge_next;
pub use task::{PartitionTask, task_in};
