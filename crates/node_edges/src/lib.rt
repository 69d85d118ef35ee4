//! What a node keeps of its edges stands for the numbers that the machine of pairs has of it.
//!
//! A producer stands for a partition's where each of its buffers holds the items that are numbered
//! above low up to what was made, and a consumer where its merge holds those above what is used up to
//! the mark. The crate promises that each call of a producer, and of a consumer, is what the machine's
//! does, so that a node's own proof need not look at an item. Each law is the contract of a function that
//! does nothing; beside them stands which replica a producer's number means. It stands on flux_producer
//! and flux_consumer, and on pair_machine for the numbers.
#![tactic(auto)]

mod ends;

ghost use Rattle.node_edges.specs.ConsumerLaws.{ConsumersFollow};
ghost use Rattle.node_edges.specs.ProducerLaws.{ProducersFollow};

pub use ends::{copy_of, which_at};

/// Each call of a producer is what the machine's producer does.
pub fn producers_follow()
    ensures { ProducersFollow }
{}

/// Each call of a consumer is what the machine's consumer does.
pub fn consumers_follow()
    ensures { ConsumersFollow }
{}
