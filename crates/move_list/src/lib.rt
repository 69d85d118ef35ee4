//! The list of a move: what a consumer, a producer and an operator hold at one moment, as entries.
//!
//! It promises that `fixed_part` gives exactly the entries of the consumer and the producer; those of the
//! operator are `stream_ops`'. Both who gives a move and who takes it speak of this list. It stands on
//! flux_consumer and flux_producer.
#![tactic(auto)]

mod list;

pub use list::fixed_part;
