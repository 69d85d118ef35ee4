//! What a node sends on its out-edges: the items that are not acknowledged, and which one is due.
//!
//! A [`Producer`] has for each out-edge a buffer, and for each replica of the edge's consumer a
//! cursor: the number of the next item to send to it, always above what is acknowledged. Only a
//! leader sends. It stands on ack_buffer.
#![tactic(auto)]

mod due;
mod edge;
mod producer;

pub use due::Due;
pub use edge::MAX_COPIES;
pub use producer::Producer;
