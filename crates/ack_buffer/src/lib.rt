//! The items of an edge that are not acknowledged yet.
//!
//! An [`AckBuffer`] numbers the items of its edge from 1 and holds exactly those above `low`, the
//! number up to which all is acknowledged. An acknowledgement may come before its items: they are
//! then counted and not kept. It stands on tuple_edge.
#![tactic(auto)]

mod buffer;

pub use buffer::AckBuffer;
