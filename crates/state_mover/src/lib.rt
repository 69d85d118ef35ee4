//! What a running replica gives to its restarted partner: the entries of a move, one by one.
//!
//! A [`Mover`] fixes at its beginning what the consumer and the producer hold. What the operator kept
//! at that moment it takes from the watched state as it goes, so it copies none of it. It stands on
//! move_list for the entries of the consumer and the producer, and on stream_ops.
#![tactic(auto)]

mod mover;

pub use mover::{Moved, Mover};
