//! One replica of a pair: it takes, merges, answers and sends, gives its state to its restarted partner,
//! and gathers its partner's state when it is restarted itself.
//!
//! A [`Replica`] runs, gathers or is gone, and has just what it needs in that mode. It promises that each
//! of its events is its step of the machine of `pair_machine`, and that a packet that a sound machine has
//! sent is admitted. It stands on flux_consumer and flux_producer for its edges, on stream_ops for its
//! operator, on partition_step for its merges, and on move_list, state_mover and catch_up for moves.
#![tactic(auto)]

mod admission;
mod law;
mod moving;
mod phase;
mod replica;
mod role;
mod taking;
mod working;

pub use law::{moves_tell_their_numbers, newcomers_catch_up, pieces_hold_numbers, runs_are_folded};
pub use phase::Mode;
// Contracts see what a replica is made of.
#[doc(hidden)]
pub use phase::{Phase, Running};
pub use replica::Replica;
#[doc(hidden)]
pub use role::Role;
