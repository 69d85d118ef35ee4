//! How a restarted replica catches up: it takes its partner's entries in order, holds the tuples that
//! come meanwhile, and then rebuilds what the partner had and folds the held tuples in.
//!
//! It stands on flux_consumer, flux_producer and stream_ops, and on move_list for what the list of a
//! move is.
#![tactic(auto)]

mod held;
mod newcomer;
mod rebuild;

pub use newcomer::{CaughtUp, Hold, Newcomer, Took};
