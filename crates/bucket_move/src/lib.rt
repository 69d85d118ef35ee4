//! Buckets that move between the partitions of a stage at a mark: which moves a text asks for, and an
//! operator whose state is split by buckets.
#![tactic(auto)]

mod buckets;
mod by_key;
mod error;
mod moves;
mod partition;
mod read;
mod words;
mod work;

pub use buckets::Buckets;
pub use by_key::is_by_key;
pub use error::MovesError;
pub use moves::{Moves, Shift};
pub use read::{MAX_MOVES_BYTES, read_moves};
pub use words::MAX_STAMP;

/// How many buckets there are.
pub const BUCKETS: u32 = 64;
