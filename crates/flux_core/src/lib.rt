//! The core: all nodes of a plan and every packet that any of them ever sent, driven by any list of events.
//!
//! A core stands for a state of the machine of pairs, and an event that it applies is the machine's step. Whatever the
//! events, with failures and lost pairs among them: what egress emitted is a front of the plan's output, each replica
//! that runs has merged the first items of each edge, once and in order, and the buffers hold what takeover owes. It
//! stands on `plan_nodes`, whose nodes threads turn too, and on `run_journal` for events with lines.
#![tactic(auto)]

mod acts;
mod apply;
mod asked;
mod ends;
mod error;
mod nodes;
mod opening;
mod places;
mod pulls;
mod rows;
mod sent;
mod station;

pub use apply::Stopped;
#[doc(hidden)]
pub use asked::Asked;
pub use error::ApplyError;
pub use nodes::Core;
pub use rows::{AllRows, CoreRows, HeldRows};
#[doc(hidden)]
pub use sent::Sent;
#[doc(hidden)]
pub use station::Station;
