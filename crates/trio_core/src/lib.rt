//! The core of groups of three: all nodes of a plan and every packet that any of them ever sent, driven by any
//! list of events.
//!
//! A core stands for a state of the machine of groups that a legal list of events reaches, and an event that it
//! applies is the machine's step. It stands on the nodes of `trio_nodes`.
#![tactic(auto)]

mod acts;
mod apply;
mod error;
mod member;
mod nodes;
mod opening;
mod pulls;
mod sent;
mod station;
mod taking;
mod task;

pub use error::TrioError;
#[doc(hidden)]
pub use member::Member;
pub use nodes::TrioCore;
#[doc(hidden)]
pub use sent::{Link, Sent};
#[doc(hidden)]
pub use station::Station;
#[doc(hidden)]
pub use task::TrioTask;
