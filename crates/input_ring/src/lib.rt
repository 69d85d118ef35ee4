//! The way of inputs from a thread that reads them to ingress, while the run goes on.
//!
//! The sender waits while the ring is full, and so is ahead by few inputs at most. The source gives what is at hand and never
//! waits. It promises that what was given is a front of what was sent, each input once and in order, which is known once both
//! ends are in one hand, and then whether it is all. A flag stops the sender from elsewhere. That a wait ends is not promised.
//! It stands on a ring of `rtrb`, and on the trait of sources in `node_tasks`.
#![tactic(auto)]

mod named;
mod rings;
mod sending;
mod source;
mod stopping;

pub use named::{NamedSource, RingNames};
pub use rings::{RING_INPUTS, input_ring};
pub use sending::InputSender;
pub use source::InputSource;
pub use stopping::StopFlag;
