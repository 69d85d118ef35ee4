//! A channel of values, from a thread that has them one after another to a thread that takes them.
//!
//! It promises that what was received is a front of what was sent, each value once and in order, which is known once both
//! ends are in one hand; and there the rest of what was sent can be taken. An end that sends may leave what doesn't fit for
//! its next offer, or wait. That a value comes at all, or that a wait ends, is not promised. It stands on a bounded
//! `crossbeam_channel` under a rule.
#![tactic(auto)]

mod ends;
mod message;
mod names;
mod next;
mod receiving;
mod sending;
mod settling;

pub use ends::{Receiver, Sender, channel};
pub use names::ChannelNames;
pub use settling::Settled;
