//! The controller of a pair of replicas: which of them are up, who leads, and up to where each in-edge
//! of the pair is acknowledged.
//!
//! A [`PairControl`] takes packets of its two replicas by `on`, which is exactly the controller's part
//! of the pair machine's step, with exactly its packets in order; `admits` says beforehand whether a
//! packet may be taken, and says yes to every packet that a sound machine sends there. It acknowledges
//! the least report of the replicas that aren't down, and what is acknowledged never falls. It stands
//! on pair_machine for what a step is, and on plan_reader for the plan's links.
#![tactic(auto)]

mod acknowledgement;
mod controller;
mod watched;

pub use controller::PairControl;
