//! The command `rehearse`: a failure test that can fail. It runs a plan under a failure script, and tells what became of
//! each order.
//!
//! It promises that what is written is the story of a legal list of events within the script, which leads to all of the
//! plan's output, or to the state in which a pair is the first lost one; that the picture which is saved is that of the
//! same events; and that it says an order was obeyed just where these events obey it. It stands on `listed_run` for the
//! run, on `run_watch` for what is told of its events, on `run_rehearsal`, `run_timeline` and `lane_chart` for what is
//! written of that, on `command_course` and `run_command` for the inputs and the answer.
#![tactic(auto)]

mod command;
mod ends;
mod picture;
mod reporting;
mod watching;

pub use command::rehearse_report;
