//! The program `flux_live`, over files and sinks that are handed in: a run whose rows are written while it goes on.
//!
//! It promises that what `out` takes is a front of the text of the plan's output, each row once and in order, whatever
//! is answered; that it is all of it where the answer is 0; and it gives every other answer its cause, as `flux run`
//! does. It stands on live_feed for the run, on command_course and run_command for its inputs and their refusals, and
//! on flux_top for what is said.
#![tactic(auto)]

mod command;
mod given;
mod lived;
mod words;

pub use command::flux_live;
