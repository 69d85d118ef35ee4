//! The program `flux_look`, over files and sinks that are handed in: what a plan will do, and what a run did.
//!
//! It promises that `out` takes exactly the text that the words ask for, with the status that belongs to it, and it
//! gives every other status its cause, as `flux` does. It stands on look_words for the words, on look_command for what
//! they ask for, and on flux_top for what is said.
#![tactic(auto)]

mod answered;
mod command;
mod finished;

pub use command::flux_look;
