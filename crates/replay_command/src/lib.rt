//! The command `replay`: a list of events, applied to a plan as it opens with its trades.
//!
//! It promises that the text comes of just the files that the course of `replay` reads: the text of the state that the
//! events reach, or the line of the first input that is refused, or of the first event that is no step, with why. It
//! stands on `command_course` for the inputs, on `run_journal` for the events, on `flux_core` for the nodes that they
//! drive, and on `state_text` for the text.
#![tactic(auto)]

mod event_line;
mod events_file;
mod replay;

pub use event_line::refused_event;
pub use events_file::{Events, EventsFile};
pub use replay::replay_text;
