//! The command `trio`: a list of events of groups of three, applied to a plan as it opens with its trades, and then the
//! drain.
//!
//! It promises that the text comes of just the files that the course of `trio` reads: the groups of the state that the
//! events reach, how the drain ended, and the rows that were emitted then; or the line of the first input that is
//! refused, or of the first event that is no step, with why. A plan of version 2 is refused before the trades are read.
//! It stands on `command_course` for the inputs, on `trio_text` for the events, on `trio_core` for the nodes that they
//! drive, on `trio_drain` for the drain, and on `trio_state` for the lines of the groups.
#![tactic(auto)]

mod command;
mod event_line;
mod events_file;
mod follow;
mod text;

pub use command::text_of_trio;
// Contracts see where a list of events stopped.
#[doc(hidden)]
pub use follow::Stopped;
