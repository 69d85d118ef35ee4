//! The journal of logs: their events by clock and node, each in a line, straight from the logs.
//!
//! [`write_logs`] gives the canonical text of all that happened at the nodes of a run, and of what a drain did
//! then. No list of all events is made and nothing is sorted: of each log the next event is known, and clock
//! after clock the events of that clock are written in the order of their nodes. It stands on `event_log` for
//! logs, on `run_journal` for the text of an event, on `pair_machine` for what the log of all nodes is, and on
//! itoa.
#![tactic(auto)]

mod lines;
mod source;
mod write;

pub use write::write_logs;
