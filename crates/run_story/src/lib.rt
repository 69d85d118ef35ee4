//! What happened in a run, as a text for people: a line for each happening, and how the run stands at its end.
//!
//! It promises that `write_story` gives exactly the text that is defined of what was told, of the orders of a script and
//! of the state that the run reached. It stands on `run_watch` for what is told, and on `run_journal` for the names of
//! nodes.
#![tactic(auto)]

mod ends;
mod lines;
mod orders;
mod story;

pub use ends::takeovers;
pub use orders::{has_fired, is_asked_back, order_word};
pub use story::write_story;
