//! How a run stands after its events: done, with a pair lost, or neither; and that in words.
//!
//! It promises that `run_end` is the end that is defined of the machine's state for which a core stands, and that
//! `push_run_end` writes it in the words that are defined of it. It stands on `flux_core`, whose egress it looks at,
//! and on `core_drain` for the first lost pair.
#![tactic(auto)]

mod ends;
mod law;
mod words;

pub use ends::{RunEnd, run_end};
pub use law::worked_ends;
pub use words::push_run_end;
