//! A run of a plan from its opening to its end: its nodes on threads under a failure script, and then the drain.
//!
//! It promises the sentence that the engine is for: whatever the threads did and whichever replicas failed, the rows
//! are exactly the plan's output, each once and in order, and the events are one legal list within the script, along
//! which the buffers hold what takeover owes; or it names the first lost pair, which a safe script never has. It reads
//! and writes nothing. The events are written for a journal, or known to proofs alone. It stands on the runner (`partition_runner`), which turns the nodes, on `flux_core` and
//! `core_drain`, which bring what is left to its end, and on `journal_writer`, which writes the journal of their logs.
#![tactic(auto)]

mod ended;
mod run;

pub use ended::Ended;
pub use partition_runner::{FreeGate, Gate, Job, Unwritten};
pub use run::{finish_run, run_and_drain, run_unlogged_and_drain};
