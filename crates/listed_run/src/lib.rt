//! A run whose events are one list: all that happened on the threads and then in the drain.
//!
//! It promises what `drained_run` does of how a run ends, and that the events are there as a list, each with the line that
//! it has in the run's journal, and each named by the plan; so they can be applied again. It stands on `partition_runner`
//! for the threads, on `flux_core` and `core_drain` for the drain, and on `run_journal`, which makes one list of the
//! histories of nodes. Of `drained_run` its proofs use how the drain's end is the run's.
#![tactic(auto)]

mod run;

pub use run::{Listed, run_and_list};
