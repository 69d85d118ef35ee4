//! The commands `run` and `trial`: a plan by pairs on threads, under a failure script.
//!
//! It promises what is written and what is saved as the journal: all of the plan's output, each row once and in order,
//! and a legal list of events that reaches it; or, under a script that isn't safe, the front of it that was emitted
//! before a pair was lost. It stands on drained_run for the run, and on command_course for the inputs.
#![tactic(auto)]

mod ending;
mod outcome;
mod run;
mod script_file;
mod trial;

pub use outcome::{Journal, Outcome};
pub use run::run_outcome;
pub use script_file::{ScriptFile, script_at};
pub use trial::trial_outcome;
