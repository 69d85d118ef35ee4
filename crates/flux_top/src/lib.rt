//! The commands of `flux`, over files and sinks that are handed in.
//!
//! It promises that `flux` writes exactly the text of the plan's output where it answers 0, and gives every other
//! answer its cause. It stands on command_line for the words, on command_course and flux_outside for the inputs and
//! what is written, and on a crate or module for each command. What its clauses are made of (specs/Programs) and its last
//! steps (`finish`, `own_stop`, `say_stop`) serve flux_live and flux_look too.
#![tactic(auto)]

mod command;
mod eval;
mod finishing;
mod lines;
mod make;
mod stops;

pub use command::flux;
pub use finishing::finish;
pub use lines::line_of_loss;
pub use stops::{own_stop, say_stop};
