//! What several crates of tests share: small plans and the names of their nodes, stories of a plan with its trades and a
//! script, a latch for which a thread waits, and the walk over all states that orders of events reach from the opening of
//! a small run, breadth first.
//!
//! [`SmallRun`] is the plan and the trades of the walk. How its partition is run a program says by the trait [`Orders`]:
//! how the run opens, which events may come next, what an event does, by what two states differ, and what has to be so in
//! each. [`walk`] is then all of that program: it goes over the states that the program's words allow and prints how many
//! there are. The walk doesn't know what an event is.
#![tactic(auto)]

mod latch;
mod names;
mod orders;
mod plans;
mod program;
mod small_run;
mod story;
mod visit;

pub use latch::Latch;
pub use names::{A, B, CONTROL, FIRST_EDGE, control, replica};
pub use orders::{Fault, Orders, Verdict};
pub use plans::{NAMES, ONE, THREE, TWO};
pub use program::walk;
pub use small_run::SmallRun;
pub use story::{Story, made, told};
