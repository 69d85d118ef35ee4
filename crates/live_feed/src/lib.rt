//! A run whose rows are written while it goes on.
//!
//! It promises that what is put onto the wire is a front of the text of the plan's output, each row once and in order,
//! whatever fails; and that it is all of it, or that the answer says why not: a pair was lost, the wire took not all, or
//! no memory was to be had. It may never return, and that any row is put before the run ends isn't promised. It stands
//! on `partition_runner`, which turns the nodes with a tap beside egress, on `drained_run`, which brings what is left to
//! its end, and on `ordered_channel` and `row_wire` for what lies between the tap and the wire.
#![tactic(auto)]

mod answer;
mod end;
mod sides;
mod tap;

pub use answer::Live;
pub use partition_runner::{FreeGate, Gate};
pub use row_wire::{Broken, Wire};
pub use sides::live;
