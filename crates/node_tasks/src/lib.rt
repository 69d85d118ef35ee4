//! What a node is asked to do, and what it promises when it does it, whatever node it is and whoever asks.
//!
//! A [`Task`] is what a node is to do in one event. A node is what has the trait [`Acts`]: a task that is done is a step of the
//! machine at this node, which sends few packets, and those over links of its plan alone. So the nodes of a plan
//! (`plan_nodes`) and what turns nodes (`run_node`) are written beside one another, each over this crate.
//!
//! It stands on the steps of `pair_machine` and on nothing of any node.
#![tactic(auto)]

mod acts;
mod limits;
mod source;
mod task;

pub use acts::{Acts, Steps};
pub use limits::{PORTION, PORTION_UNDER_ORDERS};
pub use source::{Came, Source};
pub use task::Task;
