//! The merge of the edges into a partition.
//!
//! Items come to a `Merge` edge by edge and numbered, in any order of the edges. It gives them as
//! one list, in the order of their stamps: rows before the mark of the same stamp, rows of one
//! stamp by their source, and a mark or an end once for all edges. Whatever the order of offers,
//! what it gives is the front of that list (`any_order_merges`). It stands on tuple_edge alone.
#![tactic(auto)]

mod head;
mod law;
mod merge;
mod queue;
mod queues;

pub use head::Head;
pub use law::{all_are_used, any_order_merges, edges_stay_in_order, gives_a_front};
pub use merge::{Merge, Offer};
