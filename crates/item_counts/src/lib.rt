//! How many items each replica of a partition merges.
//!
//! It promises that `items_merged` gives the length of the merged list of a partition for a plan and its trades: as many
//! items as each replica of its pair merges up to the end, by whatever failures. It stands on origin_finder for the rows that come to
//! a stage, and on row_origin and pair_machine for what comes there.
#![tactic(auto)]

mod merged;

pub use merged::items_merged;
