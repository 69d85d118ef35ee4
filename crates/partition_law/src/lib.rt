//! What holds of plans in several partitions.
//!
//! It promises that two plans with the same operators which aren't warned of for their partitions give, for each key of
//! the last stage, the same rows in the same order: so the numbers of partitions, and the columns that route to them,
//! are a matter of speed alone. It stands on plan_check for the warnings, and on evaluation for the rows stage by stage.
#![tactic(auto)]

mod law;

pub use law::partitions_agree;
