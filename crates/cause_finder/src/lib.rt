//! The rows on which an answer of an operator rests, found among those that came to its stage.
//!
//! It promises that of each row the last one before it of its partition and key is known, and from which of these on the next answer rests on
//! them (`key_trails`); and that the row is found with which a pair of a join is made (`partner_of`). It stands on row_cause and
//! row_origin for the causes, on plan_reader for stages, on op_spec, stream_ops, evaluation and circular_buffer for their definitions, and on tuple_edge.
#![tactic(auto)]

mod causes;
mod keyed;
mod partners;
mod trails;
mod windows;

pub use causes::partner_of;
pub use trails::{KeyTrails, Trail, key_trails};
