//! How a row of the output came about: the rows that came to each stage, and on which of them it rests.
//!
//! It promises that `origins_of` tells exactly what is defined: of each stage, from the last to the first, the rows that came to it,
//! on which of them the row rests, and which of these count. It stands on row_origin for the definitions, on cause_finder for the
//! rows of a cause, on evaluation for what a stage passes on, and on stream_ops for its operators.
#![tactic(auto)]

mod marks;
mod origins;
mod passing;
mod rows;
mod said;
mod telling;

pub use marks::{RowRoles, is_marked};
pub use origins::{StageTold, origins_of};
pub use rows::rows_passed;
pub use telling::counts_itself;
