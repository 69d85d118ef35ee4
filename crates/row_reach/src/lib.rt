//! What becomes of a row: which of the rows that each stage passes on rest on it, up to the plan's output.
//!
//! From the causes of the rows that a stage passes on it is defined which of them are reached from marked rows that come to it, and
//! from there, stage by stage, which rows of the output are. It promises that a row of the output is reached from a row exactly where it
//! rests on that row, as row_origin defines it going back. It stands on row_origin for causes and for what a row rests on, and on row_cause,
//! evaluation, plan_reader, op_spec and tuple_edge for their definitions.
#![tactic(auto)]

mod law;

pub use law::{rows_are_reached_from_what_they_rest_on, worked_rows};
