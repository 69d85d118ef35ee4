//! How a row of the output came about: on which of the rows that come to each stage it rests.
//!
//! The causes of the rows that a stage passes on are defined over the rows that come to it, one for each row, and from them, stage by
//! stage, on which rows a row of the output rests, down to the trades. It promises that each row that a stage passes on is the answer
//! over the rows of its cause alone, that its sums are those of the rows that count into it, and that the rows of the last stage are
//! the plan's output. It stands on row_cause for the causes of an operator's answers, on evaluation for what a stage passes on, and on
//! plan_reader, stream_ops, op_spec, circular_buffer, pair_machine, merge_order, trade_text and tuple_edge for their definitions.
#![tactic(auto)]

mod law;

pub use law::{
    passed_rows_rest_on_their_causes, passed_rows_tell_what_counts,
    rows_after_the_last_stage_are_the_output, worked_rows,
};
