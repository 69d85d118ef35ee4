//! On which rows an answer rests, and which row made an operator give it.
//!
//! The causes of the rows that an operator answers with are defined on the rows before, one for each row, in order. It promises that a
//! fresh operator which is given the rows of a cause alone, and then the row that made it speak, answers with this one row. It
//! stands on tuple_edge, on op_spec for what operators are told, on stream_ops for what they answer, and on circular_buffer for the last
//! rows of a key.
#![tactic(auto)]

mod law;
mod placed;

pub use law::{ends_rest_on_their_causes, rows_rest_on_their_causes, worked_rows};
pub use placed::Placed;
