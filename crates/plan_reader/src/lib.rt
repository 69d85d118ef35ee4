//! The text of a plan: it is read, or refused by its first fault, and written again. Beside it stands
//! the reader of the names of nodes, which other texts have too.
//!
//! It promises that every text is read as its definition says, the value or the first fault with its
//! line; that every plan is within the limits; that a plan's canonical text reads back as the plan;
//! and which nodes and links a plan has. It stands on `tuple_edge` for nodes and columns, on
//! `op_spec` for what an operator is told, and on `text_words` for lines, words and number words.
#![tactic(auto)]

mod draft;
mod error;
mod limits;
mod names;
mod nodes;
mod operators;
mod plan;
mod read;
mod stage;
mod statement;
mod words;
mod write;

pub use error::PlanError;
pub use limits::{
    DEFAULT_HOLD, DEFAULT_MARK, EDGES_PER_MARK, MAX_HOLD, MAX_MARK, MAX_PARTS, MAX_PLAN_BYTES,
    MAX_STAGES, MAX_VERSION, MIN_HOLD,
};
pub use names::{MAX_NAME_DIGITS, cut_at, node_named, place_named};
pub use plan::Plan;
pub use read::read_plan;
pub use stage::Stage;
pub use text_words::{Line, Lines, MAX_NUMBER_DIGITS, Words, is_word, number_of, signed_number_of};
pub use write::{
    canonical_text_reads_back, column_name, push_op, push_stage, push_test, write_plan,
};
