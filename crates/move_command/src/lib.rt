//! The command `move`: a plan that is by key, worked in buckets that move between its partitions.
//!
//! It promises that `move_text` writes the text of the plan's output, the same as without moves, and then how many
//! keys stand at each partition at the end; a plan that isn't by key and faulty moves are refused, each by its line.
//! It stands on command_course for the inputs and on bucket_move for the rows; that its answers are the plan's output
//! is the law `one_operator_answers`, which it proves from the definitions of evaluation.
#![tactic(auto)]

mod command;
mod law;
mod moves_file;
mod text;
mod work;

pub use command::move_text;
pub use law::one_operator_answers;
