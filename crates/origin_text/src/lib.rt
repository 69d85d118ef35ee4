//! How a row of the output came about, as text: for each stage, from the last to the first, the rows on which it rests.
//!
//! It promises that `write_why` writes exactly the defined text of what is told of all stages: the row, and for each stage its line of the plan, on
//! how many rows the row rests and how many of them count, and these rows, the inputs among them with their lines in their files; and, where that is
//! asked for, whether those inputs alone give the row again: it says so exactly where they do. It stands on origin_finder for what is told and for
//! what stages give, on input_faults and trade_sift for the line of a record, and on trade_text, plan_reader and op_spec for trades, plans
//! and operators.
#![tactic(auto)]

mod again;
mod alone;
mod files;
mod lines;
mod rows;
mod told;
mod why;

pub use alone::Again;
pub use files::{InputFile, InputFiles};
pub use told::ToldRow;
pub use why::{Question, write_why};
