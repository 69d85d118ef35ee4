//! A plan as one SQL query over a table of trades, for databases.
//!
//! It promises that the text is the defined one: a common table expression for each stage below the stage's line of the plan, each operator in a
//! form of its own, and at the head how the tables are made and loaded. What a database makes of it is tested, not proved. It stands on plan_reader
//! for plans and for the lines of their stages, and on op_spec for operators.
#![tactic(auto)]

mod forms;
mod inputs;
mod law;
mod loading;
mod numbers;
mod query;
mod routed;

pub use law::worked_texts;
pub use query::write_sql;
