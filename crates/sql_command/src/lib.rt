//! The command `sql` of `flux_look`: a plan as one SQL query.
//!
//! It gives the text that it writes, and how it ends; the clauses say that it reads the plan alone, that the text is the query of the plan that the
//! file's bytes have, and that it refuses what `flux eval` refuses of a plan. It stands on command_course for the course and the answer, and on
//! plan_sql for the query.
#![tactic(auto)]

mod command;

pub use command::sql_report;
