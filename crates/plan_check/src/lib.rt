//! What a plan does, in plain sentences, and what about it is hardly meant: its warnings, and those of a failure
//! script.
//!
//! It promises that the text and the number of warnings are those of the definitions, in which each warning has a
//! condition of its own; and that a stage that isn't warned of for its key answers each row as one partition would to
//! which all rows of the key came. It stands on plan_reader for plans, on failure_script for scripts, on trade_text for
//! trades, on run_journal for the names of nodes, on bucket_move for which key holds which column, and on node_tasks for
//! how much a node does in a turn.
#![tactic(auto)]

mod check;
mod law;
mod limits;
mod order;
mod orders;
mod plan_warnings;
mod script_warnings;
mod sentences;
mod sums;
mod warning;
mod warning_text;
mod words;

pub use check::{push_sentences, push_warnings};
pub use law::{
    ends_stay_together, keys_stay_together, quiet_plans_deal_none, unsafe_scripts_are_told,
    worked_rows,
};
pub use limits::LONG_MARK;
pub use order::is_window;
pub use orders::push_script;
pub use warning::Numbered;
pub use words::{push_order, push_stage};
