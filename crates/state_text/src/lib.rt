//! The text of the state that a core stands for.
//!
//! It promises that `write_state` gives exactly the text that is defined of the machine's numbers, the packets of each
//! link and the rows that egress has emitted, of whatever state the core stands for. It stands on `flux_core` for the
//! nodes and what they sent, on `plan_nodes` for their order, on `run_journal` for the names of nodes and on `trade_text` for the line of a row.
#![tactic(auto)]

mod controls;
mod edges;
mod ends;
mod law;
mod links;
mod names;
mod pairs;
mod replicas;
mod rows;
mod write;

pub use law::worked_texts;
pub use write::write_state;
