//! The texts of groups of three: their events, and the names of their nodes.
//!
//! It promises that every text of events is read as its definition says, each event with its line, or refused by
//! its first fault; that each event that it gives names what the plan has; and that what a plan has for groups is
//! what their machine knows: its nodes, and the links that its messages stand on. It stands on `run_journal` for the
//! reader of such texts, on `text_words` for words, on `plan_reader` for plans and for the links of pairs, and on
//! `trio_machine` for nodes, events and messages.
#![tactic(auto)]

mod law;
mod lined;
mod name_text;
mod names;
mod nodes;
mod read;
mod statement;
mod words;

pub use law::{
    links_are_the_plans, links_carry_messages, named_events_are_there, nodes_are_the_plans,
};
pub use lined::TrioLined;
pub use name_text::push_trio_node;
pub use read::read_trio;
