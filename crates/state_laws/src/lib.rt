//! What holds of an operator's state and of its move, over any items and any order of calls.
//!
//! An operator's answers depend on the items before through their entries alone, so an operator that
//! was rebuilt from its entries answers as the one that they came from. And a move gives the entries
//! of its beginning, each once and in order, whatever steps are made while it goes on. It has no code
//! of its own: each law is the contract of a function that does nothing. It stands on stream_ops and
//! state_mover.
#![tactic(auto)]

mod law;
mod move_law;

pub use law::{answers_come_from_entries, entries_go_on, later_answers_come_from_entries};
pub use move_law::any_order_moves;
