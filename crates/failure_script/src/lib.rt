//! The text of a failure script, and what its orders ask for: which replica is to stop or to fail, after
//! how many items, and when its partner may ask for it back.
//!
//! It promises that every text is read as its definition says, the orders or the first fault with its line;
//! that `is_safe` is true exactly where the script is safe in the pair machine's sense, so that no pair is
//! ever lost; and what is due at a node after so many items. It stands on `text_words` for lines, words and
//! number words, on `plan_reader` for the plan's nodes, and on `pair_machine` for what an order and a safe
//! script are.
#![tactic(auto)]

mod error;
mod names;
mod read;
mod script;
mod words;

pub use error::ScriptError;
pub use pair_machine::Order;
pub use read::{MAX_SCRIPT_BYTES, read_script};
pub use script::{DueNow, Script, are_of_one_pair, are_unsafe, is_reached};
