//! The text of the groups of a core: who leads each group, in which term, and how far each of its replicas is.
//!
//! It promises that `write_groups` gives exactly the text that is defined of the machine's numbers, of whatever
//! state the core stands for. It stands on `trio_core` for the nodes and on `trio_text` for their names.
#![tactic(auto)]

mod groups;
mod law;
mod lines;

pub use groups::write_groups;
pub use law::worked_texts;
