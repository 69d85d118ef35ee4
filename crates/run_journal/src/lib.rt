//! Events as text, and the histories of nodes as one list of events.
//!
//! It promises that every text of events is read as its definition says, each event with its line, or
//! refused by its first fault; that what it writes reads back; and that the events of histories come by
//! clock and node, each once. The reader knows no events: it reads every text of this form whose lines an
//! `EventForm` reads. It stands on `tuple_edge` for nodes and events, on `text_words` for lines,
//! words and numbers, on `plan_reader` for plans and the names of nodes, and on `pair_machine` for what a
//! log is. Of `trade_text` its proofs use one lemma, on stable sorts.
#![tactic(auto)]

mod error;
mod histories;
mod limits;
mod lined;
mod listing;
mod name_text;
mod names;
mod read;
mod statement;
mod words;
mod write;

pub use error::{EventsError, Fault};
pub use histories::{merge, merged_histories_are_a_log};
pub use limits::{MAX_EVENTS, MAX_EVENTS_BYTES, MAX_INDEX, MAX_REPEATS};
pub use lined::Lined;
pub use listing::{EventForm, Repeated, once, read_listing};
pub use name_text::{letter_of, push_member, push_node};
pub use read::read_events;
pub use words::{index, times};
pub use write::{begin_events, canonical_text_reads_back, push_event, write_events};
