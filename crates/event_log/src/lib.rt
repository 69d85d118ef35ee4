//! The events of a node, in four bytes or less each.
//!
//! A [`Log`] stands for a list of stamped events, and a [`Reader`] gives them back one after another.
//! An entry says what a node mostly does: a piece of work, a row, or the next take from a sender, a
//! little later than the entry before. Any other event is kept whole. Where the same comes again, each time
//! with the next clock, an entry says how many times. [`EventBlocks`] stands for a list
//! of events without clocks, in which the same one mostly comes again. It stands on tuple_edge.
#![tactic(auto)]

mod block_reader;
mod blocks;
mod coding;
mod counting;
mod entries;
mod entry;
mod entry_reader;
mod keeps;
mod log;
mod reader;
mod senders;
mod stored;

pub use block_reader::BlockReader;
pub use blocks::EventBlocks;
pub use keeps::Keeps;
pub use log::{Log, histories};
pub use reader::Reader;
