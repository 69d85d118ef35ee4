//! Rows, inputs, the items of an edge, and the packets and events of the nodes: the plain data that
//! every other crate speaks of, with the few functions that give it meaning.
//!
//! It promises the order of items (by stamp, then rows before the mark before the end, then source)
//! and of nodes, the routing of a row, sums that stop at a bound, and that an outbox is a list. It
//! stands on std alone.
#![tactic(auto)]

mod event;
mod input;
mod item;
mod limits;
mod memory;
mod node;
mod order;
mod outbox;
mod packet;
mod row;
mod status;
mod sum;

pub use event::{Drained, Event, History, Stamped, Worked};
pub use input::Input;
pub use item::{Item, NUMBER_LIMIT};
pub use limits::{MAX_THREADS, MOST_PACKETS};
pub use memory::OutOfMemory;
pub use node::{EdgeId, LinkId, NodeId, Which};
pub use outbox::Outbox;
pub use packet::{Body, Entry, Packet};
pub use row::{Column, Key, Row, route};
pub use status::Status;
pub use sum::{BIG, saturating_sum_of};
