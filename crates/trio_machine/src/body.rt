// What the nodes of groups of three send to each other.
use tuple_edge::{EdgeId, Item};

/// What a packet between nodes of groups of three says.
#[derive(Clone, Copy, Debug, PartialEq, Eq)]
pub enum TrioBody {
    /// An item of an edge with its number, from 1.
    Tuple {
        edge: EdgeId,
        number: u64,
        item: Item,
    },
    /// The consumers of an edge that are up have all taken its items up to this number.
    Ack {
        edge: EdgeId,
        upto: u64,
    },
    /// A replica has taken the items of an in-edge up to this number.
    Report {
        edge: EdgeId,
        upto: u64,
    },
    /// The replica leads its group from now on, in this term.
    Lead {
        term: u64,
    },
    /// The replica was killed.
    Down,
}
