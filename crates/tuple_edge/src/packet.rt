// What nodes send to each other.
use crate::{EdgeId, Item, Key};

/// One entry of a move, by which a restarted replica takes over its partner's state. An in-edge is named by its source,
/// an out-edge by its target, from 0.
#[derive(Clone, Copy, Debug, PartialEq, Eq)]
pub enum Entry {
    /// The number of the last item taken of an in-edge.
    Mark {
        edge: u32,
        upto: u64,
    },
    /// How many items were merged.
    Count {
        count: u64,
    },
    /// An item of an in-edge that waits to be merged.
    Head {
        edge: u32,
        number: u64,
        item: Item,
    },
    /// Up to which number an out-edge is acknowledged, and how many items it has produced.
    Low {
        edge: u32,
        upto: u64,
        produced: u64,
    },
    /// An item of an out-edge that is not yet acknowledged.
    Kept {
        edge: u32,
        number: u64,
        item: Item,
    },
    /// What the operator keeps of a key, at a slot of it: a quantity and a value, of one row or summed, and the number of
    /// a window, or 0 where the operator has none.
    Keyed {
        key: Key,
        slot: u32,
        qty: i64,
        value: i64,
        window: i64,
    },
}

/// What a packet says. `inc` is the incarnation of the replica that it speaks of: 1 at the opening,
/// and one more with each restart.
#[derive(Clone, Copy, Debug, PartialEq, Eq)]
pub enum Body {
    /// An item of an edge with its number, from 1.
    Tuple {
        edge: EdgeId,
        number: u64,
        item: Item,
    },
    /// The consumer pair has taken the items of an edge up to this number.
    Ack {
        edge: EdgeId,
        upto: u64,
    },
    /// A replica has taken the items of an in-edge up to this number.
    Report {
        inc: u64,
        edge: EdgeId,
        upto: u64,
    },
    /// The replica leads its pair from now on, in this term.
    Lead {
        inc: u64,
        term: u64,
    },
    /// The replica is to give its state to its partner's incarnation `target`.
    Serve {
        inc: u64,
        target: u64,
    },
    /// The replica begins anew in this incarnation, and gathers its partner's state.
    Begin {
        inc: u64,
    },
    /// An entry of a move, numbered from 1.
    Chunk {
        inc: u64,
        number: u64,
        entry: Entry,
    },
    /// The move had this many entries.
    ChunkEnd {
        inc: u64,
        count: u64,
    },
    /// The replica has caught up.
    Caught {
        inc: u64,
    },
    /// A newcomer asks for the items of an edge from this number on.
    Want {
        edge: EdgeId,
        from: u64,
    },
    /// The replica was killed.
    Down {
        inc: u64,
    },
    /// The replica's stop is granted.
    Stop {
        inc: u64,
    },
    /// The replica asks to be stopped.
    AskStop {
        inc: u64,
    },
    /// A replica asks that its partner be restarted.
    AskBack,
}

/// A packet with its sender's clock when it was sent.
#[derive(Clone, Copy, Debug, PartialEq, Eq)]
pub struct Packet {
    pub at: u64,
    pub body: Body,
}
