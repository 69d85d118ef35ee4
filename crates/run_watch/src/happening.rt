// What is told of a run.
use tuple_edge::NodeId;

/// How a replica fell that leads no more.
#[derive(Clone, Copy, Debug, PartialEq, Eq)]
pub enum Fell {
    /// It didn't.
    Never,
    /// It failed.
    Failed,
    /// It asked to be stopped.
    AskedStop,
}

/// Something that happened to a replica or a pair, at one event.
#[derive(Clone, Copy)]
pub enum Happening {
    /// A replica failed, in this incarnation.
    Failed {
        node: NodeId,
        inc: u64,
    },
    /// A replica took its stop, in this incarnation.
    Stopped {
        node: NodeId,
        inc: u64,
    },
    /// A replica asked its controller to be stopped.
    AskedStop {
        node: NodeId,
        inc: u64,
    },
    /// A replica's partner asked their controller that it be brought back.
    AskedBack {
        node: NodeId,
    },
    /// The controller named a replica leader, in this term: so many events after its partner fell last, which did so
    /// in this way.
    Named {
        node: NodeId,
        term: u64,
        after: u64,
        fell: Fell,
    },
    /// A replica leads from here on: it heard that it was named.
    Leads {
        node: NodeId,
        term: u64,
    },
    /// The controller brings a replica back: it is to begin anew in this incarnation, and its partner is to serve it.
    Recalled {
        node: NodeId,
        inc: u64,
    },
    /// A replica began to gather its partner's state, in this incarnation.
    Begun {
        node: NodeId,
        inc: u64,
    },
    /// A replica has sent its partner all of its state: so many entries, for this incarnation of the partner.
    Moved {
        node: NodeId,
        target: u64,
        entries: u64,
    },
    /// A replica has caught up: it took so many entries of its partner's state, and held so many items meanwhile, of
    /// which those that follow were folded in.
    CaughtUp {
        node: NodeId,
        inc: u64,
        entries: u64,
        held: u64,
    },
    /// No replica of this pair serves any more.
    Lost {
        stage: u32,
        part: u32,
    },
    /// A replica of this pair serves again.
    Regained {
        stage: u32,
        part: u32,
    },
}

/// A happening, with the event at which it happened.
#[derive(Clone, Copy)]
pub struct Told {
    /// The place of the event in the list, from 1.
    pub place: u64,
    /// The line of the event in its file.
    pub line: u64,
    /// How many inputs ingress had made into items by then; the end counts as one.
    pub made: u64,
    /// How many rows egress had emitted by then.
    pub emitted: u64,
    /// What happened.
    pub happening: Happening,
}
