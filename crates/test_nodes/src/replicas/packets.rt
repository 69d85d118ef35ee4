// Each packet in each mode, and which packets are admitted.
use crate::answer::none_is_wrong;
use crate::replicas::fixture::{Case, Event, OUT_EDGE, ROW, Step, TWO, check, first_wrong};
use replica_node::Mode;
use std::alloc::Global;
use std::test::Fail;
use test_kit::{A, B, CONTROL, FIRST_EDGE, ONE};
use tuple_edge::{Body, Entry, Item, NodeId, Row, Which};

// A stage of one partition, and one of two after it.
const SPLIT: &[u8] =
    b"flux 1\nstage 1 parts 1 by account total account\nstage 2 parts 2 by account total account\n";

// Every number stays below this.
const LIMIT: u64 = 1 << 62;

const RUNS: (Mode, u64) = (Mode::Running, 1);

const GATHERS: (Mode, u64) = (Mode::Gathering, 2);

const IS_GONE: (Mode, u64) = (Mode::Gone, 1);

const FIRST: Item = Item::Row { stamp: 1, row: ROW };

// A row a second past the last time.
const LATE: Item = Item::Row {
    stamp: 1,
    row: Row {
        time: 10_000_000_000,
        ..ROW
    },
};

const ACK: Body = Body::Ack {
    edge: OUT_EDGE,
    upto: 1,
};

const LEAD_AT_LIMIT: Body = Body::Lead {
    inc: 1,
    term: LIMIT,
};

const SERVE_AT_LIMIT: Body = Body::Serve {
    inc: 1,
    target: LIMIT,
};

// Entries of a move.
const COUNT: Entry = Entry::Count { count: 1 };

const MARK_AT_LIMIT: Entry = Entry::Mark {
    edge: 0,
    upto: LIMIT,
};

const LOW_OF_FIRST: Entry = Entry::Low {
    edge: 0,
    upto: 0,
    produced: 0,
};

const LOW_OF_SECOND: Entry = Entry::Low {
    edge: 1,
    upto: 0,
    produced: 0,
};

const LOW_AT_LIMIT: Entry = Entry::Low {
    edge: 0,
    upto: LIMIT,
    produced: 1,
};

const HEAD: Entry = Entry::Head {
    edge: 0,
    number: 1,
    item: FIRST,
};

const HEAD_AT_LIMIT: Entry = Entry::Head {
    edge: 0,
    number: LIMIT,
    item: FIRST,
};

const LATE_HEAD: Entry = Entry::Head {
    edge: 0,
    number: 1,
    item: LATE,
};

const KEPT: Entry = Entry::Kept {
    edge: 0,
    number: 1,
    item: FIRST,
};

const LATE_KEPT: Entry = Entry::Kept {
    edge: 0,
    number: 1,
    item: LATE,
};

// A sender and what it sends, and the mode and the incarnation after that of a replica that runs in its first incarnation,
// of one that gathers in its second, and of one that is gone in its first.
type InEach = (NodeId, Body, (Mode, u64), (Mode, u64), (Mode, u64));

const PACKETS: &[InEach] = &[
    // Orders are obeyed in their incarnation.
    (CONTROL, Body::Stop { inc: 1 }, IS_GONE, GATHERS, IS_GONE),
    (
        CONTROL,
        Body::Stop { inc: 2 },
        RUNS,
        (Mode::Gone, 2),
        IS_GONE,
    ),
    (CONTROL, Body::Begin { inc: 1 }, RUNS, GATHERS, IS_GONE),
    (CONTROL, Body::Begin { inc: 2 }, GATHERS, GATHERS, GATHERS),
    (
        CONTROL,
        Body::Lead { inc: 1, term: 5 },
        RUNS,
        GATHERS,
        IS_GONE,
    ),
    (
        CONTROL,
        Body::Serve { inc: 1, target: 2 },
        RUNS,
        GATHERS,
        IS_GONE,
    ),
    // No other packet changes a mode, but the end of a whole move: an item, and what the second stage tells of the first
    // one's items.
    (
        NodeId::Ingress,
        Body::Tuple {
            edge: FIRST_EDGE,
            number: 1,
            item: FIRST,
        },
        RUNS,
        GATHERS,
        IS_GONE,
    ),
    (
        NodeId::Control { stage: 2, part: 0 },
        Body::Ack {
            edge: OUT_EDGE,
            upto: 3,
        },
        RUNS,
        GATHERS,
        IS_GONE,
    ),
    (
        NodeId::Replica {
            stage: 2,
            part: 0,
            which: Which::A,
        },
        Body::Want {
            edge: OUT_EDGE,
            from: 1,
        },
        RUNS,
        GATHERS,
        IS_GONE,
    ),
    (
        A,
        Body::Chunk {
            inc: 2,
            number: 1,
            entry: COUNT,
        },
        RUNS,
        GATHERS,
        IS_GONE,
    ),
    (
        A,
        Body::ChunkEnd { inc: 2, count: 1 },
        RUNS,
        GATHERS,
        IS_GONE,
    ),
];

// What brings a replica into a mode.
fn comes_into(mode: Mode) -> Step {
    match mode {
        Mode::Running => Step::Is(mode, 1),
        Mode::Gathering => Step::Does(Event::Give(CONTROL, Body::Begin { inc: 2 })),
        Mode::Gone => Step::Sends(Event::Fail, CONTROL, Body::Down { inc: 1 }),
    }
}

// Whether it takes a packet in this mode, sends nothing, and is in that mode and incarnation then.
fn takes(
    alloc: Global,
    mode: Mode,
    from: NodeId,
    body: Body,
    (wanted, inc): (Mode, u64),
) -> Result<bool, Fail> {
    let steps = [
        comes_into(mode),
        Step::Does(Event::Give(from, body)),
        Step::Is(wanted, inc),
    ];
    let wrong = first_wrong(alloc, TWO, Which::B, &steps)?;
    Ok(wrong.is_none())
}

fn takes_in_each(alloc: Global, packet: &InEach) -> Result<bool, Fail> {
    let (from, body, runs, gathers, is_gone) = *packet;
    Ok(
        takes(alloc, Mode::Running, from, body, runs)?
            && takes(alloc, Mode::Gathering, from, body, gathers)?
            && takes(alloc, Mode::Gone, from, body, is_gone)?,
    )
}

fn first_wrong_packet(alloc: Global) -> Result<Option<usize>, Fail> {
    for (nth, packet) in PACKETS.iter().enumerate() {
        if !takes_in_each(alloc, packet)? {
            return Ok(Some(nth));
        }
    }
    Ok(None)
}

#[test]
fn packets_are_taken_in_each_mode(rt: HostRuntime) -> Result<(), Fail> {
    none_is_wrong(first_wrong_packet(rt.alloc())?)
}

const CASES: &[Case] = &[
    // An item is admitted of the replica's own in-edge, with a number and a time within their limits; an acknowledgement
    // from who takes its items alone.
    (
        ONE,
        Which::B,
        &[
            Step::AdmitsItem(FIRST_EDGE, 1, FIRST, true),
            Step::AdmitsItem(OUT_EDGE, 1, FIRST, false),
            Step::AdmitsItem(FIRST_EDGE, LIMIT, FIRST, false),
            Step::AdmitsItem(FIRST_EDGE, 1, LATE, false),
            Step::Admits(NodeId::Egress, ACK, true),
            Step::Admits(CONTROL, ACK, false),
        ],
    ),
    // A pair is among itself: orders come from the controller, and entries of edges here from the partner.
    (
        ONE,
        Which::B,
        &[
            Step::Admits(CONTROL, Body::Begin { inc: 2 }, true),
            Step::Admits(A, Body::Begin { inc: 2 }, false),
            Step::Admits(CONTROL, Body::Down { inc: 1 }, false),
            Step::AdmitsEntry(A, Entry::Mark { edge: 0, upto: 5 }, true),
            Step::AdmitsEntry(A, Entry::Mark { edge: 1, upto: 5 }, false),
            Step::AdmitsEntry(A, MARK_AT_LIMIT, false),
            Step::AdmitsEntry(B, Entry::Mark { edge: 0, upto: 5 }, false),
        ],
    ),
    // What would raise a number to its limit isn't admitted, nor is an item past the last time.
    (
        ONE,
        Which::B,
        &[
            Step::Admits(CONTROL, Body::Begin { inc: LIMIT - 1 }, true),
            Step::Admits(CONTROL, Body::Begin { inc: LIMIT }, false),
            Step::Admits(CONTROL, LEAD_AT_LIMIT, false),
            Step::Admits(CONTROL, SERVE_AT_LIMIT, false),
            Step::AdmitsEntry(A, Entry::Count { count: LIMIT - 1 }, true),
            Step::AdmitsEntry(A, Entry::Count { count: LIMIT }, false),
            Step::AdmitsEntry(A, LOW_AT_LIMIT, false),
            Step::AdmitsEntry(A, HEAD, true),
            Step::AdmitsEntry(A, HEAD_AT_LIMIT, false),
            Step::AdmitsEntry(A, LATE_HEAD, false),
            Step::AdmitsEntry(A, KEPT, true),
            Step::AdmitsEntry(A, LATE_KEPT, false),
        ],
    ),
    // A move that tells of no out-edge doesn't end.
    (
        ONE,
        Which::B,
        &[
            Step::Does(Event::Give(CONTROL, Body::Begin { inc: 2 })),
            Step::Does(Event::Entry(1, COUNT)),
            Step::Admits(A, Body::ChunkEnd { inc: 2, count: 1 }, false),
            Step::Admits(A, Body::ChunkEnd { inc: 2, count: 2 }, true),
            Step::Admits(A, Body::ChunkEnd { inc: 3, count: 1 }, true),
        ],
    ),
    // A move tells each out-edge once, in order: so these two are whole, and one of them alone twice or the second one
    // before the first are not.
    (
        SPLIT,
        Which::B,
        &[
            Step::Does(Event::Give(CONTROL, Body::Begin { inc: 2 })),
            Step::Does(Event::Entry(1, LOW_OF_FIRST)),
            Step::Does(Event::Entry(2, LOW_OF_SECOND)),
            Step::Admits(A, Body::ChunkEnd { inc: 2, count: 2 }, true),
        ],
    ),
    (
        SPLIT,
        Which::B,
        &[
            Step::Does(Event::Give(CONTROL, Body::Begin { inc: 2 })),
            Step::Does(Event::Entry(1, LOW_OF_FIRST)),
            Step::Does(Event::Entry(2, LOW_OF_FIRST)),
            Step::Admits(A, Body::ChunkEnd { inc: 2, count: 2 }, false),
        ],
    ),
    (
        SPLIT,
        Which::B,
        &[
            Step::Does(Event::Give(CONTROL, Body::Begin { inc: 2 })),
            Step::Does(Event::Entry(1, LOW_OF_SECOND)),
            Step::Does(Event::Entry(2, LOW_OF_FIRST)),
            Step::Admits(A, Body::ChunkEnd { inc: 2, count: 2 }, false),
        ],
    ),
];

#[test]
fn packets_are_admitted_or_not(rt: HostRuntime) -> Result<(), Fail> {
    check(rt.alloc(), CASES)
}
