// A pair's takeover, as one replica shows it, and what it takes of an edge.
use crate::replicas::fixture::{Case, Event, OUT_EDGE, Step, TWO, check};
use std::test::Fail;
use test_kit::{CONTROL, FIRST_EDGE, ONE};
use tuple_edge::{Body, NodeId, Which};

// The replicas of the second stage, and their controller.
const NEXT_A: NodeId = NodeId::Replica {
    stage: 2,
    part: 0,
    which: Which::A,
};

const NEXT_B: NodeId = NodeId::Replica {
    stage: 2,
    part: 0,
    which: Which::B,
};

const NEXT_CONTROL: NodeId = NodeId::Control { stage: 2, part: 0 };

// The second stage acknowledges the first one's items up to the seventh, or to the twentieth.
const SEVEN: Event = Event::Give(
    NEXT_CONTROL,
    Body::Ack {
        edge: OUT_EDGE,
        upto: 7,
    },
);

const TWENTY: Event = Event::Give(
    NEXT_CONTROL,
    Body::Ack {
        edge: OUT_EDGE,
        upto: 20,
    },
);

// It has taken an item of its in-edge.
const REPORT: Body = Body::Report {
    inc: 1,
    edge: FIRST_EDGE,
    upto: 1,
};

// All items of the first stage are wanted.
const WANT: Body = Body::Want {
    edge: OUT_EDGE,
    from: 1,
};

const CASES: &[Case] = &[
    // What the dead leader may have sent is sent again: all that is not acknowledged, to both replicas.
    (
        TWO,
        Which::B,
        &[
            Step::Does(Event::Merge(1, 10)),
            Step::Does(SEVEN),
            Step::Does(Event::Give(CONTROL, Body::Lead { inc: 1, term: 2 })),
            Step::SendsTotal(NEXT_A, 8),
            Step::SendsTotal(NEXT_B, 8),
            Step::SendsTotal(NEXT_A, 9),
            Step::SendsTotal(NEXT_B, 9),
            Step::SendsTotal(NEXT_A, 10),
            Step::SendsTotal(NEXT_B, 10),
            Step::Mark(10),
            Step::Buffered(7, 10),
        ],
    ),
    // A lead of another incarnation says nothing, and a replica that doesn't lead sends nothing but its report.
    (
        TWO,
        Which::B,
        &[
            Step::Does(Event::Merge(1, 1)),
            Step::Does(Event::Give(CONTROL, Body::Lead { inc: 2, term: 2 })),
            Step::Sends(Event::Work, CONTROL, REPORT),
            Step::Does(Event::Rest),
            Step::Mark(1),
            Step::Buffered(0, 1),
        ],
    ),
    // An acknowledgement may come before the item: what is behind is let go as it is produced.
    (
        TWO,
        Which::B,
        &[
            Step::Does(Event::Merge(1, 10)),
            Step::Does(TWENTY),
            Step::Mark(10),
            Step::Buffered(20, 10),
            Step::Does(Event::Merge(11, 20)),
            Step::Mark(20),
            Step::Buffered(20, 20),
        ],
    ),
    // Items are taken by their numbers: a repeat and a gap change nothing.
    (
        ONE,
        Which::A,
        &[
            Step::Does(Event::Item(1)),
            Step::Mark(1),
            Step::Buffered(0, 0),
            Step::Does(Event::Item(1)),
            Step::Mark(1),
            Step::Buffered(0, 0),
            Step::Does(Event::Item(1)),
            Step::Mark(1),
            Step::Buffered(0, 0),
            Step::Does(Event::Item(3)),
            Step::Mark(1),
            Step::Buffered(0, 0),
            Step::Does(Event::Item(2)),
            Step::Mark(2),
            Step::Buffered(0, 0),
            Step::Does(Event::Item(3)),
            Step::Mark(3),
            Step::Buffered(0, 0),
        ],
    ),
    // The items of an edge reach the replica that wants them again, and the other one is not disturbed.
    (
        TWO,
        Which::A,
        &[
            Step::Does(Event::Merge(1, 2)),
            Step::SendsTotal(NEXT_A, 1),
            Step::SendsTotal(NEXT_B, 1),
            Step::Does(Event::Give(NEXT_B, WANT)),
            Step::SendsTotal(NEXT_B, 1),
            Step::SendsTotal(NEXT_A, 2),
            Step::Mark(2),
            Step::Buffered(0, 2),
        ],
    ),
];

#[test]
fn items_go_over_edges_by_their_numbers(rt: HostRuntime) -> Result<(), Fail> {
    check(rt.alloc(), CASES)
}
