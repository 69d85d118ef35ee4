// What egress takes, emits and acknowledges.
use crate::answer::none_is_wrong;
use crate::ends::boundary::{Boundary, Step, check, opened};
use std::test::Fail;
use test_kit::{A, B, NAMES, ONE};
use tuple_edge::{Body, EdgeId, Item, NodeId, Row, Which};

const ROW: Row = Row {
    time: 1,
    account: 1,
    symbol: 0,
    qty: 1,
    value: 2,
};

const FIRST: Item = Item::Row { stamp: 1, row: ROW };

const MARK: Item = Item::Mark { stamp: 1 };

// The edges to egress: from one stage of one partition, and from the two partitions of a second stage.
const EDGE: EdgeId = EdgeId {
    stage: 1,
    from: 0,
    to: 0,
};

const EDGE_OF_TWO: EdgeId = EdgeId { stage: 2, ..EDGE };

const OTHER_OF_TWO: EdgeId = EdgeId {
    from: 1,
    ..EDGE_OF_TWO
};

const FIRST_TUPLE: Body = Body::Tuple {
    edge: EDGE,
    number: 1,
    item: FIRST,
};

const MARK_TUPLE: Body = Body::Tuple {
    edge: EDGE,
    number: 2,
    item: MARK,
};

const TAKEN: &[Step] = &[
    Step::GiveEgress(A, MARK_TUPLE),
    Step::GiveEgress(A, FIRST_TUPLE),
    Step::GiveEgress(B, FIRST_TUPLE),
    Step::GiveEgress(B, MARK_TUPLE),
    Step::GiveEgress(A, MARK_TUPLE),
    Step::EgressMerges,
    Step::Emitted {
        rows: &[ROW],
        done: false,
    },
    Step::EgressMerges,
    Step::Emitted {
        rows: &[ROW],
        done: false,
    },
    Step::EgressSends(
        1,
        0,
        Body::Ack {
            edge: EDGE,
            upto: 2,
        },
    ),
    Step::EgressIsIdle,
    Step::Pull(0, Item::End { stamp: 2 }),
    Step::EgressMerges,
    Step::Emitted {
        rows: &[ROW],
        done: true,
    },
];

// A repeat and a gap change nothing; a mark gives no row and isn't the end.
#[test]
fn emits_rows_and_ends_at_the_end(rt: HostRuntime) -> Result<(), Fail> {
    check(rt.alloc(), ONE, NAMES, b"", TAKEN)
}

const LATE: Row = Row {
    time: 10_000_000_000,
    ..ROW
};

// Replicas that don't send to egress.
const OF_NO_PART: NodeId = NodeId::Replica {
    stage: 1,
    part: 1,
    which: Which::A,
};

const OF_NO_STAGE: NodeId = NodeId::Replica {
    stage: 2,
    part: 0,
    which: Which::A,
};

// A sender, the stage of an edge, a number and a row, and whether such an item is admitted.
const ITEMS: &[(NodeId, u32, u64, Row, bool)] = &[
    (A, 1, 1, ROW, true),
    (A, 1, 1 << 62, ROW, false),
    (A, 1, 1, LATE, false),
    (A, 0, 1, ROW, false),
    (OF_NO_PART, 1, 1, ROW, false),
    (OF_NO_STAGE, 1, 1, ROW, false),
    (NodeId::Ingress, 1, 1, ROW, false),
];

fn tuple(stage: u32, number: u64, row: Row) -> Body {
    Body::Tuple {
        edge: EdgeId { stage, ..EDGE },
        number,
        item: Item::Row { stamp: 1, row },
    }
}

// The first of these that is admitted otherwise.
fn first_wrong(nodes: &Boundary) -> Option<usize> {
    for (place, (from, stage, number, row, admitted)) in ITEMS.iter().enumerate() {
        let body = tuple(*stage, *number, *row);
        if nodes.egress.admits(&nodes.plan, *from, &body) != *admitted {
            return Some(place);
        }
    }
    None
}

// No acknowledgement is.
fn admits_ack(nodes: &Boundary) -> bool {
    let (edge, upto) = (EDGE, 1);
    nodes
        .egress
        .admits(&nodes.plan, A, &Body::Ack { edge, upto })
}

// Only a replica of the last stage gives it items, of its own edge, with a number and a time within their limits.
#[test]
fn admits_items_of_the_last_stage_alone(rt: HostRuntime) -> Result<(), Fail> {
    let nodes = opened(rt.alloc(), ONE, NAMES, b"")?;
    assert!(rt; !admits_ack(&nodes));
    none_is_wrong(first_wrong(&nodes))
}

// The trades below, as rows.
const BOUGHT: Row = Row {
    time: 1,
    account: 1,
    symbol: 1,
    qty: 1,
    value: 100,
};

const ROWS: &[Row] = &[
    BOUGHT,
    Row {
        account: 2,
        qty: 2,
        value: 200,
        ..BOUGHT
    },
    Row {
        time: 2,
        account: 3,
        qty: 3,
        value: 300,
        ..BOUGHT
    },
    Row {
        time: 2,
        account: 4,
        qty: 4,
        value: 400,
        ..BOUGHT
    },
    Row {
        time: 3,
        qty: 5,
        value: 500,
        ..BOUGHT
    },
];

const HANDED: &[Step] = &[
    Step::Makes(6),
    Step::HandOn,
    Step::EgressMerges,
    Step::EgressMerges,
    Step::EgressMerges,
    Step::EgressMerges,
    Step::EgressMerges,
    Step::EgressMerges,
    Step::EgressMerges,
    Step::Emitted {
        rows: ROWS,
        done: false,
    },
    Step::EgressMerges,
    Step::Emitted {
        rows: ROWS,
        done: true,
    },
    Step::EgressSends(
        2,
        0,
        Body::Ack {
            edge: EDGE_OF_TWO,
            upto: 5,
        },
    ),
    Step::EgressSends(
        2,
        1,
        Body::Ack {
            edge: OTHER_OF_TWO,
            upto: 6,
        },
    ),
    Step::EgressIsIdle,
    Step::MakesNoMore,
];

// A plan of two stages with two partitions each, by hand over the boundary alone: what ingress produced on its edge to a
// partition is handed to egress as if each stage had passed it on. Egress emits all rows in their order.
#[test]
fn hands_all_rows_through(rt: HostRuntime) -> Result<(), Fail> {
    let plan = b"flux 1
mark 2
stage 1 parts 2 by account keep qty > 0
stage 2 parts 2 by account total account
";
    let trades = b"time,account,symbol,side,qty,price
1,1,A,B,1,1
1,2,A,B,2,1
2,3,A,B,3,1
2,4,A,B,4,1
3,1,A,B,5,1
";
    check(rt.alloc(), plan, trades, b"", HANDED)
}
