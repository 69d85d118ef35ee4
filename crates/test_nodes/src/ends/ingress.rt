// What ingress makes of its inputs, and to whom it sends that.
use crate::answer::none_is_wrong;
use crate::ends::boundary::{Boundary, Step, check, opened};
use std::alloc::{AllocError, Global};
use std::test::Fail;
use test_kit::{A, B, CONTROL, FIRST_EDGE, NAMES, ONE};
use tuple_edge::{Body, EdgeId, Item, NodeId, Row, Which};

// The edge from the second source to the first partition.
const SECOND: EdgeId = EdgeId {
    stage: 0,
    from: 1,
    to: 0,
};

// The first row of all trades below.
const ROW: Item = Item::Row {
    stamp: 1,
    row: Row {
        time: 1,
        account: 1,
        symbol: 1,
        qty: 1,
        value: 100,
    },
};

// The first items of the first edge: that row, and the end.
const FIRST_TUPLE: Body = Body::Tuple {
    edge: FIRST_EDGE,
    number: 1,
    item: ROW,
};

const END_TUPLE: Body = Body::Tuple {
    edge: FIRST_EDGE,
    number: 2,
    item: Item::End { stamp: 2 },
};

const ROUTED: &[Step] = &[
    Step::Makes(1),
    Step::Made(1),
    Step::Produced(0, 0, 0),
    Step::Produced(0, 1, 1),
    Step::Makes(1),
    Step::Made(2),
    Step::Produced(0, 0, 2),
    Step::Produced(0, 1, 2),
    Step::Makes(1),
    Step::Made(3),
    Step::Produced(0, 0, 2),
    Step::Produced(0, 1, 3),
    Step::Makes(1),
    Step::Made(4),
    Step::Produced(0, 0, 3),
    Step::Produced(0, 1, 4),
    Step::MakesNoMore,
    Step::Made(4),
    Step::Kept(0, 0, 2, Some(Item::Mark { stamp: 2 })),
    Step::Kept(0, 0, 3, Some(Item::End { stamp: 4 })),
    Step::Kept(0, 1, 4, Some(Item::End { stamp: 4 })),
];

// A row goes on the edge that routing names, a mark and the end on each.
#[test]
fn makes_rows_marks_and_the_end(rt: HostRuntime) -> Result<(), Fail> {
    let plan = b"flux 1\nmark 2\nstage 1 parts 2 by account total account\n";
    let trades = b"time,account,symbol,side,qty,price\n1,1,A,B,1,1\n1,2,A,B,1,1\n1,3,A,B,1,1\n";
    check(rt.alloc(), plan, trades, b"", ROUTED)
}

const MARKED: &[Step] = &[
    Step::Makes(63),
    Step::Produced(0, 0, 63),
    Step::Makes(1),
    Step::Produced(0, 0, 65),
    Step::Kept(0, 0, 65, Some(Item::Mark { stamp: 64 })),
    Step::Makes(1),
    Step::Produced(0, 0, 66),
];

// So many trades.
fn trades(alloc: Global, count: u32) -> Result<Vec<u8>, AllocError> {
    let mut trades = Vec::from_slice(alloc, NAMES)?;
    for _row in 0..count {
        trades.extend_from_slice(b"1,1,A,B,1,1\n")?;
    }
    Ok(trades)
}

// Where the plan names none, a mark follows each 64th row.
#[test]
fn marks_the_sixty_fourth_row(rt: HostRuntime) -> Result<(), Fail> {
    let trades = trades(rt.alloc(), 65)?;
    check(rt.alloc(), ONE, &trades, b"", MARKED)
}

const SENT: &[Step] = &[
    Step::IngressIsIdle,
    Step::Makes(2),
    Step::IngressSends(A, FIRST_TUPLE),
    Step::IngressSends(B, FIRST_TUPLE),
    Step::IngressSends(A, END_TUPLE),
    Step::IngressSends(B, END_TUPLE),
    Step::IngressIsIdle,
    Step::GiveIngress(
        CONTROL,
        Body::Ack {
            edge: FIRST_EDGE,
            upto: 1,
        },
    ),
    Step::Kept(0, 0, 1, None),
    Step::GiveIngress(
        B,
        Body::Want {
            edge: FIRST_EDGE,
            from: 1,
        },
    ),
    Step::IngressSends(B, END_TUPLE),
    Step::IngressIsIdle,
    Step::MakesNoMore,
];

// Each item goes to both replicas, again where one of them wants it, and no more once it is acknowledged.
#[test]
fn sends_to_both_replicas(rt: HostRuntime) -> Result<(), Fail> {
    let trades = b"time,account,symbol,side,qty,price\n1,1,A,B,1,1\n";
    check(rt.alloc(), ONE, trades, b"", SENT)
}

const OTHER_CONTROL: NodeId = NodeId::Control { stage: 1, part: 1 };

const OTHER_REPLICA: NodeId = NodeId::Replica {
    stage: 1,
    part: 1,
    which: Which::A,
};

// A sender, an edge from a source to a partition and up to which number it acknowledges that, and whether it is admitted.
const ACKS: &[(NodeId, u32, u32, u64, bool)] = &[
    (OTHER_CONTROL, 0, 1, 7, true),
    (OTHER_CONTROL, 0, 1, (1 << 62) - 1, true),
    (OTHER_CONTROL, 0, 1, 1 << 62, false),
    (CONTROL, 0, 1, 7, false),
    (OTHER_CONTROL, 1, 1, 7, false),
    (NodeId::Control { stage: 2, part: 0 }, 0, 0, 7, false),
    (OTHER_REPLICA, 0, 1, 7, false),
    (NodeId::Egress, 0, 0, 7, false),
];

fn ack(from: u32, to: u32, upto: u64) -> Body {
    let stage = 0;
    Body::Ack {
        edge: EdgeId { stage, from, to },
        upto,
    }
}

// The first of these that is admitted otherwise.
fn first_wrong(nodes: &Boundary) -> Option<usize> {
    for (place, (node, from, to, upto, admitted)) in ACKS.iter().enumerate() {
        let body = ack(*from, *to, *upto);
        if nodes.ingress.admits(&nodes.plan, *node, &body) != *admitted {
            return Some(place);
        }
    }
    None
}

// What no controller or replica of the first stage sends, or names an edge that isn't there, is not admitted.
#[test]
fn admits_its_own_packets_alone(rt: HostRuntime) -> Result<(), Fail> {
    let plan = b"flux 1
stage 1 parts 2 by account keep qty > 0
stage 2 parts 1 by account total account
";
    let nodes = opened(rt.alloc(), plan, NAMES, b"")?;
    none_is_wrong(first_wrong(&nodes))
}

const APART: &[Step] = &[
    Step::Makes(4),
    Step::MakesNoMore,
    Step::Made(4),
    Step::Produced(0, 0, 4),
    Step::Produced(1, 0, 3),
    Step::Kept(1, 0, 2, Some(Item::Mark { stamp: 2 })),
    Step::IngressSendsSome(14),
    Step::IngressIsIdle,
    Step::GiveIngress(
        CONTROL,
        Body::Ack {
            edge: SECOND,
            upto: 1,
        },
    ),
    Step::Kept(0, 0, 1, Some(ROW)),
    Step::Kept(1, 0, 1, None),
    Step::GiveIngress(
        A,
        Body::Want {
            edge: SECOND,
            from: 3,
        },
    ),
    Step::IngressSends(
        A,
        Body::Tuple {
            edge: SECOND,
            number: 3,
            item: Item::End { stamp: 4 },
        },
    ),
    Step::IngressIsIdle,
    Step::Made(4),
];

// The movements are the second source: its rows go on its own edges, marks and the end on those of both.
#[test]
fn keeps_two_sources_apart(rt: HostRuntime) -> Result<(), Fail> {
    let plan = b"flux 2\nmark 2\nstage 1 parts 1 by account total account\n";
    let trades = b"time,account,symbol,side,qty,price\n1,1,A,B,1,1\n3,1,A,B,1,1\n";
    let cash = b"time,account,amount\n2,1,5\n";
    check(rt.alloc(), plan, trades, cash, APART)
}
