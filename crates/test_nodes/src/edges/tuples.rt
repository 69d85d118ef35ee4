// Values worked out by hand, and an outbox that is used once.
use crate::answer::{is_so, none_is_wrong};
use std::test::Fail;
use test_kit::{A, B, CONTROL};
use tuple_edge::{
    Body, Column, Item, NodeId, OutOfMemory, Outbox, Row, Which, route, saturating_sum_of,
};

fn row(symbol: i64) -> Row {
    Row {
        time: 1,
        account: 2,
        symbol,
        qty: 3,
        value: 4,
    }
}

const ROUTED: &[(i64, u32)] = &[(-7, 2), (-6, 0), (-1, 2), (0, 0), (7, 1)];

#[test]
fn routes_by_the_remainder() -> Result<(), Fail> {
    let mut routed = ROUTED.iter();
    none_is_wrong(routed.position(|(symbol, part)| route(&row(*symbol), Column::Symbol, 3)
        != *part))
}

const MOST: i64 = 9_000_000_000_000_000_000;

const SUMS: &[(i64, i64, i64)] = &[
    (MOST - 5, 10, MOST),
    (MOST, -1, MOST - 1),
    (-MOST, -1, -MOST),
    (2, 3, 5),
];

#[test]
fn sums_stop_at_the_bound() -> Result<(), Fail> {
    let mut sums = SUMS.iter();
    none_is_wrong(sums.position(|(a, b, sum)| saturating_sum_of(*a, *b) != *sum))
}

const TRADE: Item = Item::Row {
    stamp: 5,
    row: Row {
        time: 1,
        account: 2,
        symbol: 1,
        qty: 3,
        value: 4,
    },
};

const MARK: Item = Item::Mark { stamp: 5 };

const END: Item = Item::End { stamp: 6 };

// Two items, their edges, and whether the first one comes before the other.
const ORDERED: &[(Item, Item, u32, u32, bool)] = &[
    (TRADE, TRADE, 0, 1, true),
    (TRADE, TRADE, 1, 1, false),
    (TRADE, MARK, 3, 0, true),
    (MARK, END, 3, 0, true),
    (END, TRADE, 0, 1, false),
];

#[test]
fn orders_items() -> Result<(), Fail> {
    let mut ordered = ORDERED.iter();
    none_is_wrong(ordered.position(|(item, other, on, other_on, first)| {
        item.before(other, *on, *other_on) != *first
    }))
}

const NEXT: NodeId = NodeId::Replica {
    stage: 1,
    part: 1,
    which: Which::A,
};

// Each node comes before the one beside it.
const RISING: &[(NodeId, NodeId)] = &[
    (NodeId::Ingress, A),
    (A, B),
    (B, CONTROL),
    (CONTROL, NEXT),
    (NEXT, NodeId::Egress),
];

#[test]
fn orders_nodes() -> Result<(), Fail> {
    let mut rising = RISING.iter();
    none_is_wrong(rising.position(|(node, other)| !(*node < *other)))
}

// Two packets, one behind the other, and none after them.
fn has_two(out: &Outbox) -> bool {
    out.len() == 2
        && out.get(0) == Some((NodeId::Egress, Body::AskBack))
        && out.get(1) == Some((NodeId::Ingress, Body::Begin { inc: 2 }))
        && out.get(2).is_none()
}

fn keeps_two(out: &mut Outbox) -> Result<bool, OutOfMemory> {
    out.reserve(2)?;
    out.push(NodeId::Egress, Body::AskBack);
    out.push(NodeId::Ingress, Body::Begin { inc: 2 });
    let two = has_two(out);
    out.clear();
    Ok(two && out.is_empty())
}

#[test]
fn keeps_packets_in_order(rt: HostRuntime) -> Result<(), Fail> {
    let mut out = Outbox::new(rt.alloc());
    is_so(keeps_two(&mut out)?)
}
