// A survivor that is told to serve its partner anew while its move to the incarnation before is under way.
use crate::replicas::fixture::{Event, ROW, Step, first_wrong};
use std::test::Fail;
use test_kit::{B, CONTROL, ONE};
use tuple_edge::{Body, Entry, Item, Key, Row, Which};

// Its move's part of this number to this incarnation of its partner.
fn part(inc: u64, number: u64, entry: Entry) -> Step {
    Step::Sends(Event::Work, B, Body::Chunk { inc, number, entry })
}

// It is told to serve that incarnation.
fn serve(target: u64) -> Step {
    Step::Does(Event::Give(CONTROL, Body::Serve { inc: 1, target }))
}

// The n-th total of account 7, which is kept until it is acknowledged.
fn kept(number: u64, qty: i64, value: i64) -> Entry {
    let row = Row {
        symbol: 0,
        qty,
        value,
        ..ROW
    };
    let item = Item::Row { stamp: number, row };
    Entry::Kept {
        edge: 0,
        number,
        item,
    }
}

const MARK: Entry = Entry::Mark { edge: 0, upto: 3 };

const COUNT: Entry = Entry::Count { count: 3 };

const LOW: Entry = Entry::Low {
    edge: 0,
    upto: 0,
    produced: 3,
};

const SUM: Entry = Entry::Keyed {
    key: Key {
        account: 7,
        symbol: 0,
    },
    slot: 0,
    qty: 3,
    value: 300,
    window: 0,
};

// The move to the second incarnation ends where the third one is to be served, and that one's begins with its first part. Orders
// to serve an incarnation that was served change nothing.
fn served_anew() -> [Step; 19] {
    [
        Step::Does(Event::Merge(1, 3)),
        serve(2),
        part(2, 1, MARK),
        part(2, 2, COUNT),
        serve(3),
        Step::Served(3),
        Step::Has([true, true, true, true, false]),
        part(3, 1, MARK),
        serve(2),
        serve(3),
        part(3, 2, COUNT),
        part(3, 3, LOW),
        part(3, 4, kept(1, 1, 100)),
        part(3, 5, kept(2, 2, 200)),
        part(3, 6, kept(3, 3, 300)),
        part(3, 7, SUM),
        Step::Sends(Event::Work, B, Body::ChunkEnd { inc: 3, count: 7 }),
        Step::Served(3),
        Step::Has([true, true, true, false, false]),
    ]
}

#[test]
fn a_survivor_serves_anew_under_a_move(rt: HostRuntime) -> Result<(), Fail> {
    let wrong = first_wrong(rt.alloc(), ONE, Which::A, &served_anew())?;
    assert_eq!(rt; wrong, None);
    Ok(())
}
