// A consumer, call by call.
use crate::answer::none_is_wrong;
use flux_consumer::Consumer;
use merge_order::Offer;
use std::alloc::Global;
use std::test::Fail;
use tuple_edge::{Item, OutOfMemory, Row};

// A call of a consumer of two in-edges, and what it gives.
#[derive(Clone, Copy)]
enum Call {
    // It is given the item of a number of an edge, and answers so.
    Tuple(u32, u64, Item, Offer),
    // Whether each edge has an item that waits.
    Ready(bool),
    // The next item of the merged list, if it gives one.
    Next(Option<Item>),
    // So many items were merged.
    Count(u64),
    // The edge and the mark that are to be told, if any.
    Due(Option<(u32, u64)>),
    // The mark of an edge is told; the one of an edge that was told last.
    Tell(u32),
    Told(u32, u64),
}

impl Call {
    // Whether a call gives what it has to.
    fn holds(self, consumer: &mut Consumer) -> Result<bool, OutOfMemory> {
        match self {
            Call::Tuple(edge, number, item, offer) => takes(consumer, edge, number, item, offer),
            Call::Ready(ready) => Ok(consumer.ready() == ready),
            Call::Next(item) => Ok(gives(consumer, item)),
            Call::Count(count) => Ok(consumer.merge().count() == count),
            Call::Due(report) => Ok(consumer.report_due() == report),
            Call::Tell(edge) => Ok(tells(consumer, edge)),
            Call::Told(edge, mark) => Ok(has_told(consumer, edge, mark)),
        }
    }
}

fn takes(
    consumer: &mut Consumer,
    edge: u32,
    number: u64,
    item: Item,
    offer: Offer,
) -> Result<bool, OutOfMemory> {
    if edge >= consumer.merge().edges() {
        return Ok(false);
    }
    Ok(consumer.tuple(edge, number, item)? == offer)
}

fn gives(consumer: &mut Consumer, item: Option<Item>) -> bool {
    consumer.merge().count() < 1000 && consumer.next() == item
}

fn tells(consumer: &mut Consumer, edge: u32) -> bool {
    if edge >= consumer.merge().edges() {
        return false;
    }
    consumer.tell(edge);
    true
}

fn has_told(consumer: &Consumer, edge: u32, mark: u64) -> bool {
    edge < consumer.merge().edges() && consumer.told(edge) == mark
}

// The first of these calls of a new consumer that doesn't give what it has to.
fn first_wrong(consumer: &mut Consumer, calls: &[Call]) -> Result<Option<usize>, OutOfMemory> {
    for (place, call) in calls.iter().enumerate() {
        if !call.holds(consumer)? {
            return Ok(Some(place));
        }
    }
    Ok(None)
}

fn wrong_of_new(alloc: Global, calls: &[Call]) -> Result<Option<usize>, OutOfMemory> {
    let mut consumer = Consumer::new(alloc, 2)?;
    let wrong = first_wrong(&mut consumer, calls);
    drop(consumer);
    wrong
}

const MARK: Item = Item::Mark { stamp: 1 };

const TAKES_AND_TELLS: &[Call] = &[
    Call::Tuple(1, 2, MARK, Offer::Gap { mark: 0 }),
    Call::Due(None),
    Call::Tuple(1, 1, MARK, Offer::Taken),
    Call::Tuple(1, 1, MARK, Offer::Repeat { mark: 1 }),
    Call::Due(Some((1, 1))),
    Call::Ready(false),
    Call::Tell(1),
    Call::Told(1, 1),
    Call::Due(None),
    Call::Tuple(0, 1, MARK, Offer::Taken),
    Call::Next(Some(MARK)),
    Call::Count(1),
];

#[test]
fn takes_and_tells(rt: HostRuntime) -> Result<(), Fail> {
    none_is_wrong(wrong_of_new(rt.alloc(), TAKES_AND_TELLS)?)
}

const ROW: Row = Row {
    time: 1,
    account: 1,
    symbol: 1,
    qty: 1,
    value: 1,
};

// The rows of the stamps 1, 2, 3 and 5.
const ROW_1: Item = Item::Row { stamp: 1, row: ROW };

const ROW_2: Item = Item::Row { stamp: 2, row: ROW };

const ROW_3: Item = Item::Row { stamp: 3, row: ROW };

const ROW_5: Item = Item::Row { stamp: 5, row: ROW };

const SECOND_MARK: Item = Item::Mark { stamp: 4 };

const END: Item = Item::End { stamp: 6 };

// The rows of two edges come in the order of their stamps, a mark and the end once for both edges. Between them come
// repeats and gaps, and the marks of the edges are told.
const MERGES_TWO: &[Call] = &[
    Call::Tuple(0, 1, ROW_1, Offer::Taken),
    Call::Tuple(0, 2, ROW_3, Offer::Taken),
    Call::Ready(false),
    Call::Next(None),
    Call::Due(Some((0, 2))),
    Call::Tuple(1, 2, SECOND_MARK, Offer::Gap { mark: 0 }),
    Call::Tuple(1, 1, ROW_2, Offer::Taken),
    Call::Due(Some((0, 2))),
    Call::Tell(0),
    Call::Due(Some((1, 1))),
    Call::Ready(true),
    Call::Next(Some(ROW_1)),
    Call::Next(Some(ROW_2)),
    Call::Next(None),
    Call::Tuple(0, 1, ROW_1, Offer::Repeat { mark: 2 }),
    Call::Tuple(0, 4, END, Offer::Gap { mark: 2 }),
    Call::Tuple(0, 3, SECOND_MARK, Offer::Taken),
    Call::Due(Some((0, 3))),
    Call::Tuple(1, 2, SECOND_MARK, Offer::Taken),
    Call::Next(Some(ROW_3)),
    Call::Next(Some(SECOND_MARK)),
    Call::Ready(false),
    Call::Tuple(0, 4, END, Offer::Taken),
    Call::Tuple(1, 3, ROW_5, Offer::Taken),
    Call::Tuple(1, 4, END, Offer::Taken),
    Call::Tell(1),
    Call::Told(0, 2),
    Call::Told(1, 4),
    Call::Due(Some((0, 4))),
    Call::Next(Some(ROW_5)),
    Call::Next(Some(END)),
    Call::Next(None),
    Call::Tuple(1, 3, ROW_5, Offer::Repeat { mark: 4 }),
    Call::Count(6),
];

#[test]
fn gives_two_edges_in_order(rt: HostRuntime) -> Result<(), Fail> {
    none_is_wrong(wrong_of_new(rt.alloc(), MERGES_TWO)?)
}
