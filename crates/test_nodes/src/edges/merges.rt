// Three edges whose merged list is worked out by hand, and several orders in which their items come.
use crate::answer::{is_so, none_is_wrong};
use merge_order::{Merge, Offer};
use std::alloc::Global;
use std::test::Fail;
use tuple_edge::{Item, OutOfMemory, Row};

const ROW: Row = Row {
    time: 34200,
    account: 7,
    symbol: 1,
    qty: 10,
    value: 0,
};

// Rows that their quantities tell apart, the two marks, and the end.
const ROW_10: Item = Item::Row {
    stamp: 1,
    row: Row { qty: 10, ..ROW },
};

const ROW_20: Item = Item::Row {
    stamp: 2,
    row: Row { qty: 20, ..ROW },
};

const ROW_30: Item = Item::Row {
    stamp: 3,
    row: Row { qty: 30, ..ROW },
};

const ROW_40: Item = Item::Row {
    stamp: 4,
    row: Row { qty: 40, ..ROW },
};

const ROW_50: Item = Item::Row {
    stamp: 5,
    row: Row { qty: 50, ..ROW },
};

const ROW_51: Item = Item::Row {
    stamp: 5,
    row: Row { qty: 51, ..ROW },
};

const ROW_52: Item = Item::Row {
    stamp: 5,
    row: Row { qty: 52, ..ROW },
};

const MARK_2: Item = Item::Mark { stamp: 2 };

const MARK_4: Item = Item::Mark { stamp: 4 };

const END: Item = Item::End { stamp: 5 };

// Four trades with a mark after each second one, and three rows more at the end.
const EDGES: &[&[Item]] = &[
    &[ROW_10, MARK_2, ROW_40, MARK_4, ROW_50, ROW_51, END],
    &[MARK_2, ROW_30, MARK_4, ROW_52, END],
    &[ROW_20, MARK_2, MARK_4, END],
];

const MERGED: &[Item] = &[
    ROW_10, ROW_20, MARK_2, ROW_30, ROW_40, MARK_4, ROW_50, ROW_51, ROW_52, END,
];

// The item of an edge after this mark, if there is one.
fn item_after(edge: u32, mark: u64) -> Option<Item> {
    EDGES.get(edge as usize)?.get(mark as usize).copied()
}

// Whether the next item of an edge is taken.
fn takes_next(merge: &mut Merge, edge: u32) -> Result<bool, OutOfMemory> {
    if edge >= merge.edges() {
        return Ok(false);
    }
    let mark = merge.mark(edge);
    match item_after(edge, mark) {
        Some(item) if mark < 100 => Ok(merge.offer(edge, mark + 1, item)? == Offer::Taken),
        _ => Ok(false),
    }
}

// All that the merge gives meanwhile joins the items.
fn give_on(merge: &mut Merge, items: &mut Vec<Item>) -> Result<(), OutOfMemory> {
    for _turn in 0..100 {
        if merge.count() >= 1000 {
            break;
        }
        let Some(item) = merge.next() else { break };
        items.push(item)?;
    }
    Ok(())
}

// Offers the next items of the edges in this order, and takes all that the merge gives meanwhile. Whether each was taken.
fn give(merge: &mut Merge, order: &[u32], items: &mut Vec<Item>) -> Result<bool, OutOfMemory> {
    for edge in order {
        if !takes_next(merge, *edge)? {
            return Ok(false);
        }
        give_on(merge, items)?;
    }
    Ok(true)
}

// Whether a merge gives these items where those of the three edges come in this order.
fn gives(
    alloc: Global,
    merge: &mut Merge,
    order: &[u32],
    wanted: &[Item],
) -> Result<bool, OutOfMemory> {
    let mut items = Vec::new(alloc);
    let taken = give(merge, order, &mut items)?;
    Ok(taken && items.as_slice() == wanted)
}

fn new_gives(alloc: Global, order: &[u32]) -> Result<bool, OutOfMemory> {
    let mut merge = Merge::new(alloc, 3)?;
    let same = gives(alloc, &mut merge, order, MERGED);
    drop(merge);
    same
}

const ORDERS: &[&[u32]] = &[
    &[0, 0, 0, 0, 0, 0, 0, 1, 1, 1, 1, 1, 2, 2, 2, 2],
    &[2, 2, 2, 2, 1, 1, 1, 1, 1, 0, 0, 0, 0, 0, 0, 0],
    &[0, 1, 2, 0, 1, 2, 0, 1, 2, 0, 1, 2, 0, 1, 0, 0],
    &[1, 1, 1, 1, 1, 2, 0, 2, 0, 2, 0, 2, 0, 0, 0, 0],
];

fn first_wrong_order(alloc: Global) -> Result<Option<usize>, OutOfMemory> {
    for (place, order) in ORDERS.iter().enumerate() {
        if !new_gives(alloc, order)? {
            return Ok(Some(place));
        }
    }
    Ok(None)
}

#[test]
fn any_order_gives_the_merged_list(rt: HostRuntime) -> Result<(), Fail> {
    none_is_wrong(first_wrong_order(rt.alloc())?)
}

// An order of what is left of the edges then.
const REST: &[u32] = &[2, 2, 0, 1, 0, 1, 0, 1, 1, 0, 0];

// Whether a merge of which the first three places were merged gives the others, and has then merged all ten. Those
// places hold two items of the first edge, one of the second, two of the third.
fn started_gives(alloc: Global) -> Result<bool, OutOfMemory> {
    let mut merge = Merge::starting(alloc, &[2, 1, 2], 3)?;
    let rest = MERGED.get(3..).unwrap_or(&[]);
    let same = gives(alloc, &mut merge, REST, rest);
    let count = merge.count();
    drop(merge);
    Ok(same? && count == 10)
}

#[test]
fn goes_on_from_a_count(rt: HostRuntime) -> Result<(), Fail> {
    is_so(started_gives(rt.alloc())?)
}

// Offers to a merge of two edges, and what they are answered.
const OFFERS: &[(u32, u64, Offer)] = &[
    (0, 0, Offer::Repeat { mark: 0 }),
    (0, 2, Offer::Gap { mark: 0 }),
    (0, 1, Offer::Taken),
    (0, 1, Offer::Repeat { mark: 1 }),
    (0, 3, Offer::Gap { mark: 1 }),
    (1, 2, Offer::Gap { mark: 0 }),
    (0, 2, Offer::Taken),
];

fn offered(number: u64) -> Item {
    Item::Mark { stamp: number }
}

// The first of these offers that is answered otherwise.
fn first_wrong_answer(merge: &mut Merge) -> Result<Option<usize>, OutOfMemory> {
    for (place, (edge, number, answer)) in OFFERS.iter().enumerate() {
        if *edge >= merge.edges() || merge.offer(*edge, *number, offered(*number))? != *answer {
            return Ok(Some(place));
        }
    }
    Ok(None)
}

// Two items wait on the first edge, the second of them with this stamp, and none on the other.
fn two_wait(merge: &Merge) -> bool {
    merge.edges() == 2
        && merge.waiting(0) == 2
        && merge.head(0, 1) == Some(MARK_2)
        && merge.head(0, 2).is_none()
        && !merge.ready()
}

fn answers(alloc: Global) -> Result<bool, OutOfMemory> {
    let mut merge = Merge::new(alloc, 2)?;
    let wrong = first_wrong_answer(&mut merge);
    let two = two_wait(&merge);
    drop(merge);
    Ok(wrong?.is_none() && two)
}

#[test]
fn refuses_repeats_and_gaps(rt: HostRuntime) -> Result<(), Fail> {
    is_so(answers(rt.alloc())?)
}
