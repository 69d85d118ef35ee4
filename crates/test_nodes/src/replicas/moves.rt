// A move between the two replicas of a pair.
use crate::answer::{is_so, none_is_wrong};
use crate::replicas::fixture::{Event, Node, Step, opened};
use replica_node::Mode;
use std::alloc::Global;
use std::test::Fail;
use test_kit::{A, B, CONTROL, FIRST_EDGE, ONE};
use tuple_edge::{Body, Entry, Key, NodeId, OutOfMemory, Which};

// A survivor has merged three items and serves its partner's second incarnation.
const SURVIVOR: &[Step] = &[
    Step::Does(Event::Merge(1, 3)),
    Step::Does(Event::Give(CONTROL, Body::Serve { inc: 1, target: 2 })),
];

// Its partner begins anew in its second incarnation; an order to stop the first one comes late.
const BEGINS: Step = Step::Does(Event::Give(CONTROL, Body::Begin { inc: 2 }));

const STOPS_LATE: Step = Step::Does(Event::Give(CONTROL, Body::Stop { inc: 1 }));

// The next part of the survivor's move, which goes to its partner.
fn part_of(survivor: &mut Node) -> Result<Option<Body>, OutOfMemory> {
    if !survivor.does(Event::Work)? {
        return Ok(None);
    }
    Ok(match survivor.out.get(0) {
        Some((to, body)) if to == B => Some(body),
        _ => None,
    })
}

// The first two parts of the survivor's move, if it gives them.
fn two_parts(alloc: Global, survivor: &mut Node) -> Result<(Option<Body>, Option<Body>), Fail> {
    if !survivor.goes(alloc, SURVIVOR)? {
        return Ok((None, None));
    }
    let first = part_of(survivor)?;
    let second = part_of(survivor)?;
    Ok((first, second))
}

fn first_parts(alloc: Global) -> Result<(Option<Body>, Option<Body>), Fail> {
    let mut survivor = opened(alloc, ONE, Which::A)?;
    let parts = two_parts(alloc, &mut survivor);
    drop(survivor);
    parts
}

// It takes a part of its move.
fn takes(part: Body) -> Step {
    Step::Does(Event::Give(A, part))
}

// It takes a part of its move, and wants the items of ingress above the move's mark.
fn wants(part: Body) -> Step {
    let (edge, from) = (FIRST_EDGE, 4);
    Step::Sends(
        Event::Give(A, part),
        NodeId::Ingress,
        Body::Want { edge, from },
    )
}

// The end of the move comes first, and counts for nothing yet.
const END_FIRST: &[Step] = &[
    BEGINS,
    STOPS_LATE,
    Step::Does(Event::Give(A, Body::ChunkEnd { inc: 2, count: 7 })),
    Step::Taken(0),
];

// The second of two parts comes first, and is not taken. The first one makes the newcomer want the items above the mark
// that it tells, and is taken, though no second time.
fn takes_in_order(
    alloc: Global,
    node: &mut Node,
    first: Body,
    second: Body,
) -> Result<bool, OutOfMemory> {
    Ok(
        node.goes(alloc, END_FIRST)?
            && node.goes(alloc, &[takes(second), Step::Taken(0)])?
            && node.goes(alloc, &[wants(first), Step::Taken(1)])?
            && node.goes(alloc, &[takes(first), Step::Taken(1)])?
            && node.goes(alloc, &[takes(second), Step::Taken(2)])?,
    )
}

fn newcomer_takes(alloc: Global, first: Body, second: Body) -> Result<bool, Fail> {
    let mut node = opened(alloc, ONE, Which::B)?;
    let well = takes_in_order(alloc, &mut node, first, second);
    drop(node);
    Ok(well?)
}

// Chunks are taken in their order, each once; the end counts only after the last of them.
#[test]
fn chunks_come_in_any_order(rt: HostRuntime) -> Result<(), Fail> {
    let (Some(first), Some(second)) = first_parts(rt.alloc())? else {
        return Err(Fail::new("no two parts"));
    };
    is_so(newcomer_takes(rt.alloc(), first, second)?)
}

// The next part of the move goes from the survivor to its partner, which gathers, whatever that sends.
fn passes(survivor: &mut Node, node: &mut Node) -> Result<bool, OutOfMemory> {
    if node.replica.mode() != Mode::Gathering {
        return Ok(false);
    }
    match part_of(survivor)? {
        Some(part) => node.does(Event::Give(A, part)),
        None => Ok(false),
    }
}

// The survivor gives its whole move.
fn passes_all(survivor: &mut Node, node: &mut Node) -> Result<bool, OutOfMemory> {
    let mut all = true;
    for _part in 0..8u32 {
        all = all && passes(survivor, node)?;
    }
    Ok(all && survivor.replica.mover().is_none())
}

// A survivor gives its whole move to a newcomer, which tells its controller.
fn gives_all(alloc: Global, survivor: &mut Node, node: &mut Node) -> Result<bool, OutOfMemory> {
    Ok(
        survivor.goes(alloc, SURVIVOR)?
            && passes_all(survivor, node)?
            && node.out.get(0) == Some((CONTROL, Body::Caught { inc: 2 })),
    )
}

fn catches_up(alloc: Global, node: &mut Node) -> Result<bool, Fail> {
    let mut survivor = opened(alloc, ONE, Which::A)?;
    let given = gives_all(alloc, &mut survivor, node);
    drop(survivor);
    Ok(given?)
}

// What a total of account 7 keeps of four rows.
const SUM_OF_FOUR: Entry = Entry::Keyed {
    key: Key {
        account: 7,
        symbol: 0,
    },
    slot: 0,
    qty: 4,
    value: 400,
    window: 0,
};

// What is done with the newcomer before the whole move, and what comes of it then.
const MOVES: &[(&[Step], &[Step])] = &[
    // It runs with what it held: that is folded in as far as it follows the move's mark without a gap.
    (
        &[BEGINS, STOPS_LATE],
        &[
            Step::Is(Mode::Running, 2),
            Step::Count(3),
            Step::Served(0),
            Step::Mark(3),
            Step::Buffered(0, 3),
        ],
    ),
    (
        &[
            BEGINS,
            STOPS_LATE,
            Step::Does(Event::Item(4)),
            Step::Does(Event::Item(5)),
        ],
        &[
            Step::Is(Mode::Running, 2),
            Step::Count(3),
            Step::Served(0),
            Step::Mark(5),
            Step::Buffered(0, 3),
        ],
    ),
    (
        &[BEGINS, STOPS_LATE, Step::Does(Event::Item(5))],
        &[
            Step::Is(Mode::Running, 2),
            Step::Count(3),
            Step::Served(0),
            Step::Mark(3),
            Step::Buffered(0, 3),
        ],
    ),
    // The operator goes on with the sums of the items that were merged before the move.
    (
        &[BEGINS, STOPS_LATE, Step::Does(Event::Item(4))],
        &[Step::Does(Event::Work), Step::Keeps(&[SUM_OF_FOUR])],
    ),
];

// Whether a newcomer that comes to this before the whole move comes to that after it.
fn moves_so(alloc: Global, node: &mut Node, before: &[Step], then: &[Step]) -> Result<bool, Fail> {
    Ok(node.goes(alloc, before)? && catches_up(alloc, node)? && node.goes(alloc, then)?)
}

fn newcomer_moves_so(alloc: Global, before: &[Step], then: &[Step]) -> Result<bool, Fail> {
    let mut node = opened(alloc, ONE, Which::B)?;
    let well = moves_so(alloc, &mut node, before, then);
    drop(node);
    well
}

fn first_wrong(alloc: Global) -> Result<Option<usize>, Fail> {
    for (nth, (before, then)) in MOVES.iter().enumerate() {
        if !newcomer_moves_so(alloc, before, then)? {
            return Ok(Some(nth));
        }
    }
    Ok(None)
}

#[test]
fn a_newcomer_goes_on_from_the_move(rt: HostRuntime) -> Result<(), Fail> {
    none_is_wrong(first_wrong(rt.alloc())?)
}
