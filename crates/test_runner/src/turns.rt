// What a node does in one turn, on one worker: its steps in their order, and how many of each there are at most.
use crate::answer::{is_so, none_is_wrong};
use crate::fixture::{goes_well, run};
use crate::nodes::{egress_of, is_done};
use node_tasks::Acts;
use partition_runner::{FreeGate, Ran, Rings};
use plan_nodes::NodeState;
use replica_node::Replica;
use std::alloc::Global;
use std::test::Fail;
use std::thread::Threads;
use test_kit::{A, ONE, Story, made};
use tuple_edge::{Event, NodeId, OutOfMemory, Stamped};

// What an event is.
#[derive(Clone, Copy, PartialEq, Eq)]
enum Kind {
    Take,
    Make,
    Work,
    Order,
}

fn kind_of(event: Event) -> Kind {
    match event {
        Event::Take { .. } => Kind::Take,
        Event::Make => Kind::Make,
        Event::Work { .. } => Kind::Work,
        _ => Kind::Order,
    }
}

// The kinds of the events of a node, each with how many came one after another.
fn portions(alloc: Global, entries: &[Stamped]) -> Result<Vec<(Kind, u64)>, OutOfMemory> {
    let mut portions = Vec::new(alloc);
    let mut open: Option<(Kind, u64)> = None;
    for entry in entries {
        let kind = kind_of(entry.event);
        let mut count = 0u64;
        if let Some((last, so_far)) = open {
            if last == kind {
                count = so_far;
            } else {
                portions.push((last, so_far))?;
            }
        }
        open = Some((kind, count.saturating_add(1)));
    }
    portions.extend(open)?;
    Ok(portions)
}

// The same of a node of a run.
fn portions_of(alloc: Global, ran: &Ran, node: NodeId) -> Result<Vec<(Kind, u64)>, OutOfMemory> {
    for history in &ran.histories {
        if history.node == node {
            return portions(alloc, &history.entries);
        }
    }
    Ok(Vec::new(alloc))
}

// A plan and a script, so many turns of one worker, and what a node then has done.
struct Case {
    plan: &'static [u8],
    script: &'static [u8],
    turns: u64,
    node: NodeId,
    portions: &'static [(Kind, u64)],
}

// The worker turns ingress, both replicas, their controller and egress, and begins again.
const CASES: &[Case] = &[
    // Rows are made before they are sent, 512 in a turn at most. Each item is sent to both replicas, whose rings hold 128 of
    // them, until some wait.
    Case {
        plan: ONE,
        script: b"",
        turns: 1,
        node: NodeId::Ingress,
        portions: &[(Kind::Make, 512), (Kind::Work, 280)],
    },
    // Rows are made while an edge holds fewer items than the plan says.
    Case {
        plan: b"flux 1\nhold 16\nstage 1 parts 1 by account total account\n",
        script: b"",
        turns: 1,
        node: NodeId::Ingress,
        portions: &[(Kind::Make, 16), (Kind::Work, 32)],
    },
    // The 128 items that a ring holds are taken before they are merged and sent on, and reported.
    Case {
        plan: ONE,
        script: b"",
        turns: 2,
        node: A,
        portions: &[(Kind::Take, 128), (Kind::Work, 257)],
    },
    // Under a script there are at most 64 of each in a turn, of all nodes: so A is given 32 items in its first one.
    Case {
        plan: ONE,
        script: b"kill 1.0.a at 1 back never\n",
        turns: 1,
        node: NodeId::Ingress,
        portions: &[(Kind::Make, 64), (Kind::Work, 64)],
    },
    // An order comes first in the turn after the one in which its count was reached. Behind it come 32 items that have no
    // effect any more, and what egress acknowledges.
    Case {
        plan: ONE,
        script: b"kill 1.0.a at 1 back never\n",
        turns: 7,
        node: A,
        portions: &[
            (Kind::Take, 32),
            (Kind::Work, 64),
            (Kind::Order, 1),
            (Kind::Take, 33),
        ],
    },
];

// Whether a node has done this.
fn has_done(alloc: Global, ran: &Ran, case: &Case) -> Result<bool, OutOfMemory> {
    Ok(portions_of(alloc, ran, case.node)?.as_slice() == case.portions)
}

fn turns_so<R: Threads + Sync>(
    rt: &R,
    alloc: Global,
    story: &Story,
    case: &Case,
) -> Result<bool, OutOfMemory> {
    let outcome = run(rt, alloc, story, 1, case.turns, &mut Rings, &FreeGate)?;
    let well = has_done(alloc, &outcome.ran, case);
    drop(outcome);
    well
}

fn is_as_told<R: Threads + Sync>(rt: &R, alloc: Global, case: &Case) -> Result<bool, OutOfMemory> {
    let story = made(alloc, case.plan, 3, 700, case.script)?;
    let well = turns_so(rt, alloc, &story, case);
    drop(story);
    well
}

fn first_wrong<R: Threads + Sync>(rt: &R, alloc: Global) -> Result<Option<usize>, OutOfMemory> {
    for (place, case) in CASES.iter().enumerate() {
        if !is_as_told(rt, alloc, case)? {
            return Ok(Some(place));
        }
    }
    Ok(None)
}

#[test]
fn a_turn_has_its_steps_in_order(rt: HostRuntime) -> Result<(), Fail> {
    none_is_wrong(first_wrong(&rt, rt.alloc())?)
}

// Eight partitions that answer the end with a row for nearly each of their trades, and nothing before.
const BURST: &[u8] = b"flux 1\nstage 1 parts 8 by account window both 1000000\n";
// Its nodes: ingress, three of each partition, and egress.
const NODES: u64 = 26;

// How many items a replica has sent to its first receiver.
fn sent(replica: &Replica) -> u64 {
    let Some(producer) = replica.producer() else {
        return 0;
    };
    if producer.edges() == 0 || producer.copies() == 0 {
        return 0;
    }
    producer.cursor(0, 0) - 1
}

// The most items that are under way from one replica to egress.
fn most_under_way(ran: &Ran) -> u64 {
    let Some(egress) = egress_of(&ran.nodes) else {
        return 0;
    };
    let merge = egress.consumer().merge();
    let mut most = 0u64;
    for node in &ran.nodes {
        let (NodeId::Replica { part, .. }, NodeState::Replica(replica)) = (node.id(), node) else {
            continue;
        };
        if part < merge.edges() {
            most = most.max(sent(replica).saturating_sub(merge.mark(part)));
        }
    }
    most
}

// Whether a ring is full, with at most what one call of work sends beside it.
fn is_full(under_way: u64) -> bool {
    128 < under_way && under_way <= 128 + 24
}

// The most events of a kind that came one after another.
fn most_at_once(portions: &[(Kind, u64)], kind: Kind) -> u64 {
    let mut most = 0u64;
    for (each, count) in portions {
        if *each == kind {
            most = most.max(*count);
        }
    }
    most
}

// Whether egress took so many packets at once at most.
fn takes_at_most(alloc: Global, ran: &Ran, most: u64) -> Result<bool, OutOfMemory> {
    let portions = portions_of(alloc, ran, NodeId::Egress)?;
    Ok(most_at_once(&portions, Kind::Take) == most)
}

// Whether after so many turns the end has not come to egress, a ring is full, and egress took 512 packets at once at most.
fn is_in_between<R: Threads + Sync>(
    rt: &R,
    alloc: Global,
    story: &Story,
    turns: u64,
) -> Result<bool, OutOfMemory> {
    let outcome = run(rt, alloc, story, 1, turns, &mut Rings, &FreeGate)?;
    let under_way = !is_done(&outcome.ran.nodes) && is_full(most_under_way(&outcome.ran));
    let takes = takes_at_most(alloc, &outcome.ran, 512);
    drop(outcome);
    Ok(under_way && takes?)
}

// Of what eight replicas send, egress takes 512 packets in a turn. A ring holds 128, and a replica goes on working until
// some more wait, of the 24 that one call of work sends. After 23 turns of each node the end has come to all replicas, which
// have some 550 rows each, and not to egress.
#[test]
fn a_turn_takes_a_portion_and_begins_work_while_nothing_waits(rt: HostRuntime) -> Result<(), Fail> {
    let story = made(rt.alloc(), BURST, 3, 5_000, b"")?;
    let well = is_in_between(&rt, rt.alloc(), &story, 23 * NODES);
    drop(story);
    is_so(well?)
}

// The most items under way after so many turns of one worker, if those are legal and emit a front of the output, and
// whether the run is then at its end.
fn runs_full<R: Threads + Sync>(
    rt: &R,
    alloc: Global,
    story: &Story,
    turns: u64,
) -> Result<Option<(u64, bool)>, OutOfMemory> {
    let outcome = run(rt, alloc, story, 1, turns, &mut Rings, &FreeGate)?;
    let well = goes_well(alloc, story, &outcome);
    let (most, done) = (most_under_way(&outcome.ran), is_done(&outcome.ran.nodes));
    drop(outcome);
    Ok(if well? { Some((most, done)) } else { None })
}

// The most items under way after some turns, if all are legal.
fn most_of_some<R: Threads + Sync>(
    rt: &R,
    alloc: Global,
    story: &Story,
) -> Result<Option<u64>, OutOfMemory> {
    let mut most = 0u64;
    for rounds in 5..13 {
        let Some((under_way, _done)) = runs_full(rt, alloc, story, rounds * NODES)? else {
            return Ok(None);
        };
        most = most.max(under_way);
    }
    Ok(Some(most))
}

// Whether a ring was full with some items beside it, and the run then comes to its end.
fn come_through<R: Threads + Sync>(
    rt: &R,
    alloc: Global,
    story: &Story,
) -> Result<bool, OutOfMemory> {
    let Some(most) = most_of_some(rt, alloc, story)? else {
        return Ok(false);
    };
    let Some((_under_way, done)) = runs_full(rt, alloc, story, 1_000_000)? else {
        return Ok(false);
    };
    Ok(is_full(most) && done)
}

// Where a ring is full up to 24 items wait beside it, and no row is lost, doubled or out of its place.
#[test]
fn rows_come_through_full_rings(rt: HostRuntime) -> Result<(), Fail> {
    let story = made(rt.alloc(), BURST, 3, 1_500, b"")?;
    let well = come_through(&rt, rt.alloc(), &story);
    drop(story);
    is_so(well?)
}
