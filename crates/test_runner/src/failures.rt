// Runs under a script.
use crate::answer::{is_so, none_is_wrong};
use crate::fixture::{KEPT, Outcome, ends_well, led_by, run};
use flux_core::Core;
use partition_runner::{FreeGate, Ran, Rings};
use plan_nodes::NodeState;
use replica_node::Mode;
use std::alloc::Global;
use std::test::Fail;
use std::thread::Threads;
use test_kit::{A, ONE, Story, made};
use tuple_edge::{Event, NodeId, OutOfMemory, Which};

// Replica B of the second stage is stopped and asked for again, and a replica of the first one fails.
const SCRIPT: &[u8] = b"stop 2.0.b at 20 back 60\nkill 1.1.a at 30 back never\n";

const STOPPED: NodeId = NodeId::Replica {
    stage: 2,
    part: 0,
    which: Which::B,
};

const FAILED: NodeId = NodeId::Replica {
    stage: 1,
    part: 1,
    which: Which::A,
};

// How often an event stands among others.
fn times(events: &[Event], event: Event) -> usize {
    let mut times = 0usize;
    for other in events {
        if *other == event {
            times = times.saturating_add(1);
        }
    }
    times
}

// How often each event of the script happened.
fn fired(events: &[Event]) -> [usize; 3] {
    [
        times(events, Event::AskStop { node: STOPPED }),
        times(events, Event::AskBack { node: STOPPED }),
        times(events, Event::Kill { node: FAILED }),
    ]
}

// What a replica does at the end of a run, and in which incarnation.
fn mode(ran: &Ran, node: NodeId) -> Option<(Mode, u64)> {
    for each in &ran.nodes {
        if let NodeState::Replica(replica) = each {
            if replica.id() == node {
                return Some((replica.mode(), replica.inc()));
            }
        }
    }
    None
}

// One replica is gone, and the other is in its second incarnation, as each order fired once.
fn each_fired_once(outcome: &Outcome) -> bool {
    fired(&outcome.events) == [1, 1, 1]
        && mode(&outcome.ran, FAILED) == Some((Mode::Gone, 1))
        && mode(&outcome.ran, STOPPED).map(|(_, inc)| inc) == Some(2)
}

fn none_fired_twice(outcome: &Outcome) -> bool {
    fired(&outcome.events).iter().all(|times| *times <= 1)
}

// Whether a run under the script, by so many workers, is legal, emits all of the output, and fires each order once, or none
// of them twice.
fn fails<R: Threads + Sync>(
    rt: &R,
    alloc: Global,
    story: &Story,
    threads: u32,
    each: bool,
) -> Result<bool, OutOfMemory> {
    let outcome = run(rt, alloc, story, threads, 1_000_000, &mut Rings, &FreeGate)?;
    let well = ends_well(alloc, story, &outcome);
    let fired = if each {
        each_fired_once(&outcome)
    } else {
        none_fired_twice(&outcome)
    };
    drop(outcome);
    Ok(well? && fired)
}

// One worker fires each order once.
#[test]
fn each_order_fires_once(rt: HostRuntime) -> Result<(), Fail> {
    let story = made(rt.alloc(), KEPT, 3, 500, SCRIPT)?;
    let well = fails(&rt, rt.alloc(), &story, 1, true);
    drop(story);
    is_so(well?)
}

// Several workers fire none of them twice.
fn fails_by_many<R: Threads + Sync>(
    rt: &R,
    alloc: Global,
    story: &Story,
) -> Result<bool, OutOfMemory> {
    Ok(fails(rt, alloc, story, 2, false)? && fails(rt, alloc, story, 8, false)?)
}

#[test]
fn no_order_fires_twice(rt: HostRuntime) -> Result<(), Fail> {
    let story = made(rt.alloc(), KEPT, 3, 500, SCRIPT)?;
    let well = fails_by_many(&rt, rt.alloc(), &story);
    drop(story);
    is_so(well?)
}

// The events before the first one that is this.
fn before(alloc: Global, events: &[Event], end: Event) -> Result<Vec<Event>, OutOfMemory> {
    let mut earlier = Vec::new(alloc);
    for event in events {
        if *event == end {
            break;
        }
        earlier.push(*event)?;
    }
    Ok(earlier)
}

// How many items a replica of a core has merged.
fn merged(core: &Core, node: NodeId) -> Option<u64> {
    let NodeId::Replica { stage, part, which } = node else {
        return None;
    };
    if !core.plan().has(node) {
        return None;
    }
    Some(core.replica(stage, part, which).count())
}

// How many items the first replica has merged before it fails.
fn merged_at_failure(
    alloc: Global,
    story: &Story,
    events: &[Event],
) -> Result<Option<u64>, OutOfMemory> {
    let earlier = before(alloc, events, Event::Kill { node: A })?;
    let core = led_by(alloc, story, &earlier)?;
    Ok(merged(&core, A))
}

// Whether it has merged so many where it fails in a run of one worker, which is legal and emits the output.
fn fails_after<R: Threads + Sync>(
    rt: &R,
    alloc: Global,
    story: &Story,
    count: u64,
) -> Result<bool, OutOfMemory> {
    let outcome = run(rt, alloc, story, 1, 1_000_000, &mut Rings, &FreeGate)?;
    let well = ends_well(alloc, story, &outcome);
    let merged = merged_at_failure(alloc, story, &outcome.events);
    drop(outcome);
    Ok(well? && merged? == Some(count))
}

// The same under an order to fail at so many.
fn order_comes<R: Threads + Sync>(
    rt: &R,
    alloc: Global,
    at: u64,
    count: u64,
) -> Result<bool, OutOfMemory> {
    let script = format!(in alloc; "kill 1.0.a at {at} back never\n")?;
    let story = made(alloc, ONE, 3, 500, script.as_bytes())?;
    let well = fails_after(rt, alloc, &story, count);
    drop(story);
    well
}

// At how many items a replica is ordered to fail, and at how many it fails.
const ORDERS: &[(u64, u64)] = &[(1, 32), (31, 32), (32, 32), (33, 64), (65, 96)];

fn first_wrong<R: Threads + Sync>(rt: &R, alloc: Global) -> Result<Option<usize>, OutOfMemory> {
    for (place, (at, count)) in ORDERS.iter().enumerate() {
        if !order_comes(rt, alloc, *at, *count)? {
            return Ok(Some(place));
        }
    }
    Ok(None)
}

// Orders are looked at as a turn begins, and in each turn the replica is given 32 items, merges them and sends their answers
// one by one or many at once: it fails as the first turn begins before which its count was reached.
#[test]
fn an_order_comes_as_the_next_turn_begins(rt: HostRuntime) -> Result<(), Fail> {
    none_is_wrong(first_wrong(&rt, rt.alloc())?)
}
