// Runs without failures: their events drive the core to the nodes that they gave.
ghost use Rattle.std.specs.Prelude.{◌≤◌};

use crate::answer::{is_so, none_is_wrong};
use crate::fixture::{KEPT, THREE_TRADES, goes_well, is_legal, run};
use crate::nodes::{emitted, is_done};
use node_tasks::Acts;
use partition_runner::{FreeGate, Ran, Rings, run_nodes};
use std::alloc::Global;
use std::test::Fail;
use std::thread::Threads;
use test_kit::{A, B, CONTROL, ONE, Story, made, told};
use tuple_edge::{NodeId, OutOfMemory, Row, Which};

// The nodes of the plan of two stages, in their order.
const NODES: &[NodeId] = &[
    NodeId::Ingress,
    A,
    B,
    CONTROL,
    NodeId::Replica {
        stage: 1,
        part: 1,
        which: Which::A,
    },
    NodeId::Replica {
        stage: 1,
        part: 1,
        which: Which::B,
    },
    NodeId::Control { stage: 1, part: 1 },
    NodeId::Replica {
        stage: 2,
        part: 0,
        which: Which::A,
    },
    NodeId::Replica {
        stage: 2,
        part: 0,
        which: Which::B,
    },
    NodeId::Control { stage: 2, part: 0 },
    NodeId::Egress,
];

// Whether a run gave these nodes and no others, and of each a history.
fn has_nodes(ran: &Ran) -> bool {
    let mut nodes = ran.nodes.iter().zip(NODES.iter());
    let mut histories = ran.histories.iter().zip(NODES.iter());
    ran.nodes.len() == NODES.len()
        && ran.histories.len() == NODES.len()
        && nodes.all(|(node, name)| node.id() == *name)
        && histories.all(|(history, name)| history.node == *name)
}

// Whether a run of four workers that have no turn is legal, and nothing has happened.
fn stays_open<R: Threads + Sync>(
    rt: &R,
    alloc: Global,
    story: &Story,
) -> Result<bool, OutOfMemory> {
    let outcome = run(rt, alloc, story, 4, 0, &mut Rings, &FreeGate)?;
    let legal = is_legal(alloc, story, &outcome);
    let nothing = outcome.events.is_empty() && has_nodes(&outcome.ran);
    drop(outcome);
    Ok(legal? && nothing)
}

// Workers that have no turn leave the nodes as they open: all of the plan's, in their order, and nothing has happened.
#[test]
fn no_turn_leaves_the_nodes_as_they_open(rt: HostRuntime) -> Result<(), Fail> {
    let story = told(rt.alloc(), KEPT, THREE_TRADES, b"")?;
    let well = stays_open(&rt, rt.alloc(), &story);
    drop(story);
    is_so(well?)
}

// Whether a run of so many workers over rings is legal, emits a front of the output, and comes so far.
fn runs<R: Threads + Sync>(
    rt: &R,
    alloc: Global,
    story: &Story,
    threads: u32,
    turns: u64,
    ends: bool,
) -> Result<bool, OutOfMemory> {
    let outcome = run(rt, alloc, story, threads, turns, &mut Rings, &FreeGate)?;
    let well = goes_well(alloc, story, &outcome);
    let done = is_done(&outcome.ran.nodes);
    drop(outcome);
    Ok(well? && done == ends)
}

// So many turns of one worker, and whether the run then is at its end.
const TURNS: &[(u64, bool)] = &[(1, false), (11, false), (40, false), (5_000, true)];

fn first_wrong_end<R: Threads + Sync>(
    rt: &R,
    alloc: Global,
    story: &Story,
) -> Result<Option<usize>, OutOfMemory> {
    for (place, (turns, ends)) in TURNS.iter().enumerate() {
        if !runs(rt, alloc, story, 1, *turns, *ends)? {
            return Ok(Some(place));
        }
    }
    Ok(None)
}

// One worker: after few turns the run stands in the middle.
#[test]
fn one_worker_goes_to_the_end(rt: HostRuntime) -> Result<(), Fail> {
    let story = made(rt.alloc(), KEPT, 3, 500, b"")?;
    let wrong = first_wrong_end(&rt, rt.alloc(), &story);
    drop(story);
    none_is_wrong(wrong?)
}

// Whether two to eight workers go to the end.
fn all_numbers_run<R: Threads + Sync>(
    rt: &R,
    alloc: Global,
    story: &Story,
) -> Result<bool, OutOfMemory> {
    for threads in 2..=8 {
        if !runs(rt, alloc, story, threads, 1_000_000, true)? {
            return Ok(false);
        }
    }
    Ok(true)
}

// However many workers there are, the events are steps of the core.
#[test]
fn each_number_of_workers_is_legal(rt: HostRuntime) -> Result<(), Fail> {
    let story = made(rt.alloc(), KEPT, 3, 500, b"")?;
    let well = all_numbers_run(&rt, rt.alloc(), &story);
    drop(story);
    is_so(well?)
}

// Whether a run of one worker, of so many turns, comes to its end.
fn is_finished<R: Threads + Sync>(
    rt: &R,
    alloc: Global,
    story: &Story,
    turns: u64,
) -> Result<bool, OutOfMemory> {
    let outcome = run(rt, alloc, story, 1, turns, &mut Rings, &FreeGate)?;
    Ok(is_done(&outcome.ran.nodes))
}

// Whether it does where an edge holds so many items, of 40 rows more.
fn passes_at<R: Threads + Sync>(rt: &R, alloc: Global, hold: u32) -> Result<bool, OutOfMemory>
    requires { hold ≤ 516 }
{
    let plan = format!(in alloc;
        "flux 1\nmark 4\nhold {hold}\nstage 1 parts 1 by account total account\n"
    )?;
    let story = made(alloc, plan.as_bytes(), 3, hold + 40, b"")?;
    let finished = is_finished(rt, alloc, &story, 400);
    drop(story);
    finished
}

fn all_pass<R: Threads + Sync>(rt: &R, alloc: Global) -> Result<bool, OutOfMemory> {
    for hold in 16..=516u32 {
        if !passes_at(rt, alloc, hold)? {
            return Ok(false);
        }
    }
    Ok(true)
}

// Marks are reported late, but ingress always comes to make its next row, however few items its edges may hold: there are
// 40 rows more than it may hold at once. From 512 on marks are reported alike.
#[test]
fn no_run_stalls_whatever_an_edge_holds(rt: HostRuntime) -> Result<(), Fail> {
    is_so(all_pass(&rt, rt.alloc())?)
}

const FIRST: Row = Row {
    time: 34_200,
    account: 7,
    symbol: 0,
    qty: 1,
    value: 100,
};

// What the total answers to the three trades.
const TOTALS: &[Row] = &[
    FIRST,
    Row {
        qty: 2,
        value: 200,
        ..FIRST
    },
    Row {
        qty: 3,
        value: 300,
        ..FIRST
    },
];

// The run of three trades over rings, on two threads.
fn run_of_three<R: Threads + Sync>(rt: &R, alloc: Global) -> Result<Ran, OutOfMemory> {
    let story = told(alloc, ONE, THREE_TRADES, b"")?;
    let (plan, trades, script) = (&story.plan, &story.trades, &story.script);
    run_nodes(rt, alloc, plan, trades, script, 2, 1_000_000, &FreeGate)
}

// Three trades give three rows.
#[test]
fn three_trades_give_three_rows(rt: HostRuntime) -> Result<(), Fail> {
    let ran = run_of_three(&rt, rt.alloc())?;
    is_so(is_done(&ran.nodes) && emitted(&ran.nodes) == TOTALS)
}
