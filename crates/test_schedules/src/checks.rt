// What has to be so in each state.
//
// The rows that were emitted are the first of the run's rows. No buffer has given up an item that isn't acknowledged, and
// none is acknowledged that a replica which runs and counts has not taken. A drain ends with all of the rows; or the pair
// is lost, which is so exactly where egress has more to merge and no replica runs and counts, and then it does nothing.
use crate::nodes::{
    consumer_of, control_of, low_of, low_of_ingress, mark_of, producer_of, serves, told_of,
};
use crate::story::Story;
use core_drain::{Drained, drain};
use event_log::EventBlocks;
use flux_core::Core;
use std::alloc::Global;
use test_kit::{Fault, SmallRun, Verdict};
use tuple_edge::{OutOfMemory, Which};

// Whether a buffer that is there has given up no item past the acknowledged ones.
fn is_at_most(low: Option<u64>, acked: u64) -> bool {
    match low {
        Some(low) => low <= acked,
        None => false,
    }
}

// Whether a replica, if it runs and counts, has taken all that its controller acknowledged.
fn covers(core: &Core, which: Which, acked: u64) -> bool {
    match consumer_of(core, which) {
        Some(consumer) => acked <= mark_of(consumer) || !serves(core, which),
        None => true,
    }
}

// Whether a replica, if it runs, still has all that egress hasn't acknowledged.
fn keeps(core: &Core, which: Which, acked: u64) -> bool {
    match producer_of(core, which) {
        Some(producer) => is_at_most(low_of(producer), acked),
        None => true,
    }
}

// Whether what is owed to replicas of the pair is held by ingress.
fn ingress_holds(core: &Core) -> bool {
    let Some(control) = control_of(core) else {
        return false;
    };
    let acked = control.acked(0);
    let covered = covers(core, Which::A, acked) && covers(core, Which::B, acked);
    is_at_most(low_of_ingress(core), acked) && covered
}

// Whether what is owed to egress is held by each replica that runs.
fn pair_holds(core: &Core) -> bool {
    let consumer = core.egress().consumer();
    let acked = told_of(consumer);
    let kept = keeps(core, Which::A, acked) && keeps(core, Which::B, acked);
    acked <= mark_of(consumer) && kept
}

// Whether a drain did nothing.
fn is_empty(alloc: Global, events: &EventBlocks) -> Result<bool, OutOfMemory> {
    let mut all = Vec::new(alloc);
    events.append_to(&mut all)?;
    Ok(all.is_empty())
}

// A drain where egress has more to merge and nobody is left.
fn verdict_of_lost(
    alloc: Global,
    run: &SmallRun,
    mut story: Story,
) -> Result<Verdict, OutOfMemory> {
    let before = story.state(alloc, run)?;
    let mut events = EventBlocks::new(alloc);
    let (stage, part) = (1, 0);
    let named = drain(&mut story.core, &mut events)? == Drained::Lost { stage, part };
    if named && is_empty(alloc, &events)? && story.state(alloc, run)? == before {
        return Ok(Verdict::Lost);
    }
    Ok(Verdict::Differs(Fault::Drain))
}

// A drain where egress is done, or somebody is left.
fn verdict_of_whole(
    alloc: Global,
    run: &SmallRun,
    mut story: Story,
) -> Result<Verdict, OutOfMemory> {
    let was_done = story.core.egress().done();
    let mut events = EventBlocks::new(alloc);
    let whole = drain(&mut story.core, &mut events)? == Drained::Whole;
    let all = story.core.emitted() == run.rows.as_slice();
    if whole && all && story.core.egress().done() && is_empty(alloc, &events)? == was_done {
        return Ok(Verdict::Whole);
    }
    Ok(Verdict::Differs(Fault::Drain))
}

/// Checks the state of a story, and drains it.
pub(crate) fn verdict_of(
    alloc: Global,
    run: &SmallRun,
    story: Story,
) -> Result<Verdict, OutOfMemory> {
    let core = &story.core;
    if !run.rows.starts_with(core.emitted()) {
        return Ok(Verdict::Differs(Fault::Rows));
    }
    if !ingress_holds(core) || !pair_holds(core) {
        return Ok(Verdict::Differs(Fault::Owed));
    }
    let served = serves(core, Which::A) || serves(core, Which::B);
    if core.egress().done() || served {
        return verdict_of_whole(alloc, run, story);
    }
    verdict_of_lost(alloc, run, story)
}
