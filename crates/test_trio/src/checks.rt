// What has to be so in each state.
//
// The rows that were emitted are the first of the run's rows. No buffer has given up an item that isn't acknowledged, and
// none is acknowledged that a replica which runs and counts has not taken. A drain ends with all of the rows; or the group
// is lost, which is so exactly where egress has more to merge and no replica runs and counts, and then it does nothing.
// Neither sends a packet.
use crate::numbers::Numbers;
use crate::story::Story;
use std::alloc::Global;
use test_kit::{Fault, SmallRun, Verdict};
use trio_drain::{Drained, drain};
use tuple_edge::OutOfMemory;

// Whether a replica runs and its controller counts it.
fn serves(numbers: &Numbers, copy: usize) -> bool {
    match (numbers.replicas.get(copy), numbers.control.up.get(copy)) {
        (Some(replica), Some(up)) => replica.is_some() && *up,
        _ => false,
    }
}

// Whether the group has a replica that does.
fn is_served(numbers: &Numbers) -> bool {
    serves(numbers, 0) || serves(numbers, 1) || serves(numbers, 2)
}

// Whether a replica, if it serves, has taken all that its controller acknowledged, and, if it runs, still has all that
// egress hasn't acknowledged.
fn holds(numbers: &Numbers, copy: usize) -> bool {
    let Some(Some(replica)) = numbers.replicas.get(copy) else {
        return true;
    };
    let covers = numbers.control.acked <= replica.taken.mark || !serves(numbers, copy);
    covers && replica.given.low <= numbers.egress.told
}

// Whether what is owed to replicas of the group and to egress is held.
fn is_owed(numbers: &Numbers) -> bool {
    let ends = numbers.ingress.low <= numbers.control.acked
        && numbers.egress.told <= numbers.egress.mark;
    ends && holds(numbers, 0) && holds(numbers, 1) && holds(numbers, 2)
}

// A drain where egress has more to merge and nobody is left.
fn verdict_of_lost(alloc: Global, mut story: Story) -> Result<Verdict, OutOfMemory> {
    let before = story.state(alloc)?;
    let (stage, part) = (1, 0);
    let named = drain(&mut story.core)? == Drained::Lost { stage, part };
    if named && story.is_noted()? && story.state(alloc)? == before {
        return Ok(Verdict::Lost);
    }
    Ok(Verdict::Differs(Fault::Drain))
}

// A drain where egress is done: there is nothing to do.
fn verdict_of_done(alloc: Global, mut story: Story) -> Result<Verdict, OutOfMemory> {
    let before = story.state(alloc)?;
    let whole = drain(&mut story.core)? == Drained::Whole;
    if whole && story.is_noted()? && story.state(alloc)? == before {
        return Ok(Verdict::Whole);
    }
    Ok(Verdict::Differs(Fault::Drain))
}

// A drain where somebody is left.
fn verdict_of_whole(run: &SmallRun, mut story: Story) -> Result<Verdict, OutOfMemory> {
    let whole = drain(&mut story.core)? == Drained::Whole;
    let all = story.core.emitted() == run.rows.as_slice() && story.core.egress().done();
    if whole && all && story.is_noted()? {
        return Ok(Verdict::Whole);
    }
    Ok(Verdict::Differs(Fault::Drain))
}

/// Checks the state of a story, and drains it.
pub(crate) fn verdict_of(
    alloc: Global,
    run: &SmallRun,
    story: Story,
) -> Result<Verdict, OutOfMemory> {
    let emitted = story.core.emitted();
    if !run.rows.starts_with(emitted) {
        return Ok(Verdict::Differs(Fault::Rows));
    }
    let Some(numbers) = Numbers::of(&story.core) else {
        return Ok(Verdict::Differs(Fault::Owed));
    };
    if !is_owed(&numbers) {
        return Ok(Verdict::Differs(Fault::Owed));
    }
    if numbers.done {
        if emitted != run.rows.as_slice() {
            return Ok(Verdict::Differs(Fault::Rows));
        }
        return verdict_of_done(alloc, story);
    }
    if is_served(&numbers) {
        return verdict_of_whole(run, story);
    }
    verdict_of_lost(alloc, story)
}
