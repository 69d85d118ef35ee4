// Links that drop, repeat and reorder: the threads get as far as they can, and the drain brings the rest.
ghost use Rattle.partition_runner.specs.Ran.{IsLegalRun};
ghost use Rattle.std.specs.Prelude.{IfOk};
ghost use Rattle.trade_text.specs.TradesView.{inputs_in};

use crate::answer::is_so;
use crate::fixture::{Outcome, emits_a_front, is_legal, leads_to_all, led_by, run};
use crate::nodes::{emitted, is_done};
use core_drain::{Drained, drain};
use event_log::EventBlocks;
use flux_core::Core;
use flux_link::Choice;
use partition_runner::{FreeGate, LossyRings};
use run_journal::merge;
use std::alloc::Global;
use std::process::Abort;
use std::test::Fail;
use std::thread::Threads;
use test_kit::{A, Story, THREE, made};
use tuple_edge::{Event, LinkId, NodeId, OutOfMemory};

// From ingress to the first replica.
const FIRST: LinkId = LinkId {
    from: NodeId::Ingress,
    to: A,
};

// The places, on a link, of the packets that were taken there.
fn taken(alloc: Global, events: &[Event], link: LinkId) -> Result<Vec<u64>, OutOfMemory> {
    let mut taken = Vec::new(alloc);
    for event in events {
        match event {
            Event::Take { link: on, index } if *on == link => taken.push(*index)?,
            _ => {}
        }
    }
    Ok(taken)
}

// So many times these choices.
fn repeated(alloc: Global, choices: &[Choice], times: u32) -> Result<Vec<Choice>, OutOfMemory> {
    let mut all = Vec::new(alloc);
    for _time in 0..times {
        all.extend_from_slice(choices)?;
    }
    Ok(all)
}

// A run of a story by two workers, over links that treat packets so. It is legal, and emits a front of the output.
fn run_treated<R: Threads + Sync + Abort>(
    rt: &R,
    alloc: Global,
    story: &Story,
    turns: u64,
    choices: Vec<Choice>,
) -> Result<Outcome, OutOfMemory>
    ensures { IfOk result (λ outcome. IsLegalRun story.now.plan (inputs_in story.now.trades) story.now.script outcome.ran) }
{
    let mut links = LossyRings::new(alloc, choices);
    let outcome = run(rt, alloc, story, 2, turns, &mut links, &FreeGate)?;
    let legal = is_legal(alloc, story, &outcome)?;
    assert!(rt; legal && emits_a_front(story, &outcome.ran));
    Ok(outcome)
}

// Drains a core, and appends the events of the drain.
fn drain_on(
    alloc: Global,
    core: &mut Core,
    events: &mut Vec<Event>,
) -> Result<Drained, OutOfMemory> {
    let mut drain_events = EventBlocks::new(alloc);
    let drained = drain(core, &mut drain_events)?;
    drain_events.append_to(events)?;
    Ok(drained)
}

// Whether the drain of a core is whole, with all rows of the output. Its events are appended.
fn is_drained(
    alloc: Global,
    story: &Story,
    core: &mut Core,
    events: &mut Vec<Event>,
) -> Result<bool, OutOfMemory> {
    let drained = drain_on(alloc, core, events)?;
    Ok(drained == Drained::Whole && core.emitted() == story.output.as_slice())
}

// Whether the drain from where these events lead is, and so are the events of both.
fn drains_from(alloc: Global, story: &Story, events: &mut Vec<Event>) -> Result<bool, OutOfMemory> {
    let mut core = led_by(alloc, story, events)?;
    let drained = is_drained(alloc, story, &mut core, events);
    drop(core);
    Ok(drained? && leads_to_all(alloc, story, events)?)
}

// The same of the events of a run, which lead to where the threads left the nodes.
fn drains(alloc: Global, story: &Story, outcome: &Outcome) -> Result<bool, OutOfMemory>
    requires { IsLegalRun story.now.plan (inputs_in story.now.trades) story.now.script outcome.now.ran }
{
    let mut merged = merge(alloc, &outcome.ran.histories)?;
    let same = merged == outcome.events;
    Ok(same && drains_from(alloc, story, &mut merged)?)
}

// Whether these are the first packets that were taken from ingress to the first replica.
fn begins_so(alloc: Global, events: &[Event], first: &[u64]) -> Result<bool, OutOfMemory> {
    Ok(taken(alloc, events, FIRST)?.starts_with(first))
}

// Of each four packets one is dropped, one given twice, and one given after the next one. As the first item of every
// edge is dropped, and is not sent again, no item is merged on the threads.
fn loses_all<R: Threads + Sync + Abort>(
    rt: &R,
    alloc: Global,
    story: &Story,
) -> Result<bool, OutOfMemory> {
    let four = [Choice::Drop, Choice::Twice, Choice::Behind, Choice::Pass];
    let outcome = run_treated(rt, alloc, story, 2_000, repeated(alloc, &four, 64)?)?;
    let first = [2, 2, 4, 3, 6, 6, 8, 7, 10, 10, 12, 11];
    let begins = begins_so(alloc, &outcome.events, &first);
    let nothing = emitted(&outcome.ran.nodes).is_empty();
    let drained = drains(alloc, story, &outcome);
    drop(outcome);
    Ok(begins? && nothing && drained?)
}

#[test]
fn what_is_lost_is_drained(rt: HostRuntime) -> Result<(), Fail> {
    let story = made(rt.alloc(), THREE, 3, 500, b"")?;
    let well = loses_all(&rt, rt.alloc(), &story);
    drop(story);
    is_so(well?)
}

// 200 packets that pass, one that is dropped, and one that is given after the next one.
fn dropped_in_the_middle(alloc: Global) -> Result<Vec<Choice>, OutOfMemory> {
    let mut choices = repeated(alloc, &[Choice::Pass], 200)?;
    choices.extend_from_slice(&[Choice::Drop, Choice::Behind])?;
    Ok(choices)
}

// Some rows come on the threads, and the others of the drain.
fn loses_some<R: Threads + Sync + Abort>(
    rt: &R,
    alloc: Global,
    story: &Story,
) -> Result<bool, OutOfMemory> {
    let outcome = run_treated(rt, alloc, story, 2_000, dropped_in_the_middle(alloc)?)?;
    let some = !is_done(&outcome.ran.nodes) && !emitted(&outcome.ran.nodes).is_empty();
    let drained = drains(alloc, story, &outcome);
    drop(outcome);
    Ok(some && drained?)
}

#[test]
fn a_loss_in_the_middle_is_drained(rt: HostRuntime) -> Result<(), Fail> {
    let story = made(rt.alloc(), THREE, 3, 500, b"")?;
    let well = loses_some(&rt, rt.alloc(), &story);
    drop(story);
    is_so(well?)
}

// Where each packet comes twice, the threads go to the end, and each row is emitted once.
fn takes_twice<R: Threads + Sync + Abort>(
    rt: &R,
    alloc: Global,
    story: &Story,
) -> Result<bool, OutOfMemory> {
    let choices = repeated(alloc, &[Choice::Twice], 1_000)?;
    let outcome = run_treated(rt, alloc, story, 1_000_000, choices)?;
    let begins = begins_so(alloc, &outcome.events, &[1, 1, 2, 2, 3, 3]);
    let done = is_done(&outcome.ran.nodes);
    drop(outcome);
    Ok(begins? && done)
}

#[test]
fn what_comes_twice_counts_once(rt: HostRuntime) -> Result<(), Fail> {
    let story = made(rt.alloc(), THREE, 3, 500, b"")?;
    let well = takes_twice(&rt, rt.alloc(), &story);
    drop(story);
    is_so(well?)
}
