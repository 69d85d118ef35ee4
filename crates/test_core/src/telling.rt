// What is told of a story.
ghost use Rattle.std.specs.Prelude.{true};

use crate::again::again;
use crate::fault::Fault;
use crate::inputs::Inputs;
use crate::story::Story;
use core_drain::Drained;
use evaluation::evaluate;
use event_log::EventBlocks;
use flux_core::ApplyError;
use run_journal::{Lined, write_events};
use std::alloc::Global;
use std::io::Write;
use trade_text::write_output;
use tuple_edge::{Event, OutOfMemory, Row};

/// Writes a text as it is.
pub(crate) fn put(rt: &HostRuntime, text: &[u8]) -> Result<(), Fault> {
    match rt.stdout().write_all(text) {
        Ok(()) => Ok(()),
        Err(_) => Err(Fault::CannotWrite),
    }
}

// Applies an event; where it is no step, says why.
fn apply(rt: &HostRuntime, story: &mut Story, lined: &Lined) -> Result<(), Fault> {
    let Err(error) = story.apply(lined.event) else {
        return Ok(());
    };
    if error == ApplyError::OutOfMemory {
        return Err(Fault::OutOfMemory);
    }
    let line = lined.line;
    println!(rt; "line {line}: {error:?}")?;
    Ok(())
}

// The core after the events of a story.
fn followed(rt: &HostRuntime, alloc: Global, inputs: &Inputs) -> Result<Story, Fault> {
    let mut story = again(|| Story::new(alloc, &inputs.plan, &inputs.trades))?;
    for lined in &inputs.events {
        apply(rt, &mut story, lined)?;
    }
    Ok(story)
}

// How a drain ended, and by how many events.
#[derive(Clone, Copy)]
struct Ending {
    drained: Drained,
    events: usize,
}

// One make, as a list of events.
fn one_make(alloc: Global) -> Result<EventBlocks, OutOfMemory> {
    let mut events = EventBlocks::new(alloc);
    events.reserve(1)?;
    events.push_reserved(Event::Make);
    Ok(events)
}

// All events of a list, one by one.
fn each_of(alloc: Global, events: &EventBlocks) -> Result<Vec<Event>, OutOfMemory> {
    let mut all = Vec::new(alloc);
    events.append_to(&mut all)?;
    Ok(all)
}

// Drains a core once.
fn drained(alloc: Global, story: &mut Story, events: &mut EventBlocks) -> Result<Ending, Fault> {
    let listed = again(|| each_of(alloc, events))?.len();
    let drained = again(|| story.drain(events))?;
    let all = again(|| each_of(alloc, events))?.len();
    Ok(Ending {
        drained,
        events: all.saturating_sub(listed),
    })
}

// Whether a core has this state.
fn has_state(alloc: Global, story: &Story, inputs: &Inputs, state: &[u8]) -> Result<bool, Fault> {
    let now = again(|| story.state(alloc, &inputs.trades))?;
    Ok(now.as_slice() == state)
}

// Drains a core, and says how that ended, and whether the state is then as it was.
fn tell_end(
    rt: &HostRuntime,
    alloc: Global,
    story: &mut Story,
    inputs: &Inputs,
    events: &mut EventBlocks,
) -> Result<(), Fault> {
    let before = again(|| story.state(alloc, &inputs.trades))?;
    let Ending {
        drained,
        events: count,
    } = drained(alloc, story, events)?;
    let state = if has_state(alloc, story, inputs, &before)? {
        "stays"
    } else {
        "changes"
    };
    println!(rt; "{drained:?} by {count} events, the state {state}")?;
    Ok(())
}

// Drains a core twice, and says how both ended. The events of the drains are listed after one make that was listed before.
fn drained_twice(
    rt: &HostRuntime,
    alloc: Global,
    story: &mut Story,
    inputs: &Inputs,
) -> Result<Vec<Event>, Fault> {
    let mut events = again(|| one_make(alloc))?;
    tell_end(rt, alloc, story, inputs, &mut events)?;
    tell_end(rt, alloc, story, inputs, &mut events)?;
    Ok(again(|| each_of(alloc, &events))?)
}

// The rows that the plan gives for the trades.
fn output(alloc: Global, inputs: &Inputs) -> Result<Vec<Row>, Fault> {
    if inputs.trades.merged() != (inputs.plan.version() == 2) {
        return Err(Fault::Form);
    }
    Ok(evaluate(alloc, &inputs.plan, &inputs.trades)?)
}

// How many rows were emitted, and what they are of the plan's output.
fn tell_count(rt: &HostRuntime, alloc: Global, rows: &[Row], inputs: &Inputs) -> Result<(), Fault> {
    let output = again(|| output(alloc, inputs))?;
    let count = rows.len();
    let all = output.len();
    let what = if output.starts_with(rows) {
        "the first"
    } else {
        "not the first"
    };
    println!(rt; "{count} rows: {what} of {all}")?;
    Ok(())
}

/// Tells which of a story's events are no step, and the state that the others reach.
pub(crate) fn tell_state(rt: &HostRuntime, alloc: Global, inputs: &Inputs) -> Result<(), Fault> {
    let story = followed(rt, alloc, inputs)?;
    put(rt, &again(|| story.state(alloc, &inputs.trades))?)
}

/// Tells how many rows there are after a story's events, how the drain then ends, and how many rows there are then.
pub(crate) fn tell_ending(rt: &HostRuntime, alloc: Global, inputs: &Inputs) -> Result<(), Fault> {
    let mut story = followed(rt, alloc, inputs)?;
    tell_count(rt, alloc, story.core.emitted(), inputs)?;
    let _events = drained_twice(rt, alloc, &mut story, inputs)?;
    tell_count(rt, alloc, story.core.emitted(), inputs)
}

/// Tells what is drained after a story's events: how that ends, by which events, and all rows.
pub(crate) fn tell_drain(rt: &HostRuntime, alloc: Global, inputs: &Inputs) -> Result<(), Fault> {
    let mut story = followed(rt, alloc, inputs)?;
    let events = drained_twice(rt, alloc, &mut story, inputs)?;
    put(rt, &again(|| write_events(alloc, &events))?)?;
    let rows = story.core.emitted();
    put(
        rt,
        &again(|| write_output(alloc, rows, &inputs.trades, true))?,
    )
}
