// Runs of small plans, and the cores to which their events lead.
ghost use Rattle.partition_runner.specs.Ran.{IsLegalRun};
ghost use Rattle.std.specs.Prelude.{◌≡◌, IfOk, true};
ghost use Rattle.trade_text.specs.TradesView.{inputs_in};

use crate::clocks::by_clock;
use crate::nodes::{agrees, emitted, is_done};
use flux_core::Core;
use partition_runner::{Gate, Links, Ran, run_over};
use std::alloc::Global;
use std::thread::Threads;
use test_kit::Story;
use tuple_edge::{Event, OutOfMemory};

// Two stages, the first one of two partitions.
pub(crate) const KEPT: &[u8] = b"flux 1
stage 1 parts 2 by account keep qty != 0
stage 2 parts 1 by account total account
";

// Three trades of account 7.
pub(crate) const THREE_TRADES: &[u8] = b"time,account,symbol,side,qty,price
34200,7,A,B,1,1
34200,7,A,B,1,1
34200,7,A,B,1,1
";

/// A run, and all its events in the order of their clocks.
#[derive(Drop)]
pub(crate) struct Outcome {
    pub(crate) ran: Ran,
    pub(crate) events: Vec<Event>,
}

// A run of a story, by 1 to 16 workers.
pub(crate) fn run<R: Threads + Sync, M: Links, G: Gate>(
    rt: &R,
    alloc: Global,
    story: &Story,
    threads: u32,
    turns: u64,
    links: &mut M,
    gate: &G,
) -> Result<Outcome, OutOfMemory>
    ensures { IfOk result (λ outcome. IsLegalRun story.now.plan (inputs_in story.now.trades) story.now.script outcome.ran) }
{
    if threads == 0 || threads > 16 {
        return Err(OutOfMemory);
    }
    let ran = run_over(
        rt,
        alloc,
        &story.plan,
        &story.trades,
        &story.script,
        threads,
        turns,
        links,
        gate,
    )?;
    let events = by_clock(alloc, &ran.histories)?;
    Ok(Outcome { ran, events })
}

/// A core that was made as its plan opens, so that every packet that was ever sent is there.
#[derive(Drop)]
struct Steps {
    core: Core,
    ghost whole: { core.whole ≡ true },
}

impl Steps {
    // Whether an event is a step of the core, which is done then.
    fn does(&mut self, event: Event) -> bool {
        if !self.core.plan().names(&event) {
            return false;
        }
        self.core.apply(event).is_ok()
    }

    // Whether these events are steps one after another.
    fn follows(&mut self, events: &[Event]) -> bool {
        for event in events {
            if !self.does(*event) {
                return false;
            }
        }
        true
    }
}

// The core of a story, as it opens.
fn opened(alloc: Global, story: &Story) -> Result<Steps, OutOfMemory> {
    let core = Core::new(alloc, &story.plan, &story.trades)?;
    Ok(Steps { core })
}

// Whether the events of a run are steps from the opening on, and lead to the nodes that it gave.
pub(crate) fn is_legal(
    alloc: Global,
    story: &Story,
    outcome: &Outcome,
) -> Result<bool, OutOfMemory> {
    let mut steps = opened(alloc, story)?;
    Ok(steps.follows(&outcome.events) && agrees(&steps.core, &outcome.ran))
}

// The core to which these events lead from the opening on, as far as they are steps.
pub(crate) fn led_by(alloc: Global, story: &Story, events: &[Event]) -> Result<Core, OutOfMemory> {
    let mut steps = opened(alloc, story)?;
    let _all = steps.follows(events);
    Ok(steps.core)
}

// Whether these events are steps from the opening on, and lead to all rows of the output.
pub(crate) fn leads_to_all(
    alloc: Global,
    story: &Story,
    events: &[Event],
) -> Result<bool, OutOfMemory> {
    let mut steps = opened(alloc, story)?;
    Ok(steps.follows(events) && steps.core.emitted() == story.output.as_slice())
}

// Whether what egress emitted is a front of the output, and all of it where egress is done.
pub(crate) fn emits_a_front(story: &Story, ran: &Ran) -> bool {
    let rows = emitted(&ran.nodes);
    story.output.starts_with(rows) && (!is_done(&ran.nodes) || rows.len() == story.output.len())
}

// Whether a run is legal, and what egress emitted is a front of the output.
pub(crate) fn goes_well(
    alloc: Global,
    story: &Story,
    outcome: &Outcome,
) -> Result<bool, OutOfMemory> {
    Ok(is_legal(alloc, story, outcome)? && emits_a_front(story, &outcome.ran))
}

// Whether it also comes to its end.
pub(crate) fn ends_well(
    alloc: Global,
    story: &Story,
    outcome: &Outcome,
) -> Result<bool, OutOfMemory> {
    Ok(is_done(&outcome.ran.nodes) && goes_well(alloc, story, outcome)?)
}
