// Live runs of small plans.
ghost use Rattle.std.specs.Prelude.{◌≤◌, ◌<◌};
ghost use Rattle.trade_text.specs.Limits.{max_inputs};

use failure_script::Script;
use flux_outside::MemSink;
use live_feed::{FreeGate, Live, live};
use plan_reader::Plan;
use std::alloc::Global;
use std::sync::Wait;
use std::thread::Threads;
use trade_text::{Trades, write_output};
use tuple_edge::OutOfMemory;

/// A plan with its trades and a script, and the text of its output.
#[derive(Drop)]
pub(crate) struct Story {
    pub(crate) plan: Plan,
    pub(crate) trades: Trades,
    pub(crate) script: Script,
    pub(crate) text: Vec<u8>,
}

// The story of a plan and a script over so many trades that are made from a number.
pub(crate) fn made(
    alloc: Global,
    plan: &[u8],
    start: u32,
    count: u32,
    script: &[u8],
) -> Result<Story, OutOfMemory>
    requires start { start < 100 }
    requires count { count ≤ max_inputs }
{
    let told = test_kit::made(alloc, plan, start, count, script)?;
    let text = write_output(alloc, &told.output, &told.trades, true)?;
    Ok(Story {
        plan: told.plan,
        trades: told.trades,
        script: told.script,
        text,
    })
}

/// How many turns a worker has at most. Where a pair is lost it has all of them, so they are few.
const TURNS: u64 = 5_000;

// A live run of a story by two workers onto a wire in memory.
pub(crate) fn run_onto<R: Threads + Wait + Sync>(
    rt: &R,
    alloc: Global,
    story: &Story,
    wire: &mut MemSink,
) -> Live {
    live(
        rt,
        alloc,
        &story.plan,
        &story.trades,
        &story.script,
        2,
        TURNS,
        &FreeGate,
        wire,
    )
}

// Whether a live run of a story puts all of its text.
pub(crate) fn puts_all<R: Threads + Wait + Sync>(
    rt: &R,
    alloc: Global,
    story: &Story,
) -> Result<bool, OutOfMemory> {
    let mut wire = MemSink::new(alloc, Vec::new(alloc), 1_000_000, 1_000_000)?;
    let answer = run_onto(rt, alloc, story, &mut wire);
    Ok(answer == Live::Done && wire.taken() == story.text.as_slice())
}
