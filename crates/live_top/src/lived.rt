// The run itself, written while it goes on.
ghost use Rattle.live_feed.specs.declared.answer.Live.TheVariants as live;
ghost use Rattle.live_top.specs.Runs.{RunLives};
ghost use Rattle.live_top.specs.Stops.{NamesLost, StopsLive};
ghost use Rattle.command_course.specs.Feeds.{feed_of};
ghost use Rattle.std.specs.Prelude.{IfErr, OnOk};

use crate::given::{Given, NAME};
use command_course::Stop;
use command_line::{DEFAULT_THREADS, DEFAULT_TURNS};
use flux_outside::Sink;
use flux_top::line_of_loss;
use live_feed::{Gate, Live, live};
use std::alloc::Global;
use std::sync::Wait;
use std::thread::Threads;

// A live run.
fn answer<R: Threads + Wait + Sync, S: Sink + Send, G: Gate>(
    rt: &R,
    alloc: Global,
    given: &Given,
    gate: &G,
    out: &mut S,
) -> Live
    ensures { RunLives (feed_of given.now.feed) given.now.script (S.told out.old) (S.told out.new) result }
{
    live(
        rt,
        alloc,
        &given.feed.plan,
        &given.feed.trades,
        &given.script,
        DEFAULT_THREADS,
        u64::from(DEFAULT_TURNS),
        gate,
        out,
    )
}

/// Runs what was given, and writes its rows meanwhile.
pub(crate) fn lived<R: Threads + Wait + Sync, S: Sink + Send, G: Gate>(
    rt: &R,
    alloc: Global,
    given: &Given,
    gate: &G,
    out: &mut S,
) -> Result<(), Stop>
    ensures done { OnOk result (RunLives (feed_of given.now.feed) given.now.script (S.told out.old) (S.told out.new) live.Done) }
    ensures stops { IfErr result (λ stop. StopsLive (feed_of given.now.feed) given.now.script (S.told out.old) (S.told out.new) stop) }
{
    match answer(rt, alloc, given, gate, out) {
        Live::Done => Ok(()),
        Live::Lost { stage, part } => Err(lost(alloc, stage, part)),
        Live::WriteFault => Err(Stop::CannotWrite),
        Live::OutOfMemory => Err(Stop::OutOfMemory),
    }
}

// Why a run stops in which this pair was lost.
fn lost(alloc: Global, stage: u32, part: u32) -> Stop
    ensures { NamesLost stage part result }
{
    match line_of_loss(alloc, NAME, stage, part) {
        Ok(line) => Stop::PairLost { stage, part, line },
        Err(_) => Stop::OutOfMemory,
    }
}
