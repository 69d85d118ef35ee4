// The end of a run, as texts.
ghost use Rattle.std.specs.Prelude.{◌≡◌, IfOk, List, None};
ghost use Rattle.command_course.specs.Course.{Run};
ghost use Rattle.command_course.specs.Feeds.{IsFed, feed_of};
ghost use Rattle.command_line.specs.Views.{AreInRange, options_in};
ghost use Rattle.run_command.specs.Courses.{run_of};
ghost use Rattle.run_command.specs.Endings.{HasEnded, TextIs, ending_of, journal_of, saved_of};
ghost use Rattle.drained_run.specs.Ended.{EndsSo};
ghost use Rattle.tuple_edge.specs.declared.event.Event.{Event};
ghost use Rattle.tuple_edge.specs.declared.row.Row.{Row};

use crate::outcome::{Journal, Outcome};
use command_course::Feed;
use command_line::RunOptions;
use drained_run::{Gate, Job, run_and_drain, run_unlogged_and_drain};
use failure_script::Script;
use std::alloc::Global;
use std::thread::Threads;
use trade_maker::write_summary;
use trade_text::write_output;
use tuple_edge::{Drained, OutOfMemory, Row};

// The text of the rows that egress emitted, or their summary.
fn text_of(
    alloc: Global,
    feed: &Feed,
    rows: &[Row],
    drained: Drained,
    is_summary: bool,
) -> Result<Vec<u8>, OutOfMemory>
    ensures { IfOk result (λ text. (run : Run) → run.feed ≡ feed_of feed.now → run.summary ≡ is_summary → TextIs run drained rows.now text.items) }
{
    match (is_summary, drained) {
        (false, Drained::Whole) => write_output(alloc, rows, &feed.trades, true),
        (false, Drained::Lost { .. }) => write_output(alloc, rows, &feed.trades, false),
        (true, Drained::Whole) => write_summary(alloc, &feed.trades, rows),
        (true, Drained::Lost { .. }) => Ok(Vec::new(alloc)),
    }
}

// What a run comes to that ended so and emitted these rows, with its journal where a file is named for one.
fn outcome_of<'a>(
    alloc: Global,
    feed: &Feed,
    rows: &[Row],
    drained: Drained,
    journal: Option<Journal<'a>>,
    is_summary: bool,
) -> Result<Outcome<'a>, OutOfMemory>
    ensures { IfOk result (λ outcome. (run : Run) (events : List Event) → run.feed ≡ feed_of feed.now → run.summary ≡ is_summary
        → EndsSo run.feed.plan run.feed.inputs run.script events rows.now drained → saved_of journal.entry ≡ journal_of run.journal events
        → HasEnded run outcome.drained (ending_of outcome)) }
{
    let text = text_of(alloc, feed, rows, drained, is_summary)?;
    Ok(Outcome {
        text,
        journal,
        drained,
    })
}

// Runs a plan for what it is fed with, drains it, and makes the texts of its end. Its events are not written, so there is no
// journal.
fn unlogged_end<'a, R: Threads + Sync, G: Gate>(
    rt: &R,
    alloc: Global,
    feed: &Feed,
    script: &Script,
    options: RunOptions<'a>,
    is_summary: bool,
    gate: &G,
) -> Result<Outcome<'a>, OutOfMemory>
    requires range { AreInRange options }
    requires fed { IsFed feed.now }
    requires unnamed { options.journal ≡ None }
    ensures { IfOk result (λ outcome. HasEnded (run_of (options_in options.entry) is_summary (feed_of feed.now) script.now) outcome.drained (ending_of outcome)) }
{
    let job = Job {
        plan: &feed.plan,
        trades: &feed.trades,
        script,
        threads: options.threads,
        turns: options.turns as u64,
        gate,
    };
    let ended = run_unlogged_and_drain(rt, alloc, &job)?;
    outcome_of(alloc, feed, ended.rows(), ended.drained(), None, is_summary)
}

/// Runs a plan for what it is fed with, drains it, and makes the texts of its end. Its events are written only where a file is
/// named for a journal.
pub(crate) fn run_end<'a, R: Threads + Sync, G: Gate>(
    rt: &R,
    alloc: Global,
    feed: &Feed,
    script: &Script,
    options: RunOptions<'a>,
    is_summary: bool,
    gate: &G,
) -> Result<Outcome<'a>, OutOfMemory>
    requires range { AreInRange options }
    requires fed { IsFed feed.now }
    ensures { IfOk result (λ outcome. HasEnded (run_of (options_in options.entry) is_summary (feed_of feed.now) script.now) outcome.drained (ending_of outcome)) }
{
    let Some(name) = options.journal else {
        return unlogged_end(rt, alloc, feed, script, options, is_summary, gate);
    };
    let job = Job {
        plan: &feed.plan,
        trades: &feed.trades,
        script,
        threads: options.threads,
        turns: options.turns as u64,
        gate,
    };
    let ended = run_and_drain(rt, alloc, &job)?;
    let bytes = ended.journal(alloc)?;
    let journal = Some(Journal { name, bytes });
    outcome_of(
        alloc,
        feed,
        ended.rows(),
        ended.drained(),
        journal,
        is_summary,
    )
}
