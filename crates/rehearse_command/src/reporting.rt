// What is told of a run that has ended.
ghost use Rattle.flux_core.specs.Stands.{StandsFor};
ghost use Rattle.command_course.specs.Feeds.{IsFed, feed_of};
ghost use Rattle.listed_run.specs.Listed.{IsListed};
ghost use Rattle.lane_chart.specs.SvgText.{chart_svg};
ghost use Rattle.command_course.specs.Answers.{answer_of, saved_in};
ghost use Rattle.pair_machine.specs.Machine.{State};
ghost use Rattle.rehearse_command.specs.Courses.{run_under};
ghost use Rattle.rehearse_command.specs.Rehearsals.{IsRehearsed, end_of, ending_after, saved_of};
ghost use Rattle.run_rehearsal.specs.Fates.{are_obeyed};
ghost use Rattle.run_rehearsal.specs.Merged.{merged_in};
ghost use Rattle.run_rehearsal.specs.RehearsalText.{rehearsal_text};
ghost use Rattle.run_timeline.specs.Timeline.{timeline};
ghost use Rattle.std.specs.Prelude.{◌≡◌, false, IfOk, length, option_map};
ghost use Rattle.trade_text.specs.TradesView.{inputs_in};

use crate::ends::{end_of, ending_after, rows_in_all};
use crate::picture::picture_if_named;
use crate::watching::watched;
use command_course::{Answer, Feed};
use failure_script::Script;
use flux_core::Core;
use listed_run::Listed;
use plan_reader::Plan;
use run_rehearsal::{are_obeyed, write_rehearsal};
use run_watch::WatchedRun;
use std::alloc::Global;
use tuple_edge::OutOfMemory;

// The text of a run that was watched.
fn text_of(
    alloc: Global,
    script: &Script,
    listed: &Listed,
    watched: &WatchedRun,
    core: &Core,
    all: u64,
) -> Result<Vec<u8>, OutOfMemory>
    ensures { IfOk result (λ text. (s : State) → StandsFor core.now s
        → text.items ≡ rehearsal_text watched.now.told.items script.now (merged_in core.now.plan s) (length listed.now.rows.items) (end_of listed.now.drained) all) }
{
    let rows = listed.rows.as_slice();
    let end = end_of(listed.drained);
    write_rehearsal(
        alloc,
        &watched.told,
        script.orders(),
        core,
        rows.len() as u64,
        end,
        all,
    )
}

// What is to be saved and written of a run that was watched.
fn reported(
    alloc: Global,
    plan: &Plan,
    script: &Script,
    listed: &Listed,
    watched: &WatchedRun,
    core: &Core,
    all: u64,
    svg: Option<&str>,
) -> Result<Answer, OutOfMemory>
    ensures text { IfOk result (λ answer. (s : State) → StandsFor core.now s
        → answer.text.items ≡ rehearsal_text watched.now.told.items script.now (merged_in core.now.plan s) (length listed.now.rows.items) (end_of listed.now.drained) all) }
    ensures saved { IfOk result (λ answer. saved_in answer.saved
        ≡ saved_of (option_map (λ n. n.now) svg.entry) (chart_svg (timeline false plan.now watched.now.frames.items watched.now.told.items (end_of listed.now.drained) all))) }
    ensures ending { IfOk result (λ answer. answer.ending ≡ ending_after (are_obeyed watched.now.told.items script.now) listed.now.drained) }
{
    let saved = picture_if_named(alloc, plan, watched, end_of(listed.drained), all, svg)?;
    let text = text_of(alloc, script, listed, watched, core, all)?;
    let obeyed = are_obeyed(&watched.told, script.orders());
    Ok(Answer {
        text,
        ending: ending_after(obeyed, listed.drained),
        saved,
    })
}

/// What is to be saved and written of a run that has ended: its events are applied again, from the opening on.
pub(crate) fn told_again(
    alloc: Global,
    feed: &Feed,
    script: &Script,
    listed: &Listed,
    svg: Option<&str>,
) -> Result<Answer, OutOfMemory>
    requires fed { IsFed feed.now }
    requires listed { IsListed feed.now.plan (inputs_in feed.now.trades) script.now listed.now }
    ensures { IfOk result (λ answer. IsRehearsed (run_under (feed_of feed.now) script.now) (option_map (λ n. n.now) svg.entry) (answer_of answer)) }
{
    let all = rows_in_all(alloc, feed, listed)?;
    let mut core = Core::new(alloc, &feed.plan, &feed.trades)?;
    let watched = watched(alloc, &mut core, &listed.lines)?;
    reported(alloc, &feed.plan, script, listed, &watched, &core, all, svg)
}
