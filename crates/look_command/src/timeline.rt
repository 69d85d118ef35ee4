// The command `timeline`.
ghost use Rattle.command_course.specs.Steps.{GivesBy, OnlyReads, StopsBy};
ghost use Rattle.command_course.specs.Feeds.{IsFed, feed_of};
ghost use Rattle.flux_core.specs.CoreView.{flow_in};
ghost use Rattle.flux_core.specs.Stands.{StandsFor};
ghost use Rattle.look_command.specs.Courses.{columns_for, drawing, drawing_of, draws, timeline_telling, timeline_way};
ghost use Rattle.pair_machine.specs.Machine.{State};
ghost use Rattle.run_end.specs.Ends.{end_in};
ghost use Rattle.command_course.specs.Answers.{answer_of};
ghost use Rattle.look_command.specs.declared.report.ReportError.TheVariants as report_error;
ghost use Rattle.std.specs.Prelude.{◌≡◌, ◌≤◌, IfErr, IfOk, option_map};

use crate::all::rows_in_all;
use crate::ended::ended;
use crate::report::{Report, ReportError, reported_at};
use command_course::{Answer, Feed, Stop, feed_at};
use flux_core::Core;
use flux_outside::Files;
use lane_chart::{write_svg, write_text};
use look_json::write_chart_json;
use plan_reader::Plan;
use run_end::{RunEnd, run_end};
use run_journal::Lined;
use run_timeline::chart_of;
use run_watch::{WatchedRun, watch};
use std::alloc::Global;
use tuple_edge::OutOfMemory;

/// Into how many columns events are cut at most: of letters, and of pixels.
const TEXT_COLUMNS: u32 = 100;

const SVG_COLUMNS: u32 = 960;

/// How a chart is written.
#[derive(Clone, Copy, Debug, PartialEq, Eq)]
pub enum Drawing {
    /// As text.
    Text,
    /// As SVG.
    Svg,
    /// As JSON, with the columns of the text.
    Json,
}

// How a chart is to be written, by the options.
fn drawing_of(svg: bool, json: bool) -> Drawing
    ensures { result ≡ drawing_of svg json }
{
    if json {
        Drawing::Json
    } else if svg {
        Drawing::Svg
    } else {
        Drawing::Text
    }
}

/// What `timeline` writes: a drawing of what happened in a run.
#[tactic(auto, using(crate::proofs::Ways::reads_on, crate::proofs::Ways::reads_passed))]
pub fn timeline_text<F: Files>(
    alloc: Global,
    files: &mut F,
    plan: &str,
    trades: &str,
    events: &str,
    cash: Option<&str>,
    svg: bool,
    only: bool,
    json: bool,
) -> Result<Answer, Stop>
    ensures gives { IfOk result (λ answer. GivesBy (F.told files.old) (F.told files.new) (timeline_way plan.now trades.now events.now (option_map (λ n. n.now) cash.entry) svg only json) (answer_of answer)) }
    ensures stops { IfErr result (λ stop. StopsBy (F.told files.old) (F.told files.new) (timeline_way plan.now trades.now events.now (option_map (λ n. n.now) cash.entry) svg only json) stop) }
    ensures reads { OnlyReads (F.told files.old) (F.told files.new) result }
{
    let feed = feed_at(alloc, files, plan, trades, cash)?;
    fed_timeline(alloc, files, &feed, events, drawing_of(svg, json), only)
}

// The same, once plan, trades and movements were read.
#[tactic(auto, using(crate::proofs::Ways::reads_none))]
fn fed_timeline<F: Files>(
    alloc: Global,
    files: &mut F,
    feed: &Feed,
    events: &str,
    how: Drawing,
    only: bool,
) -> Result<Answer, Stop>
    requires { IsFed feed.now }
    ensures gives { IfOk result (λ answer. GivesBy (F.told files.old) (F.told files.new) (draws events.now how only (feed_of feed.now)) (answer_of answer)) }
    ensures stops { IfErr result (λ stop. StopsBy (F.told files.old) (F.told files.new) (draws events.now how only (feed_of feed.now)) stop) }
    ensures reads { OnlyReads (F.told files.old) (F.told files.new) result }
{
    let all = rows_in_all(alloc, feed)?;
    reported_at(alloc, files, feed, events, &Timeline { how, only, all })
}

// The drawing of a run, as text or as SVG, where the plan gives so many rows in all.
#[derive(Drop)]
struct Timeline {
    how: Drawing,
    only: bool,
    all: u64,
}

impl Timeline {
    // Into how many columns it cuts the events at most.
    fn columns(&self) -> u32
        ensures columns { result ≡ columns_for self.now.how }
        ensures some { 1 ≤ result }
    {
        match self.how {
            Drawing::Text | Drawing::Json => TEXT_COLUMNS,
            Drawing::Svg => SVG_COLUMNS,
        }
    }

    // The drawing of a run that was watched and ends so.
    fn drawn(
        &self,
        alloc: Global,
        plan: &Plan,
        watched: &WatchedRun,
        end: RunEnd,
    ) -> Result<Vec<u8>, OutOfMemory>
        ensures { IfOk result (λ text. text.items ≡ drawing self.now.how self.now.only plan.now watched.now.frames.items watched.now.told.items end self.now.all) }
    {
        let chart = chart_of(alloc, plan, watched, end, self.all, self.only)?;
        match self.how {
            Drawing::Text => write_text(alloc, &chart),
            Drawing::Svg => write_svg(alloc, &chart),
            Drawing::Json => write_chart_json(alloc, &chart),
        }
    }

    // The same of a core at the end of the run, where want of memory is why the report ends.
    fn told(
        &self,
        alloc: Global,
        plan: &Plan,
        watched: &WatchedRun,
        core: &Core,
    ) -> Result<Vec<u8>, ReportError>
        ensures text { IfOk result (λ text. (s : State) → StandsFor core.now s → text.items
            ≡ drawing self.now.how self.now.only plan.now watched.now.frames.items watched.now.told.items (end_in (flow_in core.now) s) self.now.all) }
        ensures want { IfErr result (λ error. error ≡ report_error.OutOfMemory) }
    {
        match self.drawn(alloc, plan, watched, run_end(core)) {
            Ok(text) => Ok(text),
            Err(_) => Err(ReportError::OutOfMemory),
        }
    }
}

impl Report for Timeline {
    ghost tells = { λ timeline. timeline_telling timeline.how timeline.only timeline.all };

    fn report(
        &self,
        alloc: Global,
        feed: &Feed,
        core: &mut Core,
        events: &[Lined],
    ) -> Result<Vec<u8>, ReportError> {
        match watch(alloc, core, events, self.columns()) {
            Ok(watched) => self.told(alloc, &feed.plan, &watched, core),
            Err(error) => Err(ended(error)),
        }
    }
}
