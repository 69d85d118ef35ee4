// The command `story`.
ghost use Rattle.command_course.specs.Feeds.{IsFed, feed_of};
ghost use Rattle.command_course.specs.Steps.{GivesBy, OnlyReads, StopsBy};
ghost use Rattle.flux_core.specs.CoreView.{flow_in, inputs_of};
ghost use Rattle.flux_core.specs.Stands.{StandsFor};
ghost use Rattle.look_command.specs.Courses.{rows_in_all, story_as, story_telling, story_way, tells_story};
ghost use Rattle.command_course.specs.Answers.{answer_of};
ghost use Rattle.look_command.specs.Reports.{reports};
ghost use Rattle.look_command.specs.declared.report.ReportError.TheVariants as report_error;
ghost use Rattle.pair_machine.specs.Machine.{State};
ghost use Rattle.run_end.specs.Ends.{end_in};
ghost use Rattle.run_watch.specs.Watching.{emitted_in};
ghost use Rattle.std.specs.Prelude.{◌≡◌, IfErr, IfOk, option_map};

use crate::all::rows_in_all;
use crate::ended::ended;
use crate::report::{Report, ReportError, reported_at};
use command_course::{Answer, Feed, Stop, feed_at};
use failure_script::Script;
use flux_core::Core;
use flux_outside::Files;
use look_json::write_story_json;
use run_command::script_at;
use run_journal::Lined;
use run_story::write_story;
use run_watch::{WatchedRun, watch};
use std::alloc::Global;
use tuple_edge::OutOfMemory;

// A story is told event by event: it wants no columns.
const COLUMNS: u32 = 1;

/// What `story` writes: what happened in a run, from its events.
#[tactic(auto, using(crate::proofs::Ways::reads_on, crate::proofs::Ways::reads_passed))]
pub fn story_text<F: Files>(
    alloc: Global,
    files: &mut F,
    plan: &str,
    trades: &str,
    events: &str,
    cash: Option<&str>,
    script: Option<&str>,
    json: bool,
) -> Result<Answer, Stop>
    ensures gives { IfOk result (λ answer. GivesBy (F.told files.old) (F.told files.new) (story_way plan.now trades.now events.now (option_map (λ n. n.now) cash.entry) (option_map (λ n. n.now) script.entry) json) (answer_of answer)) }
    ensures stops { IfErr result (λ stop. StopsBy (F.told files.old) (F.told files.new) (story_way plan.now trades.now events.now (option_map (λ n. n.now) cash.entry) (option_map (λ n. n.now) script.entry) json) stop) }
    ensures reads { OnlyReads (F.told files.old) (F.told files.new) result }
{
    let feed = feed_at(alloc, files, plan, trades, cash)?;
    fed_story(alloc, files, &feed, events, script, json)
}

// The same, once plan, trades and movements were read.
#[tactic(auto, using(crate::proofs::Ways::reads_on, crate::proofs::Ways::reads_passed))]
fn fed_story<F: Files>(
    alloc: Global,
    files: &mut F,
    feed: &Feed,
    events: &str,
    script: Option<&str>,
    json: bool,
) -> Result<Answer, Stop>
    requires { IsFed feed.now }
    ensures gives { IfOk result (λ answer. GivesBy (F.told files.old) (F.told files.new) (tells_story events.now (option_map (λ n. n.now) script.entry) json (feed_of feed.now)) (answer_of answer)) }
    ensures stops { IfErr result (λ stop. StopsBy (F.told files.old) (F.told files.new) (tells_story events.now (option_map (λ n. n.now) script.entry) json (feed_of feed.now)) stop) }
    ensures reads { OnlyReads (F.told files.old) (F.told files.new) result }
{
    let script = script_at(alloc, files, &feed.plan, script)?;
    scripted_story(alloc, files, feed, events, &script, json)
}

// The same, once the script was read.
#[tactic(auto, using(crate::proofs::Ways::reads_none))]
fn scripted_story<F: Files>(
    alloc: Global,
    files: &mut F,
    feed: &Feed,
    events: &str,
    script: &Script,
    json: bool,
) -> Result<Answer, Stop>
    requires { IsFed feed.now }
    ensures gives { IfOk result (λ answer. GivesBy (F.told files.old) (F.told files.new) (reports (story_telling json script.now (rows_in_all (feed_of feed.now))) events.now (feed_of feed.now)) (answer_of answer)) }
    ensures stops { IfErr result (λ stop. StopsBy (F.told files.old) (F.told files.new) (reports (story_telling json script.now (rows_in_all (feed_of feed.now))) events.now (feed_of feed.now)) stop) }
    ensures reads { OnlyReads (F.told files.old) (F.told files.new) result }
{
    let all = rows_in_all(alloc, feed)?;
    reported_at(alloc, files, feed, events, &Story { json, script, all })
}

// The story of a run, which may be one under a script.
#[derive(Drop)]
struct Story<'a> {
    json: bool,
    script: &'a Script,
    all: u64,
}

impl<'a> Report for Story<'a> {
    ghost tells = { λ story. story_telling story.json story.script.now story.all };

    fn report(
        &self,
        alloc: Global,
        feed: &Feed,
        core: &mut Core,
        events: &[Lined],
    ) -> Result<Vec<u8>, ReportError> {
        match watch(alloc, core, events, COLUMNS) {
            Ok(watched) => told(alloc, self, &watched, core),
            Err(error) => Err(ended(error)),
        }
    }
}

// The text of a run that was watched, or its JSON.
fn written(
    alloc: Global,
    story: &Story,
    watched: &WatchedRun,
    core: &Core,
) -> Result<Vec<u8>, OutOfMemory>
    ensures { IfOk result (λ text. (s : State) → StandsFor core.now s → text.items
        ≡ story_as story.now.json watched.now.told.items story.now.script.now (emitted_in core.now.plan (inputs_of core.now) s) (end_in (flow_in core.now) s) story.now.all) }
{
    if story.json {
        return write_story_json(alloc, story.script.orders(), watched, core, story.all);
    }
    write_story(alloc, Some(story.script), watched, core, story.all)
}

// The same, where want of memory is why the report ends.
fn told(
    alloc: Global,
    story: &Story,
    watched: &WatchedRun,
    core: &Core,
) -> Result<Vec<u8>, ReportError>
    ensures text { IfOk result (λ text. (s : State) → StandsFor core.now s → text.items
        ≡ story_as story.now.json watched.now.told.items story.now.script.now (emitted_in core.now.plan (inputs_of core.now) s) (end_in (flow_in core.now) s) story.now.all) }
    ensures want { IfErr result (λ error. error ≡ report_error.OutOfMemory) }
{
    match written(alloc, story, watched, core) {
        Ok(text) => Ok(text),
        Err(_) => Err(ReportError::OutOfMemory),
    }
}
