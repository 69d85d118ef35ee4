// What is made of a run's events.
ghost use Rattle.command_course.specs.Course.{Course};
ghost use Rattle.command_course.specs.FeedView.{FeedView};
ghost use Rattle.command_course.specs.Feeds.{feed_of};
ghost use Rattle.command_course.specs.Steps.{GivesBy, OnlyReads, StopsBy};
ghost use Rattle.flux_core.specs.CoreView.{inputs_of};
ghost use Rattle.flux_core.specs.Follows.{AreNamed, IsFollowed, events_of};
ghost use Rattle.flux_core.specs.Stands.{IsCore, StandsFor};
ghost use Rattle.command_course.specs.Answers.{AnswerView, answer_of};
ghost use Rattle.look_command.specs.Reports.{HasEnded, reports, tells_lines};
ghost use Rattle.pair_machine.specs.Machine.{State, opening};
ghost use Rattle.replay_command.specs.Ends.{StopsIn};
ghost use Rattle.std.specs.Prelude.{◌≡◌, ℕ, List, true, IfErr, IfOk, OnOk};
ghost use Rattle.trade_text.specs.TradesView.{inputs_in};

use command_course::{Answer, Ending, Feed, Stop, input_at};
use flux_core::{Core, Stopped};
use flux_outside::Files;
use replay_command::{Events, EventsFile, refused_event};
use run_journal::Lined;
use std::alloc::Global;

/// Why a report ends early.
#[derive(Clone, Copy, Debug, PartialEq, Eq)]
pub(crate) enum ReportError {
    /// An event is no step: those before it are applied.
    Stopped(Stopped),
    /// No memory was to be had.
    OutOfMemory,
}

/// A kind of report of a run: the text that it makes of the events.
pub(crate) trait Report {
    ghost use Rattle.run_journal.specs.declared.lined.Lined.{Lined};

    /// The text of what a plan is fed with, of events, and of the state that they reach.
    ghost tells: { Self → FeedView → List Lined → State → List ℕ };

    /// The text of events, which are applied to a core as it opens.
    fn report(
        &self,
        alloc: Global,
        feed: &Feed,
        core: &mut Core,
        events: &[Lined],
    ) -> Result<Vec<u8>, ReportError>
        requires named { AreNamed core.old.plan events.now }
        requires opens { StandsFor core.old opening }
        requires plan { core.old.plan ≡ feed.now.plan }
        requires inputs { inputs_of core.old ≡ inputs_in feed.now.trades }
        requires whole { core.old.whole ≡ true }
        ensures followed { OnOk result (IsFollowed core.old core.new (events_of events.now)) }
        ensures text { IfOk result (λ text. (s : State) → StandsFor core.new s → text.items ≡ tells self.now (feed_of feed.now) events.now s) }
        ensures stopped { IfErr result (HasEnded core.old core.new events.now) }
        ensures plan { core.new.plan ≡ core.old.plan }
        ensures core { IsCore core.new };
}

/// Reads a list of events, and gives what a report tells of them.
#[tactic(auto, using(crate::proofs::Ways::reads_answered, crate::proofs::Ways::reads_passed))]
pub(crate) fn reported_at<F: Files, R: Report>(
    alloc: Global,
    files: &mut F,
    feed: &Feed,
    events: &str,
    report: &R,
) -> Result<Answer, Stop>
    ensures gives { IfOk result (λ answer. GivesBy (F.told files.old) (F.told files.new) (reports (R.tells report.now) events.now (feed_of feed.now)) (answer_of answer)) }
    ensures stops { IfErr result (λ stop. StopsBy (F.told files.old) (F.told files.new) (reports (R.tells report.now) events.now (feed_of feed.now)) stop) }
    ensures reads { OnlyReads (F.told files.old) (F.told files.new) result }
{
    let file = EventsFile { plan: &feed.plan };
    let lines = input_at(alloc, files, events, &file)?;
    reported(alloc, feed, events, &lines, report)
}

// What is told of events from the opening on, or the refusal of the first one that is no step.
fn reported<R: Report>(
    alloc: Global,
    feed: &Feed,
    name: &str,
    events: &Events,
    report: &R,
) -> Result<Answer, Stop>
    requires { AreNamed feed.now.plan events.now }
    ensures text { IfOk result (λ answer. (next : AnswerView → Course) → tells_lines (R.tells report.now) name.now (feed_of feed.now) events.now next ≡ next (answer_of answer)) }
    ensures refused { IfErr result (λ stop. (next : AnswerView → Course) → StopsIn (tells_lines (R.tells report.now) name.now (feed_of feed.now) events.now next) stop) }
{
    let mut core = Core::new(alloc, &feed.plan, &feed.trades)?;
    applied(alloc, feed, name, events, report, &mut core)
}

// The same, of a core that opens with the plan and the trades.
fn applied<R: Report>(
    alloc: Global,
    feed: &Feed,
    name: &str,
    events: &Events,
    report: &R,
    core: &mut Core,
) -> Result<Answer, Stop>
    requires named { AreNamed core.old.plan events.now }
    requires opens { StandsFor core.old opening }
    requires plan { core.old.plan ≡ feed.now.plan }
    requires inputs { inputs_of core.old ≡ inputs_in feed.now.trades }
    requires whole { core.old.whole ≡ true }
    ensures text { IfOk result (λ answer. (next : AnswerView → Course) → tells_lines (R.tells report.now) name.now (feed_of feed.now) events.now next ≡ next (answer_of answer)) }
    ensures refused { IfErr result (λ stop. (next : AnswerView → Course) → StopsIn (tells_lines (R.tells report.now) name.now (feed_of feed.now) events.now next) stop) }
{
    let lines = events.lines();
    match report.report(alloc, feed, core, lines) {
        Ok(text) => Ok(Answer {
            text,
            ending: Ending::Done,
            saved: None,
        }),
        Err(ReportError::Stopped(stopped)) => Err(refused_event(alloc, name, stopped)),
        Err(ReportError::OutOfMemory) => Err(Stop::OutOfMemory),
    }
}
