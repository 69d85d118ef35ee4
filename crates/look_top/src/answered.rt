// What words come to, before anything of it is written.
ghost use Rattle.command_course.specs.Steps.{OnlyReads, StopsBy};
ghost use Rattle.command_course.specs.declared.stop.Stop.TheVariants.{Usage};
ghost use Rattle.flux_top.specs.Outcome.{texts};
ghost use Rattle.command_course.specs.Answers.{answer_of};
ghost use Rattle.look_top.specs.Asked.{asked, task_of, way_in};
ghost use Rattle.look_top.specs.Stops.{Gives, StopsBefore, TaskGives};
ghost use Rattle.look_words.specs.Forms.{IsInRange, request_of};
ghost use Rattle.std.specs.Prelude.{◌≡◌, Err, IfErr, IfOk, None};

use crate::finished::NAME;
use command_course::{Answer, Stop};
use drained_run::Gate;
use flux_outside::Files;
use flux_top::own_stop;
use look_command::{check_report, story_text, timeline_text};
use look_words::{LookCommand, read_words};
use rehearse_command::rehearse_report;
use sift_command::sift_report;
use sql_command::sql_report;
use std::alloc::Global;
use std::thread::Threads;
use trace_command::trace_report;
use why_command::{Wanted, why_report};

/// What the words' command comes to, where they have a form.
pub(crate) fn answered<R: Threads + Sync, F: Files, G: Gate>(
    rt: &R,
    alloc: Global,
    words: &[String],
    files: &mut F,
    gate: &G,
) -> Result<Answer, Stop>
    ensures gives { IfOk result (λ answer. Gives (F.told files.old) (F.told files.new) (texts words.now) (answer_of answer)) }
    ensures usage { asked (texts words.now) ≡ None → result ≡ Err Usage }
    ensures unasked { asked (texts words.now) ≡ None → files.new ≡ files.old }
    ensures stops { IfErr result (λ stop. StopsBefore (F.told files.old) (F.told files.new) (texts words.now) stop) }
    ensures reads { OnlyReads (F.told files.old) (F.told files.new) result }
{
    match read_words(words) {
        None => Err(Stop::Usage),
        Some(command) => match answer_of(rt, alloc, files, command, gate) {
            Ok(answer) => Ok(answer),
            Err(stop) => Err(own_stop(alloc, NAME, stop)),
        },
    }
}

// What a command comes to.
fn answer_of<R: Threads + Sync, F: Files, G: Gate>(
    rt: &R,
    alloc: Global,
    files: &mut F,
    command: LookCommand<'_>,
    gate: &G,
) -> Result<Answer, Stop>
    requires { IsInRange command }
    ensures gives { IfOk result (λ answer. TaskGives (F.told files.old) (F.told files.new) (answer_of answer) (task_of (request_of command.entry))) }
    ensures stops { IfErr result (λ stop. StopsBy (F.told files.old) (F.told files.new) (way_in (task_of (request_of command.entry))) stop) }
    ensures reads { OnlyReads (F.told files.old) (F.told files.new) result }
{
    match command {
        LookCommand::Check {
            plan,
            trades,
            cash,
            script,
            all,
            json,
        } => check_report(alloc, files, plan, trades, cash, script, all, json),
        LookCommand::Story {
            plan,
            trades,
            events,
            cash,
            script,
            json,
        } => story_text(alloc, files, plan, trades, events, cash, script, json),
        LookCommand::Timeline {
            plan,
            trades,
            events,
            cash,
            svg,
            json,
            only,
        } => timeline_text(alloc, files, plan, trades, events, cash, svg, only, json),
        LookCommand::Rehearse {
            plan,
            trades,
            script,
            cash,
            threads,
            turns,
            picture,
        } => rehearse_report(
            rt,
            alloc,
            files,
            plan,
            trades,
            script,
            cash,
            threads,
            u64::from(turns),
            picture,
            gate,
        ),
        LookCommand::Why {
            plan,
            trades,
            number,
            cash,
            all,
            check,
        } => {
            let number = u64::from(number);
            let wanted = Wanted { number, all, check };
            why_report(alloc, files, plan, trades, cash, wanted)
        }
        LookCommand::Trace {
            plan,
            trades,
            line,
            cash,
        } => {
            let line = u64::from(line);
            trace_report(alloc, files, plan, trades, line, cash)
        }
        LookCommand::Sift { trades, rejects } => sift_report(alloc, files, trades, rejects),
        LookCommand::Sql { plan } => sql_report(alloc, files, plan),
    }
}
