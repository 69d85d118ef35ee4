// The one call that does what the words of a command line ask for.
ghost use Rattle.std.specs.Prelude.{◌≡◌, ◌≢◌, ◌⊎◌, IfErr, IfOk, OnOk, Err, None};
ghost use Rattle.command_course.specs.Steps.{IsWant, OnlyReads, StopsOf};
ghost use Rattle.command_course.specs.declared.stop.Stop.TheVariants.{CannotWrite, OutOfMemory, Usage};
ghost use Rattle.command_line.specs.Views.{IsInRange, request_of};
ghost use Rattle.flux_outside.specs.Outside.{StopsAtWant};
ghost use Rattle.flux_top.specs.Clauses.{FallsShort, HasCause, IsComplete, IsQuiet, KeepsTo, SaysAt, SaysLost, SaysRefusal, SaysUnread, StaysAt, StopsTo, WritesNot, WritesWhole};
ghost use Rattle.flux_top.specs.Ends.{Ends};
ghost use Rattle.flux_top.specs.Lines.{own_line};
ghost use Rattle.flux_top.specs.Outcome.{CameToEnd, asked, course_of, texts};
ghost use Rattle.flux_top.specs.Stops.{StopsAs};
ghost use Rattle.tuple_edge.specs.declared.event.Drained.TheVariants as drained;

use crate::eval::eval_text;
use crate::finishing::finish;
use crate::lines::say;
use crate::make::made_text;
use crate::stops::own_stop;
use command_course::Stop;
use command_line::{Command, read_words};
use drained_run::Gate;
use flux_outside::{Files, Sink};
use move_command::move_text;
use replay_command::replay_text;
use run_command::{Outcome, run_outcome, trial_outcome};
use std::alloc::Global;
use std::thread::Threads;
use trio_command::text_of_trio;
use tuple_edge::Drained;

/// Does what the words after the program's name ask for, and gives the status: 0 where it is done, 2 where
/// the words have no form, 3 where an input or an event of `replay` or `trio` is refused, 4 where a file can't
/// be read, 5 where the journal can't be saved or `out` took not all, 6 where a pair was lost before all was
/// emitted, 8 where no memory was to be had. One line goes to `err` for each status but 0. The gate is called
/// at each turn of a run's workers; no call waits.
///
/// Where it is done, its text was written whole; of a run, that is all of the plan's output, each row once
/// and in order, and its journal a legal list of events that reaches it.
///
/// The clauses of each status also say which calls of `files` were added, where they are told: at 0, 5 and 6
/// one read of each input, in order, and then the save of a journal; at 3 those up to the input that is
/// refused; at 4 those up to the one that could not be read, whose name is said; at 8 those of the inputs
/// that were accepted, and one more at most; at 2 none.
#[tactic(auto, using(crate::proofs::Statuses::says_done, crate::proofs::Statuses::says_usage, crate::proofs::Statuses::says_refused, crate::proofs::Statuses::says_unread, crate::proofs::Statuses::says_unwritten, crate::proofs::Statuses::says_lost, crate::proofs::Statuses::says_short))]
pub fn flux<R: Threads + Sync, F: Files, S: Sink, E: Sink, G: Gate>(
    rt: &R,
    alloc: Global,
    words: &[String],
    files: &mut F,
    out: &mut S,
    err: &mut E,
    gate: &G,
) -> u8
    ensures done { result ≡ 0 → WritesWhole (F.told files.old) (F.told files.new) (texts words.now) Ends (S.told out.old) (S.told out.new) }

    // 2: the words ask for nothing: they have no form. Such words end with 2 or,
    // for want of memory, with 8, and no file is asked for.
    ensures usage { result ≡ 2 → asked (texts words.now) ≡ None }
    ensures formless { asked (texts words.now) ≡ None → ((result ≡ 2) ⊎ (result ≡ 8)) × (files.new ≡ files.old) }

    // 3: the first faulty input is refused, and it is said why.
    ensures refused { result ≡ 3 → SaysRefusal (F.told files.old) (F.told files.new) (texts words.now) (E.told err.old) (E.told err.new) }

    // 4: the input that was asked for last was not to be had, only where the count of read faults rose; its
    // name is said.
    ensures unread { result ≡ 4 → SaysUnread (F.told files.old) (F.told files.new) (texts words.now) (E.told err.old) (E.told err.new) }

    // 5: a proper prefix of the text was written, only where the count of faults of `out` rose; or nothing,
    // where the journal was not saved and the count of faults of saves rose.
    ensures unwritten { result ≡ 5 → WritesNot (F.told files.old) (F.told files.new) (texts words.now) (S.told out.old) (S.told out.new) }

    // 6: a pair was lost, under a script that isn't safe; the rows emitted before were written, and it is said
    // which pair.
    ensures lost { result ≡ 6 → SaysLost (F.told files.old) (F.told files.new) (texts words.now) (S.told out.old) (S.told out.new) (E.told err.old) (E.told err.new) }

    // 8: want of memory, after which no file is asked for. All names hold what they held, but for a journal for
    // whose save no memory was to be had.
    ensures short { result ≡ 8 → FallsShort (F.told files.old) (F.told files.new) (texts words.now) }

    // There is no other status. 2, 5 and 8 have each a line of their own; at 0 nothing is said. It writes only at
    // 0, 5 and 6.
    ensures says { SaysAt result (E.told err.old) (E.told err.new) }
    ensures quiet { (result ≡ 0 → err.new ≡ err.old) × (result ≢ 0 → result ≢ 5 → result ≢ 6 → out.new ≡ out.old) }

    // Behind a call that found no memory there is none. The count of read faults stays but at 4 and 8, that of saves
    // but at 5, and what files hold but where a journal is saved: at 0, 5 and 6, or at 8 where memory for that was wanting.
    ensures stays { StaysAt result (F.told files.old) (F.told files.new) }

    // Where the files tell what they hold and no count rose, what they hold is accepted and done, or it is
    // refused, unless no memory was to be had. Only a run under a script that isn't safe may lose a pair.
    ensures complete { IsComplete result (F.told files.old) (F.told files.new) (texts words.now) (S.told out.old) (S.told out.new) }
{
    match run(rt, alloc, words, files, out, gate) {
        Ok(()) => 0,
        Err(Stop::Usage) => {
            say(err, USAGE);
            2
        }
        Err(Stop::Refused { line }) => {
            say(err, line.as_str());
            3
        }
        Err(Stop::CannotRead { line }) => {
            say(err, line.as_str());
            4
        }
        Err(Stop::CannotWrite) => {
            say(err, "flux: cannot write\n");
            5
        }
        Err(Stop::PairLost { line, .. }) => {
            say(err, line.as_str());
            6
        }
        Err(Stop::OutOfMemory) => {
            say(err, "flux: out of memory\n");
            8
        }
    }
}

/// What is said of words without a form.
const USAGE: &str =
    "flux: usage: eval PLAN TRADES [--cash C] | run PLAN TRADES [options] | replay PLAN TRADES EVENTS [--cash C] | make START COUNT | trial PLAN START COUNT [options] | trio PLAN TRADES EVENTS | move PLAN TRADES MOVES\n";

// The program's name, as it stands in what is said.
const NAME: &str = "flux";

// Runs the command of the words: all is read and computed before anything is saved or written.
#[tactic(auto, using(crate::proofs::Requests::short_at_once, crate::proofs::Courses::wants_for, crate::proofs::Courses::wants_on))]
fn run<R: Threads + Sync, F: Files, S: Sink, G: Gate>(
    rt: &R,
    alloc: Global,
    words: &[String],
    files: &mut F,
    out: &mut S,
    gate: &G,
) -> Result<(), Stop>
    ensures done { OnOk result (WritesWhole (F.told files.old) (F.told files.new) (texts words.now) Ends (S.told out.old) (S.told out.new)) }
    ensures usage { asked (texts words.now) ≡ None → (result ≡ Err Usage) ⊎ (result ≡ Err OutOfMemory) }
    ensures unasked { asked (texts words.now) ≡ None → files.new ≡ files.old }
    ensures stops { IfErr result (λ stop. StopsTo (F.told files.old) (F.told files.new) (texts words.now) (S.told out.old) (S.told out.new) stop) }
    ensures cause { IfErr result (λ stop. HasCause (F.told files.old).read_faults (F.told files.new).read_faults stop) }
    ensures still { OnOk result ((F.told files.new).read_faults ≡ (F.told files.old).read_faults) }
    ensures kept { IfErr result (λ stop. KeepsTo (F.told files.old) (F.told files.new) (texts words.now) stop) }
    ensures saves { result ≢ Err CannotWrite → (F.told files.new).save_faults ≡ (F.told files.old).save_faults }
    ensures wants { StopsAtWant (F.told files.old).wants (F.told files.new).wants (IsWant result) }
    ensures quiet { IfErr result (λ stop. IsQuiet out.old out.new stop) }
{
    match read_words(alloc, words)? {
        None => Err(Stop::Usage),
        Some(command) => {
            let outcome = answered(rt, alloc, files, command, gate)?;
            finish(alloc, NAME, files, out, &outcome)
        }
    }
}

// What a command comes to, or why it stops, with the program's name before the line.
fn answered<'a, R: Threads + Sync, F: Files, G: Gate>(
    rt: &R,
    alloc: Global,
    files: &mut F,
    command: Command<'a>,
    gate: &G,
) -> Result<Outcome<'a>, Stop>
    requires { IsInRange command }
    ensures comes { IfOk result (λ outcome. CameToEnd (F.told files.old) (F.told files.new) (course_of (request_of command.entry)) outcome) }
    ensures stops { IfErr result (λ stop. StopsAs own_line (F.told files.old) (F.told files.new) (course_of (request_of command.entry)) stop) }
    ensures reads { OnlyReads (F.told files.old) (F.told files.new) result }
{
    match outcome_of(rt, alloc, files, command, gate) {
        Ok(outcome) => Ok(outcome),
        Err(stop) => Err(own_stop(alloc, NAME, stop)),
    }
}

// What a command comes to.
#[tactic(auto, using(crate::proofs::Endings::text_ends, crate::proofs::Courses::reads_none, crate::proofs::Courses::reads_passed, crate::proofs::Courses::reads_then))]
fn outcome_of<'a, R: Threads + Sync, F: Files, G: Gate>(
    rt: &R,
    alloc: Global,
    files: &mut F,
    command: Command<'a>,
    gate: &G,
) -> Result<Outcome<'a>, Stop>
    requires { IsInRange command }
    ensures comes { IfOk result (λ outcome. CameToEnd (F.told files.old) (F.told files.new) (course_of (request_of command.entry)) outcome) }
    ensures stops { IfErr result (λ stop. StopsOf (F.told files.old) (F.told files.new) (course_of (request_of command.entry)) stop) }
    ensures reads { OnlyReads (F.told files.old) (F.told files.new) result }
{
    match command {
        Command::Eval { plan, trades, cash } => {
            let text = eval_text(alloc, files, plan, trades, cash)?;
            Ok(alone(text))
        }
        Command::Make { start, count } => {
            let text = made_text(alloc, start, count)?;
            Ok(alone(text))
        }
        Command::Move {
            plan,
            trades,
            moves,
        } => {
            let text = move_text(rt, alloc, files, plan, trades, moves)?;
            Ok(alone(text))
        }
        Command::Run {
            plan,
            trades,
            options,
        } => run_outcome(rt, alloc, files, plan, trades, options, gate),
        Command::Trial {
            plan,
            start,
            count,
            options,
        } => trial_outcome(rt, alloc, files, plan, start, count, options, gate),
        Command::Replay {
            plan,
            trades,
            events,
            cash,
        } => {
            let text = replay_text(alloc, files, plan, trades, events, cash)?;
            Ok(alone(text))
        }
        Command::Trio {
            plan,
            trades,
            events,
        } => {
            let text = text_of_trio(alloc, files, plan, trades, events)?;
            Ok(alone(text))
        }
    }
}

// A text, beside which nothing is saved.
fn alone<'a>(text: Vec<u8>) -> Outcome<'a>
    ensures text { result.text ≡ text }
    ensures journal { result.journal ≡ None }
    ensures whole { result.drained ≡ drained.Whole }
{
    Outcome {
        text,
        journal: None,
        drained: Drained::Whole,
    }
}
