// The one call that does what the words of the program ask for.
ghost use Rattle.command_course.specs.Steps.{IsWant};
ghost use Rattle.command_course.specs.declared.stop.Stop.TheVariants.{CannotWrite, Usage};
ghost use Rattle.flux_outside.specs.Outside.{StopsAtWant};
ghost use Rattle.flux_top.specs.Clauses.{HasCause, IsQuiet};
ghost use Rattle.flux_top.specs.Outcome.{texts};
ghost use Rattle.flux_top.specs.Programs.{Tells};
ghost use Rattle.flux_top.specs.Stops.{line_at, status_at};
ghost use Rattle.command_course.specs.Answers.{status_of};
ghost use Rattle.command_course.specs.declared.answer.Ending.TheVariants.{Done, Faulty, Warned};
ghost use Rattle.look_top.specs.Asked.{asked};
ghost use Rattle.look_top.specs.Clauses.{FallsShort, IsComplete, SaysAt, SaysLost, SaysRefusal, SaysUnread, StaysAt, WritesNot, WritesWhole};
ghost use Rattle.look_top.specs.Lines.{lines};
ghost use Rattle.look_top.specs.Stops.{KeepsTo, StopsTo, drained_of};
ghost use Rattle.std.specs.Prelude.{◌≡◌, ◌≢◌, ◌⊎◌, Err, IfErr, IfOk, None, OnOk};
ghost use Rattle.tuple_edge.specs.declared.event.Drained.TheVariants as drained;

use crate::answered::answered;
use crate::finished::finished;
use command_course::{Ending, Stop};
use drained_run::Gate;
use flux_outside::{Files, Sink};
use flux_top::say_stop;
use std::alloc::Global;
use std::thread::Threads;

/// What is said of words without a form.
const USAGE: &str =
    "flux_look: usage: check PLAN [TRADES] [--cash C] [--script S] [--all] [--json] | story PLAN TRADES EVENTS [--cash C] [--script S] [--json] | timeline PLAN TRADES EVENTS [--cash C] [--svg | --json] [--only] | rehearse PLAN TRADES SCRIPT [--cash C] [--threads N] [--turns T] [--svg FILE] | why PLAN TRADES N [--cash C] [--all] [--check] | trace PLAN TRADES LINE [--cash C] | sift TRADES --rejects R | sql PLAN\n";

/// What is said where a text, or a file, could not be written.
const CANNOT_WRITE: &str = "flux_look: cannot write\n";

/// What is said where memory ran out.
const OUT_OF_MEMORY: &str = "flux_look: out of memory\n";

/// Does what the words after the program's name ask for, and gives the status: 0 where it is done, 1 where it warns, or
/// an order of a rehearsal was not obeyed, 2 where the words have no form, 3 where an input has a fault or an event is
/// refused, 4 where a file can't be read, 5 where a file can't be saved or `out` took not all, 6 where a rehearsal lost a
/// pair, 8 where no memory was to be had. One line goes to `err` for each status but 0 and 1, and but for the faults that
/// `check` finds, which are its text. The gate is called at each turn of a rehearsal's workers; no call waits.
///
/// The clauses of each status also say which calls of `files` were added, where they are told: one read of each input,
/// in order, up to the last one that counts, and then the save of a file, where the answer has one.
pub fn flux_look<R: Threads + Sync, F: Files, S: Sink, E: Sink, G: Gate>(
    rt: &R,
    alloc: Global,
    words: &[String],
    files: &mut F,
    out: &mut S,
    err: &mut E,
    gate: &G,
) -> u8
    // 0 and 1: the text that the words ask for was written whole. At 1 it warns.
    ensures done { (result ≡ 0 → WritesWhole (F.told files.old) (F.told files.new) (texts words.now) Done (S.told out.old) (S.told out.new))
        × (result ≡ 1 → WritesWhole (F.told files.old) (F.told files.new) (texts words.now) Warned (S.told out.old) (S.told out.new)) }

    // 2: the words have no form, and just such words end so. No file is asked for.
    ensures usage { result ≡ 2 → asked (texts words.now) ≡ None }
    ensures formless { asked (texts words.now) ≡ None → (result ≡ 2) × (files.new ≡ files.old) }

    // 3: the first fault of each input was written whole, and nothing is said; or an input or an event is refused, it
    // is said why, and nothing is written or saved.
    ensures refused { result ≡ 3 → (WritesWhole (F.told files.old) (F.told files.new) (texts words.now) Faulty (S.told out.old) (S.told out.new) × (err.new ≡ err.old))
        ⊎ (SaysRefusal (F.told files.old) (F.told files.new) (texts words.now) (E.told err.old) (E.told err.new) × (out.new ≡ out.old) × ((F.told files.new).contents ≡ (F.told files.old).contents)) }

    // 4: the input that was asked for last was not to be had, only where the count of read faults rose; its name is said.
    ensures unread { result ≡ 4 → SaysUnread (F.told files.old) (F.told files.new) (texts words.now) (E.told err.old) (E.told err.new) }

    // 5: a proper front of the text was written, only where the count of faults of `out` rose; or nothing, where the
    // answer's file was not saved and the count of faults of saves rose.
    ensures unwritten { result ≡ 5 → WritesNot (F.told files.old) (F.told files.new) (texts words.now) (S.told out.old) (S.told out.new) }

    // 6: a rehearsal lost a pair; its text was written whole, and it is said which pair.
    ensures lost { result ≡ 6 → SaysLost (F.told files.old) (F.told files.new) (texts words.now) (S.told out.old) (S.told out.new) (E.told err.old) (E.told err.new) }

    // 8: want of memory, after which no file is asked for. All names hold what they held, but for a file for whose save no
    // memory was to be had.
    ensures short { result ≡ 8 → FallsShort (F.told files.old) (F.told files.new) (texts words.now) }

    // There is no other status. 2, 5 and 8 have each a line of their own; at 0 and 1 nothing is said. It writes only at 0,
    // 1, 3, 5 and 6.
    ensures says { SaysAt result (E.told err.old) (E.told err.new) }
    ensures quiet { ((result ≡ 0) ⊎ (result ≡ 1) → err.new ≡ err.old) × (result ≢ 0 → result ≢ 1 → result ≢ 3 → result ≢ 5 → result ≢ 6 → out.new ≡ out.old) }

    // Behind a call that found no memory there is none. The count of read faults stays but at 4 and 8, that of saves but at
    // 5, and what files hold but where an answer's file is saved.
    ensures stays { StaysAt result (F.told files.old) (F.told files.new) }

    // Where the files tell what they hold and no count rose, what they hold comes to its status, or it is refused,
    // unless no memory was to be had.
    ensures complete { IsComplete result (F.told files.old) (F.told files.new) (texts words.now) (S.told out.old) (S.told out.new) }
{
    match run(rt, alloc, words, files, out, gate) {
        Ok(ending) => status_of(ending),
        Err(stop) => said(err, &stop),
    }
}

// The status of an answer that was written whole.
fn status_of(ending: Ending) -> u8
    ensures { result ≡ status_of ending }
{
    match ending {
        Ending::Done => 0,
        Ending::Warned => 1,
        Ending::Faulty => 3,
        Ending::Lost { .. } => 6,
    }
}

// Says why the program stops, and gives the status for that.
fn said<E: Sink>(err: &mut E, stop: &Stop) -> u8
    ensures status { result ≡ status_at stop.now }
    ensures line { Tells (E.told err.old) (E.told err.new) (line_at lines stop.now) }
{
    say_stop(err, USAGE, CANNOT_WRITE, OUT_OF_MEMORY, stop)
}

// All is read and computed before anything is saved or written.
fn run<R: Threads + Sync, F: Files, S: Sink, G: Gate>(
    rt: &R,
    alloc: Global,
    words: &[String],
    files: &mut F,
    out: &mut S,
    gate: &G,
) -> Result<Ending, Stop>
    ensures written { IfOk result (λ ending. WritesWhole (F.told files.old) (F.told files.new) (texts words.now) ending (S.told out.old) (S.told out.new)) }
    ensures whole { IfOk result (λ ending. drained_of ending ≡ drained.Whole) }
    ensures usage { asked (texts words.now) ≡ None → result ≡ Err Usage }
    ensures unasked { asked (texts words.now) ≡ None → files.new ≡ files.old }
    ensures stops { IfErr result (λ stop. StopsTo (F.told files.old) (F.told files.new) (texts words.now) (S.told out.old) (S.told out.new) stop) }
    ensures cause { IfErr result (λ stop. HasCause (F.told files.old).read_faults (F.told files.new).read_faults stop) }
    ensures still { OnOk result ((F.told files.new).read_faults ≡ (F.told files.old).read_faults) }
    ensures kept { IfErr result (λ stop. KeepsTo (F.told files.old) (F.told files.new) (texts words.now) stop) }
    ensures saves { result ≢ Err CannotWrite → (F.told files.new).save_faults ≡ (F.told files.old).save_faults }
    ensures wants { StopsAtWant (F.told files.old).wants (F.told files.new).wants (IsWant result) }
    ensures quiet { IfErr result (λ stop. IsQuiet out.old out.new stop) }
{
    let answer = answered(rt, alloc, words, files, gate)?;
    finished(alloc, files, out, answer)
}
