// The one call that does what the words of the program ask for.
ghost use Rattle.command_course.specs.Steps.{IsWant};
ghost use Rattle.command_course.specs.declared.stop.Stop.TheVariants.{Usage};
ghost use Rattle.flux_outside.specs.Outside.{StopsAtWant};
ghost use Rattle.flux_top.specs.Clauses.{HasCause};
ghost use Rattle.flux_top.specs.Outcome.{asked, texts};
ghost use Rattle.flux_top.specs.Programs.{Tells};
ghost use Rattle.flux_top.specs.Stops.{line_at, status_at};
ghost use Rattle.live_feed.specs.declared.answer.Live.TheVariants as live;
ghost use Rattle.live_top.specs.Clauses.{FallsShort, IsComplete, SaysAt, SaysLost, SaysRefusal, SaysUnread, StaysAt};
ghost use Rattle.live_top.specs.Lines.{lines};
ghost use Rattle.live_top.specs.Runs.{Lived};
ghost use Rattle.live_top.specs.Stops.{IsQuiet, StopsTo};
ghost use Rattle.live_top.specs.Words.{as_run};
ghost use Rattle.std.specs.Prelude.{◌≡◌, ◌≢◌, Err, IfErr, None, OnOk};

use crate::given::read_inputs;
use crate::lived::lived;
use command_course::Stop;
use flux_outside::{Files, Sink};
use flux_top::say_stop;
use live_feed::Gate;
use std::alloc::Global;
use std::sync::Wait;
use std::thread::Threads;

/// What is said of words without a form.
const USAGE: &str = "flux_live: usage: PLAN TRADES [SCRIPT]\n";

/// What is said where a text could not be written.
const CANNOT_WRITE: &str = "flux_live: cannot write\n";

/// What is said where memory ran out.
const OUT_OF_MEMORY: &str = "flux_live: out of memory\n";

/// Runs the plan that the words name as `flux run` does, on 4 threads for at most 200,000 turns each, and writes its rows
/// while the run goes on. It gives the status: 0 where all was written, 2 where the words have no form, 3 where an input
/// is refused, 4 where a file can't be read, 5 where `out` took not all, 6 where a pair was lost before all was emitted,
/// 8 where no memory was to be had. One line goes to `err` for each status but 0: that of `flux`, with the own name in
/// front. The gate is called as each turn begins, and tells the run nothing. The call may never return, as it waits for the
/// workers and for `out`; where it does, this holds.
///
/// What `out` took is a front of the text of the plan's output, whatever the status, and each put was given what the one
/// before it left, or the next lines where it left nothing: each clause that speaks of a run says so.
pub fn flux_live<R: Threads + Wait + Sync, F: Files, S: Sink + Send, E: Sink, G: Gate>(
    rt: &R,
    alloc: Global,
    words: &[String],
    files: &mut F,
    out: &mut S,
    err: &mut E,
    gate: &G,
) -> u8
    // 0: the run is done. All of the plan's output was written, each row once and in order.
    ensures done { result ≡ 0 → Lived (F.told files.old) (F.told files.new) (texts words.now) (S.told out.old) (S.told out.new) live.Done }

    // 2: the words have no form, and just such words end so. No file is asked for.
    ensures usage { result ≡ 2 → asked (as_run (texts words.now)) ≡ None }
    ensures formless { asked (as_run (texts words.now)) ≡ None → (result ≡ 2) × (files.new ≡ files.old) }

    // 3: the first faulty input is refused, and it is said why.
    ensures refused { result ≡ 3 → SaysRefusal (F.told files.old) (F.told files.new) (texts words.now) (E.told err.old) (E.told err.new) }

    // 4: the input that was asked for last was not to be had, only where the count of read faults rose; its name is said.
    ensures unread { result ≡ 4 → SaysUnread (F.told files.old) (F.told files.new) (texts words.now) (E.told err.old) (E.told err.new) }

    // 5: a proper front of the text was written, only where the count of faults of `out` rose.
    ensures unwritten { result ≡ 5 → Lived (F.told files.old) (F.told files.new) (texts words.now) (S.told out.old) (S.told out.new) live.WriteFault }

    // 6: a pair was lost, under a script that isn't safe; just the rows emitted before were written, and it is said which pair.
    ensures lost { result ≡ 6 → SaysLost (F.told files.old) (F.told files.new) (texts words.now) (S.told out.old) (S.told out.new) (E.told err.old) (E.told err.new) }

    // 8: want of memory, before anything was written or while a run was: then a front of its text was.
    ensures short { result ≡ 8 → FallsShort (F.told files.old) (F.told files.new) (texts words.now) (S.told out.old) (S.told out.new) }

    // There is no other status. 2, 5 and 8 have each a line of their own; at 0 nothing is said. It writes only at 0, 5, 6
    // and 8.
    ensures says { SaysAt result (E.told err.old) (E.told err.new) }
    ensures quiet { (result ≡ 0 → err.new ≡ err.old) × (result ≢ 0 → result ≢ 5 → result ≢ 6 → result ≢ 8 → out.new ≡ out.old) }

    // Behind a call that found no memory there is none. The count of read faults stays but at 4 and 8. No file is changed.
    ensures stays { StaysAt result (F.told files.old) (F.told files.new) }

    // Where the files tell what they hold and no count rose, what they hold is accepted and done, or it is refused,
    // unless no memory was to be had. Only a run under a script that isn't safe may lose a pair.
    ensures complete { IsComplete result (F.told files.old) (F.told files.new) (texts words.now) (S.told out.old) (S.told out.new) }
{
    match run(rt, alloc, words, files, out, gate) {
        Ok(()) => 0,
        Err(stop) => said(err, &stop),
    }
}

// Says why the program stops, and gives the status for that.
fn said<E: Sink>(err: &mut E, stop: &Stop) -> u8
    ensures status { result ≡ status_at stop.now }
    ensures line { Tells (E.told err.old) (E.told err.new) (line_at lines stop.now) }
{
    say_stop(err, USAGE, CANNOT_WRITE, OUT_OF_MEMORY, stop)
}

// Reads all inputs, and then runs what they say.
fn run<R: Threads + Wait + Sync, F: Files, S: Sink + Send, G: Gate>(
    rt: &R,
    alloc: Global,
    words: &[String],
    files: &mut F,
    out: &mut S,
    gate: &G,
) -> Result<(), Stop>
    ensures done { OnOk result (Lived (F.told files.old) (F.told files.new) (texts words.now) (S.told out.old) (S.told out.new) live.Done) }
    ensures usage { asked (as_run (texts words.now)) ≡ None → result ≡ Err Usage }
    ensures unasked { asked (as_run (texts words.now)) ≡ None → files.new ≡ files.old }
    ensures stops { IfErr result (λ stop. StopsTo (F.told files.old) (F.told files.new) (texts words.now) (S.told out.old) (S.told out.new) stop) }
    ensures cause { IfErr result (λ stop. HasCause (F.told files.old).read_faults (F.told files.new).read_faults stop) }
    ensures still { OnOk result ((F.told files.new).read_faults ≡ (F.told files.old).read_faults) }
    ensures wants { StopsAtWant (F.told files.old).wants (F.told files.new).wants (IsWant result) }
    ensures contents { (F.told files.new).contents ≡ (F.told files.old).contents }
    ensures saves { (F.told files.new).save_faults ≡ (F.told files.old).save_faults }
    ensures quiet { IfErr result (λ stop. IsQuiet out.old out.new stop) }
{
    let given = read_inputs(alloc, words, files)?;
    lived(rt, alloc, &given, gate, out)
}
