// The last steps of a command: its journal is saved, and then its text is written.
ghost use Rattle.std.specs.Prelude.{◌≡◌, ◌≢◌, Err, IfErr, IfOk, OnOk};
ghost use Rattle.command_course.specs.Steps.{IsWant};
ghost use Rattle.command_course.specs.declared.stop.Stop.TheVariants.{CannotWrite};
ghost use Rattle.flux_outside.specs.Outside.{StopsAtWant};
ghost use Rattle.flux_top.specs.Clauses.{IsQuiet};
ghost use Rattle.flux_top.specs.Finish.{IsFinished, IsPut, IsSaved, Says, StopsFinish, StopsPut, StopsSave};
ghost use Rattle.run_command.specs.Endings.{ending_of};
ghost use Rattle.tuple_edge.specs.declared.event.Drained.TheVariants as drained;

use crate::lines::line_of_loss;
use command_course::Stop;
use flux_outside::{Failed, FileStop, Files, Sink, write_all};
use run_command::Outcome;
use std::alloc::Global;
use tuple_edge::{Drained, OutOfMemory};

/// Saves the file that is to be saved, if there is one, and then writes the text. What a program of this name says of a lost
/// pair is made first, so that nothing but the save can want memory.
pub fn finish<F: Files, S: Sink>(
    alloc: Global,
    name: &str,
    files: &mut F,
    out: &mut S,
    outcome: &Outcome<'_>,
) -> Result<(), Stop>
    ensures whole { OnOk result (outcome.now.drained ≡ drained.Whole) }
    ensures finished { OnOk result (IsFinished (F.told files.old) (F.told files.new) (S.told out.old) (S.told out.new) (ending_of outcome.now)) }
    ensures stops { IfErr result (λ stop. StopsFinish name.now (F.told files.old) (F.told files.new) (S.told out.old) (S.told out.new) outcome.now.drained (ending_of outcome.now) stop) }
    ensures still { (F.told files.new).read_faults ≡ (F.told files.old).read_faults }
    ensures saves { result ≢ Err CannotWrite → (F.told files.new).save_faults ≡ (F.told files.old).save_faults }
    ensures wants { StopsAtWant (F.told files.old).wants (F.told files.new).wants (IsWant result) }
    ensures quiet { IfErr result (λ stop. IsQuiet out.old out.new stop) }
{
    let lost = said_of(alloc, name, outcome.drained)?;
    save(files, outcome)?;
    written(out, name, outcome, lost)
}

// Why a command stops whose run lost a pair.
fn said_of(alloc: Global, name: &str, how: Drained) -> Result<Option<Stop>, OutOfMemory>
    ensures { IfOk result (Says name.now how) }
{
    match how {
        Drained::Whole => Ok(None),
        Drained::Lost { stage, part } => {
            let line = line_of_loss(alloc, name, stage, part)?;
            Ok(Some(Stop::PairLost { stage, part, line }))
        }
    }
}

// Saves the journal, if there is one.
fn save<F: Files>(files: &mut F, outcome: &Outcome<'_>) -> Result<(), Stop>
    ensures saved { OnOk result (IsSaved (F.told files.old) (F.told files.new) (ending_of outcome.now).saved) }
    ensures stops { IfErr result (λ stop. StopsSave (F.told files.old) (F.told files.new) (ending_of outcome.now).saved stop) }
    ensures still { (F.told files.new).read_faults ≡ (F.told files.old).read_faults }
    ensures saves { result ≢ Err CannotWrite → (F.told files.new).save_faults ≡ (F.told files.old).save_faults }
    ensures wants { StopsAtWant (F.told files.old).wants (F.told files.new).wants (IsWant result) }
{
    match &outcome.journal {
        None => Ok(()),
        Some(journal) => match files.save(journal.name, &journal.bytes) {
            Ok(()) => Ok(()),
            Err(FileStop::Failed) => Err(Stop::CannotWrite),
            Err(FileStop::OutOfMemory) => Err(Stop::OutOfMemory),
        },
    }
}

// Writes the text, and says then if a pair was lost, by the line of a program of this name that was made before.
fn written<S: Sink>(
    out: &mut S,
    _name: &str,
    outcome: &Outcome<'_>,
    lost: Option<Stop>,
) -> Result<(), Stop>
    requires { Says _name.now outcome.now.drained lost }
    ensures put { OnOk result (IsPut (S.told out.old) (S.told out.new) outcome.now.text.items) }
    ensures whole { OnOk result (outcome.now.drained ≡ drained.Whole) }
    ensures stops { IfErr result (λ stop. StopsPut _name.now (S.told out.old) (S.told out.new) outcome.now.drained outcome.now.text.items stop) }
{
    match write_all(out, &outcome.text) {
        Err(Failed) => Err(Stop::CannotWrite),
        Ok(()) => match lost {
            None => Ok(()),
            Some(stop) => Err(stop),
        },
    }
}
