// The last steps of an answer: its file is saved, and then its text is written.
ghost use Rattle.command_course.specs.Steps.{IsWant};
ghost use Rattle.command_course.specs.declared.stop.Stop.TheVariants.{CannotWrite};
ghost use Rattle.flux_outside.specs.Outside.{StopsAtWant};
ghost use Rattle.flux_top.specs.Clauses.{IsQuiet};
ghost use Rattle.flux_top.specs.Finish.{IsFinished, StopsFinish};
ghost use Rattle.command_course.specs.Answers.{answer_of};
ghost use Rattle.look_top.specs.Lines.{name};
ghost use Rattle.look_top.specs.Stops.{drained_of, written_of};
ghost use Rattle.run_command.specs.Endings.{ending_of};
ghost use Rattle.std.specs.Prelude.{◌≡◌, ◌≢◌, Err, IfErr, IfOk, OnOk};
ghost use Rattle.tuple_edge.specs.declared.event.Drained.TheVariants as drained;

use command_course::{Answer, Ending, Saved, Stop};
use flux_outside::{Files, Sink};
use flux_top::finish;
use run_command::{Journal, Outcome};
use std::alloc::Global;
use tuple_edge::Drained;

/// The program's name, as it stands in what is said.
pub(crate) const NAME: &str = "flux_look";

// Whether the run that an answer tells of was whole; of another answer there is none.
fn drained_of(ending: Ending) -> Drained
    ensures { result ≡ drained_of ending }
{
    match ending {
        Ending::Done => Drained::Whole,
        Ending::Warned => Drained::Whole,
        Ending::Faulty => Drained::Whole,
        Ending::Lost { stage, part } => Drained::Lost { stage, part },
    }
}

// Saves a file, if there is one, and writes the text, as `flux` does with a journal.
fn handed_out<F: Files, S: Sink>(
    alloc: Global,
    files: &mut F,
    out: &mut S,
    outcome: &Outcome<'_>,
    ending: Ending,
) -> Result<Ending, Stop>
    requires { outcome.now.drained ≡ drained_of ending }
    ensures whole { IfOk result (λ how. (how ≡ ending) × (drained_of how ≡ drained.Whole)) }
    ensures finished { OnOk result (IsFinished (F.told files.old) (F.told files.new) (S.told out.old) (S.told out.new) (ending_of outcome.now)) }
    ensures stops { IfErr result (λ stop. StopsFinish name (F.told files.old) (F.told files.new) (S.told out.old) (S.told out.new) (drained_of ending) (ending_of outcome.now) stop) }
    ensures still { (F.told files.new).read_faults ≡ (F.told files.old).read_faults }
    ensures saves { result ≢ Err CannotWrite → (F.told files.new).save_faults ≡ (F.told files.old).save_faults }
    ensures wants { StopsAtWant (F.told files.old).wants (F.told files.new).wants (IsWant result) }
    ensures quiet { IfErr result (λ stop. IsQuiet out.old out.new stop) }
{
    finish(alloc, NAME, files, out, outcome)?;
    Ok(ending)
}

/// Saves the file of an answer, if it has one, and then writes its text.
pub(crate) fn finished<F: Files, S: Sink>(
    alloc: Global,
    files: &mut F,
    out: &mut S,
    answer: Answer,
) -> Result<Ending, Stop>
    ensures whole { IfOk result (λ how. (how ≡ answer.ending) × (drained_of how ≡ drained.Whole)) }
    ensures finished { OnOk result (IsFinished (F.told files.old) (F.told files.new) (S.told out.old) (S.told out.new) (written_of (answer_of answer))) }
    ensures stops { IfErr result (λ stop. StopsFinish name (F.told files.old) (F.told files.new) (S.told out.old) (S.told out.new) (drained_of answer.ending) (written_of (answer_of answer)) stop) }
    ensures still { (F.told files.new).read_faults ≡ (F.told files.old).read_faults }
    ensures saves { result ≢ Err CannotWrite → (F.told files.new).save_faults ≡ (F.told files.old).save_faults }
    ensures wants { StopsAtWant (F.told files.old).wants (F.told files.new).wants (IsWant result) }
    ensures quiet { IfErr result (λ stop. IsQuiet out.old out.new stop) }
{
    let Answer {
        text,
        ending,
        saved,
    } = answer;
    let drained = drained_of(ending);
    match saved {
        None => {
            let outcome = Outcome {
                text,
                journal: None,
                drained,
            };
            handed_out(alloc, files, out, &outcome, ending)
        }
        Some(Saved { name, bytes }) => {
            let journal = Some(Journal {
                name: name.as_str(),
                bytes,
            });
            let outcome = Outcome {
                text,
                journal,
                drained,
            };
            handed_out(alloc, files, out, &outcome, ending)
        }
    }
}
