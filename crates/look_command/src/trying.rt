// The reading of a file, whatever it says.
ghost use Rattle.command_course.specs.Lines.{cannot_read_line};
ghost use Rattle.command_course.specs.Steps.{GivesBy, IsUnreadBy, OnlyReads, StopsBy};
ghost use Rattle.look_command.specs.Trying.{IsTried, named_of, tried_of, tries, tries_named};
ghost use Rattle.std.specs.Prelude.{IfErr, IfOk, option_map};

use command_course::{Input, Stop, refused};
use flux_outside::{FileStop, Files, Got};
use std::alloc::Global;

/// Reads a file of a kind, and gives what it says, or the line of its fault.
#[tactic(auto, using(crate::proofs::Tries::tried_whole, crate::proofs::Tries::tried_long, crate::proofs::Tries::untried_whole, crate::proofs::Tries::untried_long))]
pub(crate) fn tried_at<F: Files, I: Input>(
    alloc: Global,
    files: &mut F,
    name: &str,
    input: &I,
) -> Result<Result<I::Value, String>, Stop>
    ensures gives { IfOk result (λ tried. GivesBy (F.told files.old) (F.told files.new) (tries (I.most input.now) (I.reading input.now) name.now) (tried_of tried)) }
    ensures stops { IfErr result (λ stop. StopsBy (F.told files.old) (F.told files.new) (tries (I.most input.now) (I.reading input.now) name.now) stop) }
    ensures reads { OnlyReads (F.told files.old) (F.told files.new) result }
{
    let mut bytes = Vec::new(alloc);
    match files.read(name, input.most(), &mut bytes) {
        Err(FileStop::Failed) => Err(unread(alloc, name)),
        Err(FileStop::OutOfMemory) => Err(Stop::OutOfMemory),
        Ok(Got::TooLong { seen }) => tried(Err(input.too_long(alloc, name, seen))),
        Ok(Got::Whole) => tried(input.value(alloc, name, &bytes)),
    }
}

// What was read, where a refusal is a fault and no reason to stop. Every other stop goes on; `?` would hand on a refusal too.
fn tried<T>(read: Result<T, Stop>) -> Result<Result<T, String>, Stop>
    ensures { IsTried read result }
{
    match read {
        Ok(value) => Ok(Ok(value)),
        Err(Stop::Refused { line }) => Ok(Err(line)),
        Err(stop) => Err(stop),
    }
}

/// Reads a file of a kind where it is named, and gives what it says, or the line of its fault.
#[tactic(auto, using(crate::proofs::Ways::reads_none, crate::proofs::Ways::reads_passed, crate::proofs::Ways::reads_then))]
pub(crate) fn tried_if_named<F: Files, I: Input>(
    alloc: Global,
    files: &mut F,
    name: Option<&str>,
    input: &I,
) -> Result<Option<Result<I::Value, String>>, Stop>
    ensures gives { IfOk result (λ tried. GivesBy (F.told files.old) (F.told files.new) (tries_named (I.most input.now) (I.reading input.now) (option_map (λ n. n.now) name.entry)) (named_of tried)) }
    ensures stops { IfErr result (λ stop. StopsBy (F.told files.old) (F.told files.new) (tries_named (I.most input.now) (I.reading input.now) (option_map (λ n. n.now) name.entry)) stop) }
    ensures reads { OnlyReads (F.told files.old) (F.told files.new) result }
{
    match name {
        None => Ok(None),
        Some(name) => {
            let tried = tried_at(alloc, files, name, input)?;
            Ok(Some(tried))
        }
    }
}

// The line that a file can't be read.
fn unread(alloc: Global, name: &str) -> Stop
    ensures { IsUnreadBy result (cannot_read_line name.now) }
{
    match refused(alloc, name, "cannot read") {
        Stop::Refused { line } => Stop::CannotRead { line },
        other => other,
    }
}
