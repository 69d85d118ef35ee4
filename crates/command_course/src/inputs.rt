// The reading of an input: a file is read and checked before the next one is read.
ghost use Rattle.std.specs.Prelude.{◌≡◌, ◌<◌, ℕ, List, length, Ok, IfErr, IfOk, IfSome, string_bytes};
ghost use Rattle.command_course.specs.Course.{Reading};
ghost use Rattle.command_course.specs.Lines.{cannot_read_line, line_of};
ghost use Rattle.command_course.specs.Steps.{Gives, IsRefusedBy, IsUnreadBy, OnlyReads, StopsAt, StopsOn};

use crate::stop::Stop;
use flux_outside::{FileStop, Files, Got};
use std::alloc::Global;
use std::fmt::Display;
use tuple_edge::OutOfMemory;

/// A kind of input: how many bytes its file may have, what they say, and why they are refused.
pub trait Input {
    /// What such a file says.
    type Value;

    /// The most bytes that it may have.
    ghost most: { Self → ℕ };

    /// What a file of this name with these bytes says, or the line by which it is refused.
    ghost reading: { Self → List ℕ → List ℕ → Reading Self.Value };

    /// What is known of all that such a file may say.
    ghost keeps: { Self → Self.Value → Type 0 };

    /// The most bytes that it may have.
    fn most(&self) -> u64
        ensures { result ≡ most self.now };

    /// What the bytes of a file of this name say.
    fn value(&self, alloc: Global, name: &str, bytes: &[u8]) -> Result<Self::Value, Stop>
        ensures gives { IfOk result (λ value. reading self.now name.now bytes.now ≡ Ok value) }
        ensures keeps { IfOk result (keeps self.now) }
        ensures stops { IfErr result (λ stop. StopsOn (reading self.now name.now bytes.now) stop) };

    /// Why a file of this name with too many bytes is refused; `seen` is one more than it may have.
    fn too_long(&self, alloc: Global, name: &str, seen: u64) -> Stop
        ensures { (bytes : List ℕ) → most self.now < length bytes → StopsOn (reading self.now name.now bytes) result };
}

/// Reads an input.
#[tactic(auto, using(crate::proofs::Courses::gives_whole, crate::proofs::Courses::stops_whole, crate::proofs::Courses::stops_long, crate::proofs::Courses::stops_unread, crate::proofs::Courses::stops_want))]
pub fn input_at<F: Files, I: Input>(
    alloc: Global,
    files: &mut F,
    name: &str,
    input: &I,
) -> Result<I::Value, Stop>
    ensures gives { IfOk result (λ value. Gives (F.told files.old) (F.told files.new) (I.most input.now) (I.reading input.now) name.now value) }
    ensures keeps { IfOk result (I.keeps input.now) }
    ensures stops { IfErr result (λ stop. StopsAt (F.told files.old) (F.told files.new) (I.most input.now) (I.reading input.now) name.now stop) }
    ensures reads { OnlyReads (F.told files.old) (F.told files.new) result }
{
    let mut bytes = Vec::new(alloc);
    match files.read(name, input.most(), &mut bytes) {
        Err(FileStop::Failed) => Err(unread(alloc, name)),
        Err(FileStop::OutOfMemory) => Err(Stop::OutOfMemory),
        Ok(Got::TooLong { seen }) => Err(input.too_long(alloc, name, seen)),
        Ok(Got::Whole) => input.value(alloc, name, &bytes),
    }
}

// The line that a file can't be read.
fn unread(alloc: Global, name: &str) -> Stop
    ensures { IsUnreadBy result (cannot_read_line name.now) }
{
    match line_about(alloc, name, "cannot read") {
        Ok(line) => Stop::CannotRead { line },
        Err(_) => Stop::OutOfMemory,
    }
}

/// Why a command stops that refuses a file. Its line says the fault as the fault prints itself.
pub fn refused<D: Display + Drop>(alloc: Global, name: &str, fault: D) -> Stop
    ensures { IfSome (D.output fault) (λ said. IsRefusedBy result (line_of name.now said) (Unit {0})) }
{
    match line_about(alloc, name, fault) {
        Ok(line) => Stop::Refused { line },
        Err(_) => Stop::OutOfMemory,
    }
}

// The line about a file.
fn line_about<D: Display + Drop>(alloc: Global, name: &str, fault: D) -> Result<String, OutOfMemory>
    ensures { IfOk result (λ line. IfSome (D.output fault) (λ said. string_bytes line ≡ line_of name.now said)) }
{
    let line = format!(in alloc; "{name}: {fault}\n")?;
    Ok(line)
}
