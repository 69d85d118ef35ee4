// Why a text is no script.
ghost use Rattle.std.specs.Prelude.{◌≡◌};
ghost use Rattle.failure_script.specs.Messages.{fault_at};

use std::error::Error;
use std::fmt;
use tuple_edge::OutOfMemory;

/// Why a text is no script for a plan. Lines count from 1. Printed, it is what the program says of the text.
#[derive(Clone, Copy, Debug, PartialEq, Eq)]
pub enum ScriptError {
    /// A word is missing or one too many, a fixed word differs, or a word hasn't the form of its place.
    Grammar { line: u64 },
    /// The plan has no such replica.
    NoSuchReplica { line: u64 },
    /// A number is outside its limits.
    Range { line: u64 },
    /// An earlier line has an order for the same replica.
    Twice { line: u64 },
    /// The text has this many bytes, more than it may have.
    TooLong { bytes: u64 },
    /// No memory was to be had.
    OutOfMemory,
}

/// Why a line of a script is refused.
#[derive(Drop)]
pub(crate) enum Fault {
    Grammar,
    NoSuchReplica,
    Range,
    Twice,
}

impl Fault {
    // The fault of the line with this number.
    pub(crate) fn at(self, line: u64) -> ScriptError
        ensures { result ≡ fault_at line self }
    {
        match self {
            Fault::Grammar => ScriptError::Grammar { line },
            Fault::NoSuchReplica => ScriptError::NoSuchReplica { line },
            Fault::Range => ScriptError::Range { line },
            Fault::Twice => ScriptError::Twice { line },
        }
    }
}

impl fmt::Display for ScriptError {
    ghost use Rattle.std.specs.Prelude.{Some};
    ghost use Rattle.failure_script.specs.Messages.{script_fault};

    ghost output = { λ e. Some (script_fault e) };

    fn fmt<W: fmt::Write>(&self, f: &mut fmt::Formatter<W>) -> fmt::Result {
        match self {
            ScriptError::Grammar { line } => write!(f, "line {line}: grammar"),
            ScriptError::NoSuchReplica { line } => write!(f, "line {line}: no such replica"),
            ScriptError::Range { line } => write!(f, "line {line}: range"),
            ScriptError::Twice { line } => write!(f, "line {line}: twice"),
            ScriptError::TooLong { .. } => f.write_str("too long"),
            ScriptError::OutOfMemory => f.write_str("out of memory"),
        }
    }
}

impl Error for ScriptError {}

impl From<OutOfMemory> for ScriptError {
    ghost use Rattle.std.specs.Prelude.{◌≡◌};
    ghost use Rattle.failure_script.specs.declared.error.ScriptError.TheVariants.{OutOfMemory as memory};

    ghost from_gives = { λ _ e. e ≡ memory };

    fn from(_error: OutOfMemory) -> ScriptError {
        ScriptError::OutOfMemory
    }
}
