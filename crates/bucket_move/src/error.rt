// Why a text is no moves.
ghost use Rattle.std.specs.Prelude.{◌≡◌};
ghost use Rattle.bucket_move.specs.Messages.{fault_at};

use std::error::Error;
use std::fmt;
use tuple_edge::OutOfMemory;

/// Why a text doesn't say moves for a plan. Lines count from 1. Printed, it is what the program says of the text.
#[derive(Clone, Copy, Debug, PartialEq, Eq)]
pub enum MovesError {
    /// The first line that counts isn't `moves 1`, or is missing.
    Header,
    /// A word is missing or one too many, a fixed word differs, or a word in a number's place is no number word.
    Grammar { line: u64 },
    /// A number is outside its limits, or there is no mark after so many rows.
    Range { line: u64 },
    /// The move is to be made sooner than that of the line before.
    NotRising { line: u64 },
    /// The text has this many bytes, more than it may have.
    TooLong { bytes: u64 },
    /// No memory was to be had.
    OutOfMemory,
}

/// Why a line of moves is refused.
#[derive(Drop)]
pub(crate) enum Fault {
    Grammar,
    Range,
    NotRising,
}

impl Fault {
    // The fault of the line with this number.
    pub(crate) fn at(self, line: u64) -> MovesError
        ensures { result ≡ fault_at line self }
    {
        match self {
            Fault::Grammar => MovesError::Grammar { line },
            Fault::Range => MovesError::Range { line },
            Fault::NotRising => MovesError::NotRising { line },
        }
    }
}

impl fmt::Display for MovesError {
    ghost use Rattle.std.specs.Prelude.{Some};
    ghost use Rattle.bucket_move.specs.Messages.{moves_fault};

    ghost output = { λ e. Some (moves_fault e) };

    fn fmt<W: fmt::Write>(&self, f: &mut fmt::Formatter<W>) -> fmt::Result {
        match self {
            MovesError::Header => f.write_str("header"),
            MovesError::Grammar { line } => write!(f, "line {line}: grammar"),
            MovesError::Range { line } => write!(f, "line {line}: range"),
            MovesError::NotRising { line } => write!(f, "line {line}: not rising"),
            MovesError::TooLong { .. } => f.write_str("too long"),
            MovesError::OutOfMemory => f.write_str("out of memory"),
        }
    }
}

impl Error for MovesError {}

impl From<OutOfMemory> for MovesError {
    ghost use Rattle.std.specs.Prelude.{◌≡◌};
    ghost use Rattle.bucket_move.specs.declared.error.MovesError.TheVariants.{OutOfMemory as memory};

    ghost from_gives = { λ _ e. e ≡ memory };

    fn from(_error: OutOfMemory) -> MovesError {
        MovesError::OutOfMemory
    }
}
