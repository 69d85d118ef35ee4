// Why a text is no plan.
ghost use Rattle.std.specs.Prelude.{◌≡◌};
ghost use Rattle.plan_reader.specs.Messages.{fault_at};

use std::error::Error;
use std::fmt;
use tuple_edge::OutOfMemory;

/// Why a text is no plan. Lines count from 1. Printed, it is what the program says of the text.
#[derive(Clone, Copy, Debug, PartialEq, Eq)]
pub enum PlanError {
    /// A word is missing or one too many, a fixed word differs, a setting stands twice or after a
    /// stage, or a stage's number isn't the next one.
    Grammar { line: u64 },
    /// A word isn't listed where a line, a column, a key, a comparison or an operator is named.
    UnknownWord { line: u64 },
    /// A word in a number's place is no number word.
    Number { line: u64 },
    /// A number is outside its limits.
    Range { line: u64 },
    /// No line says a stage.
    NoStage,
    /// A stage more than there may be.
    TooMany { line: u64 },
    /// The text has this many bytes, more than it may have.
    TooLong { bytes: u64 },
    /// The plan has this many edges, more than its mark allows.
    Crowded { edges: u64, mark: u64 },
    /// No memory was to be had.
    OutOfMemory,
    /// A stage after a join.
    JoinNotLast { line: u64 },
}

/// Why a line of a plan is refused.
#[derive(Drop)]
pub(crate) enum Fault {
    Grammar,
    UnknownWord,
    Number,
    Range,
    TooMany,
    JoinNotLast,
}

impl Fault {
    // The fault of the line with this number.
    pub(crate) fn at(self, line: u64) -> PlanError
        ensures { result ≡ fault_at line self }
    {
        match self {
            Fault::Grammar => PlanError::Grammar { line },
            Fault::UnknownWord => PlanError::UnknownWord { line },
            Fault::Number => PlanError::Number { line },
            Fault::Range => PlanError::Range { line },
            Fault::TooMany => PlanError::TooMany { line },
            Fault::JoinNotLast => PlanError::JoinNotLast { line },
        }
    }
}

impl fmt::Display for PlanError {
    ghost use Rattle.std.specs.Prelude.{Some};
    ghost use Rattle.plan_reader.specs.Messages.{plan_fault};

    ghost output = { λ e. Some (plan_fault e) };

    fn fmt<W: fmt::Write>(&self, f: &mut fmt::Formatter<W>) -> fmt::Result {
        match self {
            PlanError::Grammar { line } => write!(f, "line {line}: grammar"),
            PlanError::UnknownWord { line } => write!(f, "line {line}: unknown word"),
            PlanError::Number { line } => write!(f, "line {line}: number"),
            PlanError::Range { line } => write!(f, "line {line}: range"),
            PlanError::NoStage => f.write_str("no stage"),
            PlanError::TooMany { line } => write!(f, "line {line}: too many stages"),
            PlanError::TooLong { .. } => f.write_str("too long"),
            PlanError::Crowded { edges, mark } => write!(f, "crowded, edges {edges}, mark {mark}"),
            PlanError::OutOfMemory => f.write_str("out of memory"),
            PlanError::JoinNotLast { line } => write!(f, "line {line}: stage after join"),
        }
    }
}

impl Error for PlanError {}

impl From<OutOfMemory> for PlanError {
    ghost use Rattle.std.specs.Prelude.{◌≡◌};
    ghost use Rattle.plan_reader.specs.declared.error.PlanError.TheVariants.{OutOfMemory as memory};

    ghost from_gives = { λ _ e. e ≡ memory };

    fn from(_error: OutOfMemory) -> PlanError {
        PlanError::OutOfMemory
    }
}
