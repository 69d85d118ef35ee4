// Why a text says no events.
ghost use Rattle.std.specs.Prelude.{◌≡◌};
ghost use Rattle.run_journal.specs.Messages.{fault_at};

use std::error::Error;
use std::fmt;
use tuple_edge::OutOfMemory;

/// Why a text says no events. Lines count from 1. Printed, it is what the program says of the text.
#[derive(Clone, Copy, Debug, PartialEq, Eq)]
pub enum EventsError {
    /// The first line that counts isn't `events 1`.
    Header,
    /// A first word isn't listed, or a line has another form than its first word asks for.
    Grammar { line: u64 },
    /// The plan doesn't have the node, link or edge, or a node that isn't a replica stands in a
    /// replica's place.
    NoSuchNode { line: u64 },
    /// A number is outside its limits.
    Range { line: u64 },
    /// There are more events than there may be.
    TooMany,
    /// The text has this many bytes, more than it may have.
    TooLong { bytes: u64 },
    /// No memory was to be had.
    OutOfMemory,
}

/// Why a line of events is refused.
#[derive(Drop)]
pub enum Fault {
    /// The line's first word isn't listed, or the line has another form than that word asks for.
    Grammar,
    /// The plan doesn't have what stands there.
    NoSuchNode,
    /// A number is outside its limits.
    Range,
}

impl Fault {
    /// The fault of the line with this number.
    pub fn at(self, line: u64) -> EventsError
        ensures { result ≡ fault_at line self }
    {
        match self {
            Fault::Grammar => EventsError::Grammar { line },
            Fault::NoSuchNode => EventsError::NoSuchNode { line },
            Fault::Range => EventsError::Range { line },
        }
    }
}

impl fmt::Display for EventsError {
    ghost use Rattle.std.specs.Prelude.{Some};
    ghost use Rattle.run_journal.specs.Messages.{events_fault};

    ghost output = { λ e. Some (events_fault e) };

    fn fmt<W: fmt::Write>(&self, f: &mut fmt::Formatter<W>) -> fmt::Result {
        match self {
            EventsError::Header => f.write_str("header"),
            EventsError::Grammar { line } => write!(f, "line {line}: grammar"),
            EventsError::NoSuchNode { line } => write!(f, "line {line}: no such node"),
            EventsError::Range { line } => write!(f, "line {line}: range"),
            EventsError::TooMany => f.write_str("too many events"),
            EventsError::TooLong { .. } => f.write_str("too long"),
            EventsError::OutOfMemory => f.write_str("out of memory"),
        }
    }
}

impl Error for EventsError {}

impl From<OutOfMemory> for EventsError {
    ghost use Rattle.std.specs.Prelude.{◌≡◌};
    ghost use Rattle.run_journal.specs.declared.error.EventsError.TheVariants.{OutOfMemory as memory};

    ghost from_gives = { λ _ e. e ≡ memory };

    fn from(_error: OutOfMemory) -> EventsError {
        EventsError::OutOfMemory
    }
}
