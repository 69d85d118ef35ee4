// Why a command stops, with the line that says so. What is said of an input has no program's name: the program puts its own before it.
use tuple_edge::OutOfMemory;

/// Why a command stops before its text is written whole.
#[derive(Drop)]
pub enum Stop {
    /// The words have no form.
    Usage,
    /// An input is refused, by this line.
    Refused { line: String },
    /// A file can't be read, as this line says.
    CannotRead { line: String },
    /// A file can't be saved, or the sink took no more.
    CannotWrite,
    /// A pair lost both of its replicas before all rows were emitted, as this line of the program says. `run` writes the rows that were
    /// emitted, and `trial` nothing.
    PairLost { stage: u32, part: u32, line: String },
    /// No memory was to be had.
    OutOfMemory,
}

impl From<OutOfMemory> for Stop {
    ghost use Rattle.std.specs.Prelude.{◌≡◌};
    ghost use Rattle.command_course.specs.declared.stop.Stop.TheVariants as stop;

    ghost from_gives = { λ _ s. s ≡ stop.OutOfMemory };

    fn from(_error: OutOfMemory) -> Stop {
        Stop::OutOfMemory
    }
}
