// Why the program can't go on.
use std::alloc::AllocError;
use std::{fmt, io};
use tuple_edge::OutOfMemory;

/// Why the program can't go on.
#[derive(Clone, Copy)]
pub(crate) enum Fault {
    /// A call found no memory again and again.
    OutOfMemory,
    /// A file can't be read.
    CannotRead,
    /// A line of a list of stories, or a file that it names, has another form.
    Form,
    /// Standard output can't be written.
    CannotWrite,
}

impl Fault {
    /// The status with which the program ends.
    pub(crate) fn status(self) -> u8 {
        match self {
            Fault::Form => 3,
            Fault::CannotRead => 4,
            Fault::CannotWrite => 5,
            Fault::OutOfMemory => 8,
        }
    }
}

impl fmt::Display for Fault {
    fn fmt<W: fmt::Write>(&self, f: &mut fmt::Formatter<W>) -> fmt::Result {
        f.write_str(match *self {
            Fault::OutOfMemory => "out of memory",
            Fault::CannotRead => "cannot read",
            Fault::Form => "not of its form",
            Fault::CannotWrite => "cannot write",
        })
    }
}

impl From<OutOfMemory> for Fault {
    fn from(_error: OutOfMemory) -> Fault {
        Fault::OutOfMemory
    }
}

impl From<AllocError> for Fault {
    fn from(_error: AllocError) -> Fault {
        Fault::OutOfMemory
    }
}

// What is read is read in `inputs`; the other calls of io write.
impl From<io::Error> for Fault {
    fn from(_error: io::Error) -> Fault {
        Fault::CannotWrite
    }
}
