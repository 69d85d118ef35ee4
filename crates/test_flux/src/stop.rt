// Why no more cases are run.
use std::alloc::{AllocError, AllocFailed};
use tuple_edge::OutOfMemory;

/// Why a file of cases is not run to its end.
#[derive(Clone, Copy)]
pub(crate) enum Stop {
    /// This line, from 1, has no form.
    NoForm { line: usize },
    /// The file wasn't read, or is no text.
    NotRead,
    /// No memory was to be had.
    OutOfMemory,
}

impl From<OutOfMemory> for Stop {
    fn from(_error: OutOfMemory) -> Stop {
        Stop::OutOfMemory
    }
}

impl From<AllocError> for Stop {
    fn from(_error: AllocError) -> Stop {
        Stop::OutOfMemory
    }
}

impl<T: Drop> From<AllocFailed<T>> for Stop {
    fn from(_error: AllocFailed<T>) -> Stop {
        Stop::OutOfMemory
    }
}
