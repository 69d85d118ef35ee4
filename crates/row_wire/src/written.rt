// How far a text was written.

/// Whether all that was to be written so far was put. If it wasn't, nothing more is put.
#[derive(Clone, Copy, Debug, PartialEq, Eq)]
pub enum Written {
    /// It was.
    Whole,
    /// A put failed.
    Broken,
    /// No memory was to be had.
    Short,
}
