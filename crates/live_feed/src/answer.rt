// What a live run answers.

/// How a live run ended.
#[derive(Clone, Copy, Debug, PartialEq, Eq)]
pub enum Live {
    /// The whole text was put.
    Done,
    /// This is the first pair that was lost before all was emitted. What was emitted before was put.
    Lost { stage: u32, part: u32 },
    /// The wire took not all.
    WriteFault,
    /// No memory was to be had.
    OutOfMemory,
}
