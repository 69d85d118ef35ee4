// What a command comes to.

/// How a command ends that is not stopped before.
#[derive(Clone, Copy, Debug, PartialEq, Eq)]
pub enum Ending {
    /// Its text is what was asked for.
    Done,
    /// So it is, and it warns, or says what was not obeyed.
    Warned,
    /// An input has a fault, which its text says.
    Faulty,
    /// The run that it made lost this pair, as its text says.
    Lost { stage: u32, part: u32 },
}

/// A file that is to be saved: its name, and what it is to hold.
#[derive(Drop)]
pub struct Saved {
    pub name: String,
    pub bytes: Vec<u8>,
}

/// What a command writes, the file that it saves before, and how it ends then.
#[derive(Drop)]
pub struct Answer {
    pub text: Vec<u8>,
    pub ending: Ending,
    pub saved: Option<Saved>,
}
