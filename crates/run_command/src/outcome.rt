// What a command comes to before anything of it is written.
use tuple_edge::Drained;

/// A journal and the name of the file that it is saved to.
#[derive(Drop)]
pub struct Journal<'a> {
    pub name: &'a str,
    /// The text of the events.
    pub bytes: Vec<u8>,
}

/// What a command is to save and to write.
#[derive(Drop)]
pub struct Outcome<'a> {
    pub text: Vec<u8>,
    /// The journal, where a file is named for it. It is saved before the text is written.
    pub journal: Option<Journal<'a>>,
    /// Whether all was done, or a pair was lost.
    pub drained: Drained,
}
