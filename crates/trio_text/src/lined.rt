// Events of groups with their lines.
use trio_machine::TrioEvent;

/// An event, with the line of the text that says it. Lines count from 1.
#[derive(Clone, Copy, Debug, PartialEq, Eq)]
pub struct TrioLined {
    pub line: u64,
    pub event: TrioEvent,
}
