// Events with their lines.
use tuple_edge::Event;

/// An event, with the line of the text that says it. Lines count from 1.
#[derive(Clone, Copy, Debug, PartialEq, Eq)]
pub struct Lined {
    pub line: u64,
    pub event: Event,
}
