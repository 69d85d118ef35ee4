// What the walk asks of a run.
use std::alloc::Global;
use std::fmt;
use tuple_edge::OutOfMemory;

/// In what a state differs from what has to be so.
#[derive(Clone, Copy, Debug, PartialEq, Eq)]
pub enum Fault {
    /// The rows that were emitted.
    Rows,
    /// What is owed to a replica that takes over.
    Owed,
    /// The drain from there.
    Drain,
}

impl fmt::Display for Fault {
    fn fmt<W: fmt::Write>(&self, f: &mut fmt::Formatter<W>) -> fmt::Result {
        f.write_str(match *self {
            Fault::Rows => "the rows",
            Fault::Owed => "what is owed",
            Fault::Drain => "the drain",
        })
    }
}

/// How a drain of a state ended, or in what the state differs.
#[derive(Clone, Copy, Debug, PartialEq, Eq)]
pub enum Verdict {
    /// All rows came.
    Whole,
    /// Some replicas were lost, as they had to be.
    Lost,
    /// Something is otherwise than it has to be.
    Differs(Fault),
}

/// A run whose orders of events are tried.
pub trait Orders<E> {
    /// The run after some events.
    type Story: Drop;

    /// The run as it opens.
    fn opened(&self, alloc: Global) -> Result<Self::Story, OutOfMemory>;

    /// The events that may come next; failures only where they are asked for.
    fn offers(
        &self,
        alloc: Global,
        story: &Self::Story,
        failures: bool,
    ) -> Result<Vec<E>, OutOfMemory>;

    /// Whether an event is a failure, or a request after one.
    fn is_failure(&self, event: &E) -> bool;

    /// Applies an event, and says whether it is a step. One that isn't changes nothing.
    fn steps(&self, story: &mut Self::Story, event: E) -> Result<bool, OutOfMemory>;

    /// All by which a state can differ from another one.
    fn state(&self, alloc: Global, story: &Self::Story) -> Result<Vec<u8>, OutOfMemory>;

    /// Checks a state, and drains it.
    fn verdict(&self, alloc: Global, story: Self::Story) -> Result<Verdict, OutOfMemory>;

    /// The text of events, as `flux` reads it.
    fn text(&self, alloc: Global, events: &[E]) -> Result<Vec<u8>, OutOfMemory>;
}
