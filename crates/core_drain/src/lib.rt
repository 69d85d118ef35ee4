//! The drain of a core: from whatever state it stands for, the caller alone brings all of the output, or names the
//! first pair that is lost.
//!
//! It stands on flux_core, whose events it applies one by one, on event_log, which keeps them, and on the machine's law
//! that the drain is whole where no pair is lost.
#![tactic(auto)]

mod draining;
mod next;
mod serving;
mod turn;

pub use draining::drain;
pub use serving::first_lost;
pub use tuple_edge::Drained;
