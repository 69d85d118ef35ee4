//! The drain of a core of groups of three: from whatever state it stands for, the caller alone brings all of the
//! output, or names the first group that is lost.
//!
//! It stands on trio_core, whose events it applies one by one, and on the law of trio_machine that the drain is
//! whole where no group is lost.
#![tactic(auto)]

mod draining;
mod law;
mod next;
mod serving;
mod turn;
mod worked;

pub use draining::drain;
pub use law::endings_are_exact;
pub use tuple_edge::Drained;
pub use worked::worked_rows;
