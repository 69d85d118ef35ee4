//! What happened in a run: its failures, stops, takeovers and catch-ups, event by event.
//!
//! It promises that `watch` tells just the happenings that are defined of the machine's states along a list of events,
//! each once and at its place, and that each frame is that of the state at its column's end. It stands on `flux_core`,
//! whose nodes it looks at before and after each event, at the one node that the event changes.
#![tactic(auto)]

mod frame;
mod framing;
mod glimpse;
mod happening;
mod law;
mod looking;
mod mode;
mod pairs;
mod seeing;
mod telling;
mod trace;
mod watching;

pub use frame::Frame;
#[doc(hidden)]
pub use glimpse::{Glimpse, Known, Moving};
pub use happening::{Fell, Happening, Told};
pub use law::{last_frames_are_of_the_end, worked_rows};
pub use mode::Mode;
#[doc(hidden)]
pub use trace::{At, Fall, Trace};
pub use watching::{WatchError, WatchedRun, watch};
