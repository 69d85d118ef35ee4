//! Links between nodes: what one end sends the other end gives, in order and with its place.
//!
//! An [`Outlet`] sends packets and an [`Inlet`] gives them as arrivals. [`ring`] makes a link whose
//! ends may go to two threads, [`MemLink`] is both ends of an exact link in memory, and [`LossyIn`]
//! drops, repeats and reorders for tests what another inlet gives. No call waits.
//!
//! It promises that the arrivals of a ring and of a `MemLink` are the packets sent, in order and each
//! with its place, that an end refuses only where it knows of no room or of no packet, that a
//! `LossyIn` gives what its choices make of the arrivals, and that both ends of a ring in one hand
//! show that what arrived was sent. It stands on tuple_edge and rtrb.
#![tactic(auto)]

mod arrival;
mod lossy;
mod memory;
mod ready;
mod rings;
mod traits;

pub use arrival::Arrival;
pub use lossy::{Choice, LossyIn};
pub use memory::MemLink;
pub use rings::{RING_PACKETS, RingIn, RingOut, ring};
pub use traits::{Inlet, Outlet};
