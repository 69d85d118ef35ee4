//! Where the bytes of an input come from, piece by piece.
//!
//! `ByteSource` says what a read does and what of it is told: the bytes that were given, those that are left, where that can be
//! known, whether the input has ended, and how often a read has failed. `MemSource` gives a text in pieces of given sizes, and
//! fails exactly where it is told to. `StdSource` is a reader of std, and tells what it gave whatever the reader tells. It stands
//! on flux_outside for what a fault is, and on past for the bytes that only proofs remember.
#![tactic(auto)]

mod mem_source;
mod source;
mod std_source;

pub use mem_source::MemSource;
pub use source::{ByteSource, ReadFailed};
pub use std_source::StdSource;
