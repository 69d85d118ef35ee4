//! A file of trades parted in two: the records that `flux` accepts, under their header, and those that it refuses, each with
//! its line and why.
//!
//! `sift_trades` gives both texts as csv writes them. A law says that each record stands in one of them, in order, and a
//! clause that the text that is kept is accepted. It stands on record_faults for why a record is refused, on input_faults
//! for its line and for what may stand, and on csv for the records.
#![tactic(auto)]

mod law;
mod rejects;
mod sift;

pub use law::each_stands_once;
pub use sift::{Sifted, sift_trades};
