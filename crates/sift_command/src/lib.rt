//! The command `sift` of `flux_look`: it reads a file of trades, and gives the records that `flux` accepts and those that it
//! refuses.
//!
//! The clauses say which file is read, and that the two texts are those of its bytes. It stands on command_course for the
//! reading, and on trade_sift for the texts.
#![tactic(auto)]

mod sift;

pub use sift::sift_report;
