//! Tests of trades that come: sources in memory and of the system, bytes that are pushed one by one and read in pieces of any
//! size, sources that fail in the middle, and the names of symbols. Its functions are tests and what serves them.
#![tactic(auto)]

#[cfg(test)]
mod heard;
#[cfg(test)]
mod names;
#[cfg(test)]
mod pieces;
#[cfg(test)]
mod sources;
