//! Tests of the operators by their public calls: rows worked out by hand, the entries of a past moment beside a copy,
//! and many keys. Its functions are tests and what serves them. It stands above stream_ops so that stream_ops is
//! proved once, and not a second time with its tests.
#![tactic(auto)]

#[cfg(test)]
mod answers;
#[cfg(test)]
mod chance;
#[cfg(test)]
mod join_state;
#[cfg(test)]
mod joins;
#[cfg(test)]
mod many_keys;
#[cfg(test)]
mod steps;
#[cfg(test)]
mod watches;
