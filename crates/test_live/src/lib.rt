//! Tests of live runs by public calls: that the text is that of the output, what is put where a wire fails at each of
//! its puts, a pair that is lost, that rows are put while the run goes on, however slow the wire is, and which workers the
//! programs have and how many turns these take. Its functions are tests and what serves them. It stands above live_feed
//! so that that is proved once, and not a second time with its tests.
#![tactic(auto)]

#[cfg(test)]
mod answer;
#[cfg(test)]
mod calls;
#[cfg(test)]
mod cash;
#[cfg(test)]
mod ends;
#[cfg(test)]
mod faults;
#[cfg(test)]
mod fixture;
#[cfg(test)]
mod meanwhile;
#[cfg(test)]
mod program;
#[cfg(test)]
mod random;
#[cfg(test)]
mod workers;
