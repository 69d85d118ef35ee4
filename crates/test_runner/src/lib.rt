//! Tests of runs by public calls: that the events of a run on one thread and on more drive the core to the nodes that
//! the run gave; failures; links that lose packets, with the drain after them; a tap; a worker that is held up; what
//! one turn does; an input that is fed, and inputs that come while the run goes on. Its functions are tests and what serves them. It stands above partition_runner
//! and core_drain so that each of them is proved once, and not a second time with its tests.
#![tactic(auto)]

#[cfg(test)]
mod answer;
#[cfg(test)]
mod clocks;
#[cfg(test)]
mod failures;
#[cfg(test)]
mod feeds;
#[cfg(test)]
mod fixture;
#[cfg(test)]
mod gates;
#[cfg(test)]
mod lossy;
#[cfg(test)]
mod nodes;
#[cfg(test)]
mod runs;
#[cfg(test)]
mod streams;
#[cfg(test)]
mod taps;
#[cfg(test)]
mod turns;
