//! Tests by public calls of the nodes and of what they are made of: numbered edges, moves, replicas, controllers,
//! ingress and egress. Its functions are tests and what serves them. It stands above these crates so that each of them
//! is proved once, and not a second time with its tests.
#![tactic(auto)]

#[cfg(test)]
mod answer;
#[cfg(test)]
mod controllers;
#[cfg(test)]
mod edges;
#[cfg(test)]
mod ends;
#[cfg(test)]
mod moves;
#[cfg(test)]
mod replicas;
