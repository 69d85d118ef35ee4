//! Tests by public calls of links, rings of inputs and channels, of boards and of logs of events. Its functions are tests and
//! what serves them. It stands above flux_link, input_ring, ordered_channel, claim_board and event_log so that each of them is
//! proved once, and not a second time with its tests.
#![tactic(auto)]

#[cfg(test)]
mod boards;
#[cfg(test)]
mod channels;
#[cfg(test)]
mod inputs;
#[cfg(test)]
mod links;
#[cfg(test)]
mod logs;
