//! Tests of the texts that are read and written, by public calls: what no command of `flux` shows. That is the
//! canonical text of what was read, the limits of a text handed in at once, what each error says of itself, the nodes
//! and links of a plan, lines, words and numbers, the symbols of trades, what a failure script says is due, histories
//! that are merged, buckets that are fed and moved, and which events of groups of three are refused and where. What is read and refused otherwise is in the cases of
//! test_flux.
//!
//! Its functions are tests and what serves them. It stands above the readers so that each of them is proved once, and
//! not a second time with its tests.
#![tactic(auto)]

#[cfg(test)]
mod buckets;
#[cfg(test)]
mod canonical;
#[cfg(test)]
mod cash;
#[cfg(test)]
mod errors;
#[cfg(test)]
mod events;
#[cfg(test)]
mod fixture;
#[cfg(test)]
mod histories;
#[cfg(test)]
mod limits;
#[cfg(test)]
mod nodes;
#[cfg(test)]
mod scripts;
#[cfg(test)]
mod streams;
#[cfg(test)]
mod summaries;
#[cfg(test)]
mod texts;
#[cfg(test)]
mod trades;
#[cfg(test)]
mod trio;
#[cfg(test)]
mod words;
