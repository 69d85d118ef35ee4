//! Tests of the program's edge that no case of test_flux can say: files and sinks, in memory and of the system, and
//! what the words of a run ask for where no output shows it. Its functions are tests and what serves them. It stands
//! above flux_outside and command_line so that these are proved once, and not a second time with their tests.
#![tactic(auto)]

#[cfg(test)]
mod files;
#[cfg(test)]
mod words;
