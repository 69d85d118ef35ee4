//! The words of `flux_look`: what they ask for, if they have a form.
//!
//! It promises that `read_words` gives exactly the command that the words' form says, with its names, or that they have
//! none. It stands on command_line for what a word by itself may be.
#![tactic(auto)]

mod command;
mod forms;
mod kind;
mod numbers;
mod option;
mod parts;
mod read;
mod reading;

pub use command::LookCommand;
pub use read::read_words;
