//! The words of a command line: what they ask for, if they have a form.
//!
//! It promises that `read_words` gives exactly the command that the words' form says, with its names,
//! numbers and defaults, or that they have none. `clap` splits the words into positional words and
//! options; the definition of the forms knows nothing of it.
#![tactic(auto)]

mod command;
mod forms;
mod numbers;
mod parse;
mod parts;
mod read;
mod syntax;
mod word;

pub use command::{Command, RunOptions};
pub use forms::{DEFAULT_THREADS, DEFAULT_TURNS, MAX_TURNS, MIN_THREADS};
pub use numbers::{number_or, number_within};
pub use read::read_words;
pub use word::{behind_dashes, is_plain};
