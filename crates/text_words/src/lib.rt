//! Lines, words and number words: the readers that all texts of this repository share.
//!
//! It promises that the lines of a text that count, the words of a line and the value of a number word
//! are exactly those of their definitions, and that a reader of words takes what it names from the front
//! or gives the fault that it is told. It stands on no crate of this repository.
#![tactic(auto)]

mod lines;
mod numbers;
mod words;

pub use lines::{
    Line, Lines, Words, blanks_len, ends_line, first_line, is_blank, is_end_byte, word_len,
};
pub use numbers::{MAX_NUMBER_DIGITS, number_of, signed_number_of};
pub use words::is_word;
