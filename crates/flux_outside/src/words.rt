// The words that a program is started with: part of the trusted edge, since no contract says what they are.
use std::alloc::Global;
use std::env;
use std::io::{self, ErrorKind};
use std::rt::Env;
use tuple_edge::OutOfMemory;

/// The words after the program's name. Words that are no text have no form in any program, so they count as none.
pub fn program_words<R: Env>(rt: &R, alloc: Global) -> Result<Vec<String>, OutOfMemory> {
    let mut words = Vec::new(alloc);
    match env::args(&(rt, alloc)) {
        Ok(args) => {
            for word in args.skip(1) {
                words.push(word)?;
            }
            Ok(words)
        }
        Err(error) => {
            if is_no_text(&error) {
                Ok(words)
            } else {
                Err(OutOfMemory)
            }
        }
    }
}

// Whether words were refused since they are no text. No other error of theirs but want of memory is known.
fn is_no_text(error: &io::Error) -> bool {
    error.kind() == ErrorKind::InvalidData
}
