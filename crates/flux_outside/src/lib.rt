//! What the program is handed in of the outside: its words, files by name, and sinks of bytes.
//!
//! `Files` and `Sink` say what each call does and what of it is told; `write_all` puts a whole text. `MemFiles` and
//! `MemSink` hold what they are given in memory. A call of theirs fails exactly where the list of such calls says so, where a file
//! that is read isn't there, or where a sink has no room left or may take no byte. `StdSink` tells what its writer tells, and
//! `StdFiles`, the files of the system, and `program_words` are the trusted edge of the program. It stands on tuple_edge for its want of memory.
#![tactic(auto)]

mod mem_files;
mod mem_sink;
mod outside;
mod std_files;
mod std_sink;
mod words;
mod write;

pub use mem_files::MemFiles;
pub use mem_sink::MemSink;
pub use outside::{Failed, FileStop, Files, Got, Sink};
pub use std_files::StdFiles;
pub use std_sink::StdSink;
pub use words::program_words;
pub use write::write_all;
