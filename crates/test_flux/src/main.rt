//! The program `test_flux FILE..`: it reads cases, each of them files and the words of calls of `flux` or `flux_look`, makes
//! the calls over files and sinks in memory, and writes what came of each: what was written and said, and the status. What
//! has to come stands in the file `stdout`, where each case is named with its file. A text of many lines stands there cut short, with
//! a sum of it; behind the word `--whole` all is written whole, and `.ci/first-difference` shows the first line that another
//! commit wrote otherwise.
//!
//! It stands on flux_top and look_top for the calls, and on flux_outside for files and sinks. The form of a case is told in `line.rt`.
#![tactic(auto)]

mod call;
mod case;
mod content;
mod hold;
mod line;
mod script;
mod show;
mod stage;
mod stop;
mod values;

use flux_outside::{Files, Got, StdFiles};
use script::run_text;
use show::MAX_LINES;
use std::alloc::Global;
use std::env;
use std::io::{self, Write};
use std::process::ExitCode;
use std::rt::Files as RuntimeFiles;
use std::str::from_utf8;
use std::thread::Threads;
use stop::Stop;

/// The status where a file of cases wasn't read, or a line of it has no form.
const NO_FORM: u8 = 2;

/// The status where no memory was to be had.
const OUT_OF_MEMORY: u8 = 8;

/// The word behind which what a case writes is never cut short.
const WHOLE: &str = "--whole";

/// The most bytes of a file of cases.
const MAX_CASES_BYTES: u64 = 4_000_000;

fn main(rt: HostRuntime) -> ExitCode {
    let Ok(names) = env::args(&rt) else {
        return ExitCode::from(OUT_OF_MEMORY);
    };
    let mut most_lines = MAX_LINES;
    for name in names.skip(1) {
        if name.as_str() == WHOLE {
            most_lines = usize::MAX;
        } else if let Err(stop) = run_file(&rt, rt.alloc(), name.as_str(), most_lines) {
            return status_of(&rt, name.as_str(), stop);
        }
    }
    ExitCode::SUCCESS
}

// The status by which the program ends where a file stopped it, of which it tells.
fn status_of(rt: &impl Eprint, name: &str, stop: Stop) -> ExitCode {
    match stop {
        Stop::NoForm { line } => {
            let _ = eprintln!(rt; "test_flux: {name}: line {line}: no form");
            ExitCode::from(NO_FORM)
        }
        Stop::NotRead => {
            let _ = eprintln!(rt; "test_flux: {name}: cannot read");
            ExitCode::from(NO_FORM)
        }
        Stop::OutOfMemory => {
            let _ = eprintln!(rt; "test_flux: out of memory");
            ExitCode::from(OUT_OF_MEMORY)
        }
    }
}

// Runs the cases of a file, and writes what came of them. What comes before a fault is written too.
fn run_file<R: Threads + Sync + RuntimeFiles + Print>(
    rt: &R,
    alloc: Global,
    name: &str,
    most_lines: usize,
) -> Result<(), Stop> {
    let text = read_file(rt, alloc, name)?;
    let Ok(text) = from_utf8(text.as_slice()) else {
        return Err(Stop::NotRead);
    };
    let mut shown = Vec::new(alloc);
    let ended = run_text(rt, alloc, name, text, most_lines, &mut shown);
    let _ = io::writer(rt).write_all(shown.as_slice());
    ended
}

// The bytes of a file of cases.
fn read_file(rt: &impl RuntimeFiles, alloc: Global, name: &str) -> Result<Vec<u8>, Stop> {
    let mut bytes = Vec::new(alloc);
    let mut files = StdFiles::new(rt, alloc);
    match files.read(name, MAX_CASES_BYTES, &mut bytes) {
        Ok(Got::Whole) => Ok(bytes),
        _ => Err(Stop::NotRead),
    }
}
