//! The program: it hands its words, the system's files and the standard streams to `flux_look`, and ends with the
//! status that `flux_look` answers.
#![tactic(auto)]

use drained_run::FreeGate;
use flux_outside::{StdFiles, StdSink, program_words};
use look_top::flux_look;
use std::process::ExitCode;

/// The status where no memory was to be had for the words.
const OUT_OF_MEMORY: u8 = 8;

fn main(rt: HostRuntime) -> ExitCode {
    let alloc = rt.alloc();
    let Ok(words) = program_words(&rt, alloc) else {
        let _ = eprintln!(rt; "flux_look: out of memory");
        return ExitCode::from(OUT_OF_MEMORY);
    };
    let mut files = StdFiles::new(&rt, alloc);
    let mut out = StdSink::new(rt.stdout());
    let mut err = StdSink::new(rt.stderr());
    ExitCode::from(flux_look(
        &rt, alloc, &words, &mut files, &mut out, &mut err, &FreeGate,
    ))
}
