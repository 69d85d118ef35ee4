// A call over files and sinks in memory.
use crate::hold::Hold;
use crate::line::Program;
use flux_outside::{MemFiles, MemSink};
use flux_top::flux;
use look_top::flux_look;
use std::alloc::Global;
use std::thread::Threads;
use tuple_edge::OutOfMemory;

/// The most bytes that a call writes where nothing else is said.
const MAX_OUT_BYTES: usize = 8_000_000;

/// The most bytes that it says.
const MAX_ERR_BYTES: usize = 1_000;

/// How a sink is made: its room, the most bytes that it takes a put, and the numbers of the puts that fail.
#[derive(Drop)]
pub(crate) struct SinkForm {
    room: usize,
    most: usize,
    fails: Vec<u64>,
}

impl SinkForm {
    /// A sink of this room that takes all.
    fn new(alloc: Global, room: usize) -> SinkForm {
        SinkForm {
            room,
            most: usize::MAX,
            fails: Vec::new(alloc),
        }
    }

    /// The numbers of a line, in this order: room, most, and the puts that fail. It says whether they have a form.
    pub(crate) fn read(&mut self, text: &str) -> Result<bool, OutOfMemory> {
        for (place, word) in text.split(' ').enumerate() {
            let Ok(number) = word.parse::<u32>() else {
                return Ok(false);
            };
            match place {
                0 => self.room = number as usize,
                1 => self.most = number as usize,
                _ => self.fails.push(u64::from(number))?,
            }
        }
        Ok(true)
    }

    // The sink.
    fn make(&self, alloc: Global) -> Result<MemSink, OutOfMemory> {
        MemSink::new(alloc, self.fails.to_vec(alloc)?, self.most, self.room)
    }
}

/// The sinks of a call.
#[derive(Drop)]
pub(crate) struct Sinks {
    pub(crate) out: SinkForm,
    pub(crate) err: SinkForm,
}

impl Sinks {
    /// Sinks that take all.
    pub(crate) fn new(alloc: Global) -> Sinks {
        Sinks {
            out: SinkForm::new(alloc, MAX_OUT_BYTES),
            err: SinkForm::new(alloc, MAX_ERR_BYTES),
        }
    }
}

/// What a call came to: the status, what was written and what was said.
#[derive(Drop)]
pub(crate) struct Called {
    pub(crate) status: u8,
    pub(crate) out: MemSink,
    pub(crate) err: MemSink,
}

// The words of a line; `''` is an empty one.
fn words_of(alloc: Global, line: &str) -> Result<Vec<String>, OutOfMemory> {
    let mut words = Vec::new(alloc);
    for word in line.split_whitespace() {
        let word = if word == "''" { "" } else { word };
        words.push(String::from_str(alloc, word)?)?;
    }
    Ok(words)
}

/// Calls a program with the words of a line over these files.
pub(crate) fn call<R: Threads + Sync>(
    rt: &R,
    alloc: Global,
    program: Program,
    line: &str,
    files: &mut MemFiles,
    sinks: &Sinks,
    gate: &Hold,
) -> Result<Called, OutOfMemory> {
    let words = words_of(alloc, line)?;
    let mut out = sinks.out.make(alloc)?;
    let mut err = sinks.err.make(alloc)?;
    let status = match program {
        Program::Flux => flux(rt, alloc, &words, files, &mut out, &mut err, gate),
        Program::Look => flux_look(rt, alloc, &words, files, &mut out, &mut err, gate),
    };
    Ok(Called { status, out, err })
}
