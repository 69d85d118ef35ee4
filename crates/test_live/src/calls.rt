// Calls of the programs over files in memory, and a sink that keeps what it is put.
ghost use Rattle.std.specs.Prelude.{None};

use flux_outside::{Failed, FileStop, Files, MemFiles, MemSink, Sink};
use live_feed::Gate;
use live_top::flux_live;
use std::alloc::Global;
use std::sync::Wait;
use std::thread::Threads;
use test_kit::Latch;
use tuple_edge::OutOfMemory;

// A sink that keeps all, and sets a latch once it is put more than the column names.
#[derive(Drop)]
struct Kept<'a> {
    row: &'a Latch,
    text: Vec<u8>,
    // How often it found no memory.
    faults: u64,
}

impl<'a> Sink for Kept<'a> {
    ghost told = { λ s. record { taken = None; offered = None; faults = s.faults } };

    fn put(&mut self, bytes: &[u8]) -> Result<usize, Failed> {
        if !self.text.is_empty() {
            self.row.set();
        }
        match self.text.extend_from_slice(bytes) {
            Ok(()) => Ok(bytes.len()),
            Err(_) => {
                self.faults = self.faults.saturating_add(1);
                Err(Failed)
            }
        }
    }
}

/// What a call came to: its status, and what it wrote.
#[derive(Drop)]
pub(crate) struct Came {
    pub(crate) status: u8,
    pub(crate) text: Vec<u8>,
}

// The files p.txt, t.csv and s.txt: a plan, its trades and a script.
pub(crate) fn files_of(
    alloc: Global,
    plan: &[u8],
    trades: &[u8],
    script: &[u8],
) -> Result<MemFiles, FileStop> {
    let mut files = MemFiles::new(alloc, Vec::new(alloc));
    files.save("p.txt", plan)?;
    files.save("t.csv", trades)?;
    files.save("s.txt", script)?;
    Ok(files)
}

// Words with a blank between each two of them.
pub(crate) fn words_of(alloc: Global, line: &str) -> Result<Vec<String>, OutOfMemory> {
    let mut words = Vec::new(alloc);
    for word in line.split(' ') {
        words.push(String::from_str(alloc, word)?)?;
    }
    Ok(words)
}

fn came_to<R: Threads + Wait + Sync, G: Gate>(
    rt: &R,
    alloc: Global,
    files: &mut MemFiles,
    line: &str,
    row: &Latch,
    gate: &G,
) -> Result<Came, OutOfMemory> {
    let mut err = MemSink::new(alloc, Vec::new(alloc), 1_000, 1_000)?;
    let words = words_of(alloc, line)?;
    let mut out = Kept {
        row,
        text: Vec::new(alloc),
        faults: 0,
    };
    let status = flux_live(rt, alloc, &words, files, &mut out, &mut err, gate);
    let text = out.text;
    Ok(Came { status, text })
}

// What a call of `flux_live` over such files comes to. The latch is set once a row was put.
pub(crate) fn live_call<R: Threads + Wait + Sync, G: Gate>(
    rt: &R,
    alloc: Global,
    plan: &[u8],
    trades: &[u8],
    script: &[u8],
    line: &str,
    row: &Latch,
    gate: &G,
) -> Result<Came, OutOfMemory> {
    let Ok(mut files) = files_of(alloc, plan, trades, script) else {
        return Err(OutOfMemory);
    };
    let came = came_to(rt, alloc, &mut files, line, row, gate);
    drop(files);
    came
}
