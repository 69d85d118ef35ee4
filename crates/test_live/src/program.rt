// Calls of the program over files and sinks in memory: their statuses, and what is said and written.
use crate::answer::none_is_wrong;
use crate::fixture::{Story, made};
use flux_outside::{FileStop, Files, MemFiles, MemSink};
use live_feed::FreeGate;
use live_top::flux_live;
use std::alloc::Global;
use std::sync::Wait;
use std::test::Fail;
use std::thread::Threads;
use test_kit::ONE;
use trade_maker::make_trades;
use tuple_edge::OutOfMemory;

// A call: its words, how many bytes `out` has room for, its status and what it says.
#[derive(Clone, Copy)]
struct Call<'a> {
    words: &'a [&'a str],
    room: usize,
    status: u8,
    says: &'a str,
}

const USAGE: &str = "flux_live: usage: PLAN TRADES [SCRIPT]\n";

const CALLS: &[Call<'static>] = &[
    Call {
        words: &["p.txt", "t.csv"],
        room: 1_000_000,
        status: 0,
        says: "",
    },
    Call {
        words: &["p.txt", "t.csv", "safe.txt"],
        room: 1_000_000,
        status: 0,
        says: "",
    },
    Call {
        words: &["p.txt", "t.csv", "lost.txt"],
        room: 1_000_000,
        status: 6,
        says: "flux_live: pair 1.0 is lost\n",
    },
    Call {
        words: &["p.txt", "t.csv"],
        room: 100,
        status: 5,
        says: "flux_live: cannot write\n",
    },
    Call {
        words: &[],
        room: 100,
        status: 2,
        says: USAGE,
    },
    Call {
        words: &["p.txt"],
        room: 100,
        status: 2,
        says: USAGE,
    },
    Call {
        words: &["p.txt", "t.csv", "safe.txt", "more"],
        room: 100,
        status: 2,
        says: USAGE,
    },
    Call {
        words: &["p.txt", "-t.csv"],
        room: 100,
        status: 2,
        says: USAGE,
    },
    Call {
        words: &["", "t.csv"],
        room: 100,
        status: 2,
        says: USAGE,
    },
    Call {
        words: &["run", "p.txt", "t.csv", "--turns=0"],
        room: 100,
        status: 2,
        says: USAGE,
    },
    Call {
        words: &["p.txt", "t.csv", "--script=safe.txt"],
        room: 100,
        status: 2,
        says: USAGE,
    },
    Call {
        words: &["none", "t.csv"],
        room: 100,
        status: 4,
        says: "flux_live: none: cannot read\n",
    },
    Call {
        words: &["p.txt", "none", "safe.txt"],
        room: 100,
        status: 4,
        says: "flux_live: none: cannot read\n",
    },
    Call {
        words: &["p.txt", "t.csv", "none"],
        room: 100,
        status: 4,
        says: "flux_live: none: cannot read\n",
    },
    Call {
        words: &["safe.txt", "none", "none"],
        room: 100,
        status: 3,
        says: "flux_live: safe.txt: line 1: grammar\n",
    },
    Call {
        words: &["p.txt", "p.txt", "none"],
        room: 100,
        status: 3,
        says: "flux_live: p.txt: header\n",
    },
    Call {
        words: &["p.txt", "t.csv", "p.txt"],
        room: 100,
        status: 3,
        says: "flux_live: p.txt: line 1: grammar\n",
    },
];

// The files of the calls.
fn files_of(alloc: Global, trades: &[u8]) -> Result<MemFiles, FileStop> {
    let mut files = MemFiles::new(alloc, Vec::new(alloc));
    files.save("p.txt", ONE)?;
    files.save("t.csv", trades)?;
    files.save("safe.txt", b"kill 1.0.a at 100 back 300\n")?;
    files.save(
        "lost.txt",
        b"kill 1.0.a at 1 back never\nkill 1.0.b at 1 back never\n",
    )?;
    Ok(files)
}

fn words_of(alloc: Global, words: &[&str]) -> Result<Vec<String>, OutOfMemory> {
    let mut owned = Vec::new(alloc);
    for word in words {
        owned.push(String::from_str(alloc, word)?)?;
    }
    Ok(owned)
}

// Whether this was to be written at a status: all of the text at 0, a front of it at 5 and 6, and else nothing.
fn written_so(status: u8, taken: &[u8], text: &[u8]) -> bool {
    match status {
        0 => taken == text,
        5 | 6 => text.starts_with(taken) && taken.len() < text.len(),
        _ => taken.is_empty(),
    }
}

// Whether a call ends as it is to: with its status and line, and what was to be written.
fn ends_so<R: Threads + Wait + Sync>(
    rt: &R,
    alloc: Global,
    call: &Call<'_>,
    files: &mut MemFiles,
    story: &Story,
) -> Result<bool, OutOfMemory> {
    let words = words_of(alloc, call.words)?;
    let mut out = MemSink::new(alloc, Vec::new(alloc), 1_000_000, call.room)?;
    let mut err = MemSink::new(alloc, Vec::new(alloc), 1_000, 1_000)?;
    let status = flux_live(rt, alloc, &words, files, &mut out, &mut err, &FreeGate);
    let written = written_so(status, out.taken(), story.text.as_slice());
    Ok(written && status == call.status && err.taken() == call.says.as_bytes())
}

// The same over files of its own.
fn ends_over<R: Threads + Wait + Sync>(
    rt: &R,
    alloc: Global,
    call: &Call<'_>,
    trades: &[u8],
    story: &Story,
) -> Result<bool, OutOfMemory> {
    let Ok(mut files) = files_of(alloc, trades) else {
        return Err(OutOfMemory);
    };
    let well = ends_so(rt, alloc, call, &mut files, story);
    drop(files);
    well
}

fn first_wrong<R: Threads + Wait + Sync>(
    rt: &R,
    alloc: Global,
    trades: &[u8],
    story: &Story,
) -> Result<Option<usize>, OutOfMemory> {
    for (place, call) in CALLS.iter().enumerate() {
        if !ends_over(rt, alloc, call, trades, story)? {
            return Ok(Some(place));
        }
    }
    Ok(None)
}

// The same over the trades of the story.
fn first_wrong_of<R: Threads + Wait + Sync>(
    rt: &R,
    alloc: Global,
    story: &Story,
) -> Result<Option<usize>, Fail> {
    let trades = make_trades(alloc, 1, 1_000)?;
    Ok(first_wrong(rt, alloc, &trades, story)?)
}

// Statuses, lines and texts are those of `flux run`, under the program's own name.
#[test]
fn the_program_ends_as_run_does(rt: HostRuntime) -> Result<(), Fail> {
    let story = made(rt.alloc(), ONE, 1, 1_000, b"")?;
    let wrong = first_wrong_of(&rt, rt.alloc(), &story);
    drop(story);
    none_is_wrong(wrong?)
}
