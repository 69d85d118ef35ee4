// The workers of the programs, as they come to a gate: which of them come, how many turns they begin, and that a row is put
// while one of them waits.
use crate::answer::{is_so, none_is_wrong};
use crate::calls::{files_of, live_call, words_of};
use flux_outside::{MemFiles, MemSink};
use flux_top::flux;
use live_feed::Gate;
use std::alloc::Global;
use std::sync::Wait;
use std::sync::atomic::AtomicU64;
use std::sync::atomic::Ordering::SeqCst;
use std::test::Fail;
use std::thread::{Threads, yield_now};
use test_kit::{Latch, ONE};
use trade_maker::make_trades;
use tuple_edge::OutOfMemory;

const TRADES: &[u8] = b"time,account,symbol,side,qty,price
34200,7,A,B,1,1
34200,7,A,B,1,1
34200,7,A,B,1,1
";

const ROWS: &[u8] = b"time,account,symbol,qty,value
34200,7,-,1,100
34200,7,-,2,200
34200,7,-,3,300
rows,3
";

// By it the only pair is lost.
const LOST: &[u8] = b"kill 1.0.a at 1 back never\nkill 1.0.b at 1 back never\n";

// What a gate sees of the workers.
#[derive(Drop)]
struct Workers {
    // One bit for each worker that came.
    came: AtomicU64,
    // How many turns they began together.
    turns: AtomicU64,
    // Whether worker 0 waits in its first turn until a row was put.
    waits: bool,
    row: Latch,
}

impl Workers {
    fn new(waits: bool) -> Workers {
        Workers {
            came: AtomicU64::new(0),
            turns: AtomicU64::new(0),
            waits,
            row: Latch::new(),
        }
    }

    // Whether these workers came, one bit for each, and began so many turns.
    fn saw(&self, came: u64, turns: u64) -> bool {
        self.came.load(SeqCst) == came && self.turns.load(SeqCst) == turns
    }
}

impl Gate for Workers {
    fn turn(&self, worker: u32, number: u64) {
        self.came.fetch_or(1 << (worker % 64), SeqCst);
        self.turns.fetch_add(1, SeqCst);
        if self.waits && worker == 0 && number == 0 {
            self.row.wait();
        }
    }

    fn rest(&self) -> bool {
        yield_now();
        true
    }
}

fn puts_a_row<R: Threads + Wait + Sync>(
    rt: &R,
    alloc: Global,
    workers: &Workers,
) -> Result<bool, OutOfMemory> {
    let (line, row) = ("p.txt t.csv", &workers.row);
    let came = live_call(rt, alloc, ONE, TRADES, b"", line, row, workers)?;
    Ok(came.status == 0 && came.text.as_slice() == ROWS)
}

// Worker 0 of the program waits in its first turn, and the three others bring a row onto `out` meanwhile. With one worker, or
// where all is written once the run has ended, it looks in vain.
#[test]
fn a_row_is_put_while_a_worker_waits(rt: HostRuntime) -> Result<(), Fail> {
    let workers = Workers::new(true);
    let puts = puts_a_row(&rt, rt.alloc(), &workers)?;
    is_so(puts && workers.row.was_seen() && workers.came.load(SeqCst) == 0b1111)
}

fn loses_the_pair<R: Threads + Wait + Sync>(
    rt: &R,
    alloc: Global,
    workers: &Workers,
) -> Result<bool, OutOfMemory> {
    let (line, row) = ("p.txt t.csv s.txt", &workers.row);
    let trades = make_trades(alloc, 1, 1_000)?;
    let came = live_call(rt, alloc, ONE, &trades, LOST, line, row, workers);
    drop(trades);
    Ok(came?.status == 6)
}

// A run in which a pair is lost goes on to its last turn: the program has 4 workers of 200,000 turns. It ends with what failed in
// them.
#[test]
fn a_lost_pair_takes_all_turns(rt: HostRuntime) -> Result<(), Fail> {
    let workers = Workers::new(false);
    let loses = loses_the_pair(&rt, rt.alloc(), &workers)?;
    is_so(loses && workers.saw(0b1111, 800_000))
}

// Calls of `flux`, each with its status, a bit for each worker that comes, and how many turns these begin.
const TRIALS: &[(&str, u8, u64, u64)] = &[
    (
        "trial p.txt 1 1000 --script s.txt --threads 2 --turns 500",
        6,
        0b11,
        1_000,
    ),
    (
        "trial p.txt 1 1000 --script s.txt --threads 2 --turns 0",
        0,
        0,
        0,
    ),
    (
        "trial p.txt 1 1000 --script s.txt --threads 1",
        6,
        0b1,
        200_000,
    ),
];

// The status of a call of `flux`.
fn status_of<R: Threads + Sync>(
    rt: &R,
    alloc: Global,
    files: &mut MemFiles,
    line: &str,
    workers: &Workers,
) -> Result<u8, OutOfMemory> {
    let mut out = MemSink::new(alloc, Vec::new(alloc), 1_000, 1_000)?;
    let mut err = MemSink::new(alloc, Vec::new(alloc), 1_000, 1_000)?;
    let words = words_of(alloc, line)?;
    Ok(flux(rt, alloc, &words, files, &mut out, &mut err, workers))
}

fn first_wrong<R: Threads + Sync>(
    rt: &R,
    alloc: Global,
    files: &mut MemFiles,
) -> Result<Option<usize>, OutOfMemory> {
    for (place, (line, status, came, turns)) in TRIALS.iter().enumerate() {
        let workers = Workers::new(false);
        if status_of(rt, alloc, files, line, &workers)? != *status || !workers.saw(*came, *turns) {
            return Ok(Some(place));
        }
    }
    Ok(None)
}

// Replicas fail on the workers alone: a trial loses its pair by the turns that it is told to take, and without a turn it loses none.
#[test]
fn a_trial_ends_as_its_turns_leave_it(rt: HostRuntime) -> Result<(), Fail> {
    let mut files = files_of(rt.alloc(), ONE, b"", LOST)?;
    let wrong = first_wrong(&rt, rt.alloc(), &mut files);
    drop(files);
    none_is_wrong(wrong?)
}
