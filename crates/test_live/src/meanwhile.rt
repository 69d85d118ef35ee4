// Rows are put while the run goes on, and the run goes on while nothing is put.
ghost use Rattle.std.specs.Prelude.{◌≤◌, ◌<◌, None};

use crate::fixture::{Story, made};
use flux_outside::{Failed, Sink};
use live_feed::{Gate, Live, live};
use std::alloc::Global;
use std::sync::Wait;
use std::sync::atomic::AtomicU64;
use std::sync::atomic::Ordering::SeqCst;
use std::test::Fail;
use std::thread::{Threads, yield_now};
use test_kit::{Latch, ONE, THREE};

// What a wire and a gate tell each other.
#[derive(Drop)]
struct Seen {
    // The wire has taken more than the column names. A worker waits for it in its turn.
    row: Latch,
    // The workers have begun so many turns as the wire waits for at its first put.
    begun: Latch,
    // How many turns they have begun.
    turns: AtomicU64,
}

impl Seen {
    fn new() -> Seen {
        Seen {
            row: Latch::new(),
            begun: Latch::new(),
            turns: AtomicU64::new(0),
        }
    }
}

// A wire that keeps all, and says once it has taken a row. It may wait at its first put for the workers.
#[derive(Drop)]
struct WatchedWire<'a> {
    seen: &'a Seen,
    kept: Vec<u8>,
    waits: bool,
    // How often it found no memory.
    faults: u64,
}

impl<'a> Sink for WatchedWire<'a> {
    ghost told = { λ s. record { taken = None; offered = None; faults = s.faults } };

    fn put(&mut self, bytes: &[u8]) -> Result<usize, Failed> {
        if !self.kept.is_empty() {
            self.seen.row.set();
        } else if self.waits {
            self.seen.begun.wait();
        }
        match self.kept.extend_from_slice(bytes) {
            Ok(()) => Ok(bytes.len()),
            Err(_) => {
                self.faults = self.faults.saturating_add(1);
                Err(Failed)
            }
        }
    }
}

// Holds worker 0 before one of its turns until a row was on the wire, or after very many looks; and says when the workers
// have begun so many turns.
#[derive(Drop)]
struct Holds<'a> {
    seen: &'a Seen,
    hold: u64,
    turns: u64,
}

impl<'a> Gate for Holds<'a> {
    fn turn(&self, worker: u32, number: u64) {
        if self.seen.turns.fetch_add(1, SeqCst).saturating_add(1) >= self.turns {
            self.seen.begun.set();
        }
        if worker == 0 && number == self.hold {
            self.seen.row.wait();
        }
    }

    fn rest(&self) -> bool {
        yield_now();
        true
    }
}

// Runs a story live by so many workers, of so many turns each. Worker 0 is held before its turn `hold`, and the wire is
// stuck at its first put until so many turns were begun. It says whether all of the text was put.
fn writes_all<R: Threads + Wait + Sync>(
    rt: &R,
    alloc: Global,
    story: &Story,
    seen: &Seen,
    threads: u32,
    turns: u64,
    hold: u64,
    waits_for: u64,
) -> bool
    requires some { 1 ≤ threads }
    requires few { threads ≤ 16 }
{
    let gate = Holds {
        seen,
        hold,
        turns: waits_for,
    };
    let mut wire = WatchedWire {
        seen,
        kept: Vec::new(alloc),
        waits: waits_for > 0,
        faults: 0,
    };
    let answer = live(
        rt,
        alloc,
        &story.plan,
        &story.trades,
        &story.script,
        threads,
        turns,
        &gate,
        &mut wire,
    );
    answer == Live::Done && wire.kept.as_slice() == story.text.as_slice()
}

// A worker that waits in its turn for a row on the wire sees one. A body that writes all after the run doesn't get so
// far: its worker looks in vain.
#[test]
fn a_row_is_put_before_the_run_ends(rt: HostRuntime) -> Result<(), Fail> {
    let story = made(rt.alloc(), THREE, 7, 100_000, b"")?;
    let seen = Seen::new();
    assert!(rt; writes_all(&rt, rt.alloc(), &story, &seen, 2, 200_000, 2_001, 0));
    assert!(rt; seen.row.was_seen());
    Ok(())
}

// A row waits for no later one: where the only worker is held, none comes, and the rows before are put.
#[test]
fn a_row_waits_for_no_later_one(rt: HostRuntime) -> Result<(), Fail> {
    let story = made(rt.alloc(), ONE, 1, 20_000, b"")?;
    let seen = Seen::new();
    assert!(rt; writes_all(&rt, rt.alloc(), &story, &seen, 1, 200_000, 500, 0));
    assert!(rt; seen.row.was_seen());
    Ok(())
}

// A wire that is stuck at its first put doesn't stop the workers: it sees them begin all of their turns. The channel is
// full at each offer then, and the text is whole all the same.
#[test]
fn a_stuck_wire_stops_no_worker(rt: HostRuntime) -> Result<(), Fail> {
    let story = made(rt.alloc(), ONE, 1, 50_000, b"")?;
    let seen = Seen::new();
    assert!(rt; writes_all(&rt, rt.alloc(), &story, &seen, 2, 800, 1_000, 1_600));
    assert!(rt; seen.begun.was_seen());
    Ok(())
}
