// Gates that hold up a worker.
use crate::answer::is_so;
use crate::fixture::{THREE_TRADES, goes_well, run};
use partition_runner::{Gate, Rings};
use std::alloc::Global;
use std::test::Fail;
use std::thread::{Threads, yield_now};
use test_kit::{Latch, ONE, Story, told};
use tuple_edge::OutOfMemory;

// Holds up the first turn of worker 0 until a turn of worker 1 was seen, or after very many looks.
#[derive(Drop)]
struct HoldsFirst {
    other: Latch,
}

impl Gate for HoldsFirst {
    fn turn(&self, worker: u32, number: u64) {
        if worker == 1 {
            self.other.set();
        }
        if worker == 0 && number == 0 {
            self.other.wait();
        }
    }

    fn rest(&self) -> bool {
        yield_now();
        true
    }
}

// Whether a run of two workers, of which one is held up, is legal and emits a front of the output.
fn runs_held<R: Threads + Sync>(
    rt: &R,
    alloc: Global,
    story: &Story,
    gate: &HoldsFirst,
) -> Result<bool, OutOfMemory> {
    let outcome = run(rt, alloc, story, 2, 10_000, &mut Rings, gate)?;
    let well = goes_well(alloc, story, &outcome);
    drop(outcome);
    well
}

// Two workers are at work at the same time.
#[test]
fn a_worker_sees_the_other_one(rt: HostRuntime) -> Result<(), Fail> {
    let story = told(rt.alloc(), ONE, THREE_TRADES, b"")?;
    let gate = HoldsFirst {
        other: Latch::new(),
    };
    let well = runs_held(&rt, rt.alloc(), &story, &gate);
    drop(story);
    is_so(well? && gate.other.was_seen())
}
