// A gate that may hold up a worker of a run.
use drained_run::Gate;
use std::thread::yield_now;
use test_kit::Latch;

/// Where it holds, it holds up the first turn of worker 0 until a turn of worker 1 was seen, or after very many looks.
#[derive(Drop)]
pub(crate) struct Hold {
    holds: bool,
    other: Latch,
}

impl Hold {
    /// A gate that holds up or doesn't.
    pub(crate) fn new(holds: bool) -> Hold {
        Hold {
            holds,
            other: Latch::new(),
        }
    }

    /// Whether the other worker was seen.
    pub(crate) fn has_seen(&self) -> bool {
        self.other.was_seen()
    }
}

impl Gate for Hold {
    fn turn(&self, worker: u32, number: u64) {
        if !self.holds {
            return;
        }
        if worker == 1 {
            self.other.set();
        }
        if worker == 0 && number == 0 {
            self.other.wait();
        }
    }

    fn rest(&self) -> bool {
        yield_now();
        true
    }
}
