// A latch between two threads.
use std::hint::spin_loop;
use std::sync::atomic::AtomicBool;
use std::sync::atomic::Ordering::SeqCst;

/// How often a thread that waits looks, at most.
const MAX_LOOKS: u64 = 1_000_000_000;

/// What one thread sets once, and another one waits for, up to very many looks.
#[derive(Drop)]
pub struct Latch {
    is_set: AtomicBool,
    seen: AtomicBool,
}

impl Latch {
    /// A latch that isn't set.
    pub fn new() -> Latch {
        Latch {
            is_set: AtomicBool::new(false),
            seen: AtomicBool::new(false),
        }
    }

    /// Sets it.
    pub fn set(&self) {
        self.is_set.store(true, SeqCst);
    }

    /// Waits until it is set, or for very many looks.
    pub fn wait(&self) {
        for _look in 0..MAX_LOOKS {
            if self.is_set.load(SeqCst) {
                self.seen.store(true, SeqCst);
                return;
            }
            spin_loop();
        }
    }

    /// Whether a thread that waited saw it set.
    pub fn was_seen(&self) -> bool {
        self.seen.load(SeqCst)
    }
}
