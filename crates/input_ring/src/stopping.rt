// What stops the sender.
use std::alloc::Global;
use std::sync::Arc;
use std::sync::atomic::AtomicBool;
use std::sync::atomic::Ordering::SeqCst;
use tuple_edge::OutOfMemory;

/// A flag by which whoever holds it stops the sender of inputs. Once set it stays so.
#[derive(Drop)]
pub struct StopFlag {
    is_set: Arc<AtomicBool, Global>,
}

impl StopFlag {
    // A flag that isn't set.
    pub(crate) fn new(alloc: Global) -> Result<StopFlag, OutOfMemory> {
        let is_set = Arc::new(alloc, AtomicBool::new(false))?;
        Ok(StopFlag { is_set })
    }

    /// The same flag once more.
    pub fn another(&self) -> Result<StopFlag, OutOfMemory> {
        let is_set = Arc::try_clone(&self.is_set)?;
        Ok(StopFlag { is_set })
    }

    /// Sets it.
    pub fn stop(&self) {
        self.is_set.store(true, SeqCst);
    }

    /// Whether it is set.
    pub fn is_set(&self) -> bool {
        self.is_set.load(SeqCst)
    }
}
