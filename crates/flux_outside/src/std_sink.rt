// A writer of std as a sink. It tells what its writer tells, and counts its faults.
ghost use Rattle.std.specs.Prelude.{◌≡◌, None};

use crate::{Failed, Sink};
use std::io::Write;

/// A writer as a sink of bytes.
#[derive(Drop)]
pub struct StdSink<W: Write + Drop> {
    inner: W,
    faults: u64,
}

impl<W: Write + Drop> StdSink<W> {
    /// A sink over a writer, with no fault counted.
    pub fn new(inner: W) -> StdSink<W>
        ensures writer { result.inner ≡ inner }
        ensures faults { result.faults ≡ 0 }
    {
        StdSink { inner, faults: 0 }
    }
}

impl<W: Write + Drop> Sink for StdSink<W> {
    ghost told = { λ s. record { taken = W.contents s.inner; offered = None; faults = s.faults } };

    #[tactic(auto, using(crate::proofs::Sinks::appends_takes, crate::proofs::Sinks::keeps_part))]
    fn put(&mut self, bytes: &[u8]) -> Result<usize, Failed> {
        match self.inner.write(bytes) {
            Ok(0) => {
                self.faults = self.faults.saturating_add(1);
                Ok(0)
            }
            Ok(count) => Ok(count),
            Err(_) => {
                self.faults = self.faults.saturating_add(1);
                Err(Failed)
            }
        }
    }
}
