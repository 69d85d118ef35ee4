// A reader of std as a source of bytes. It tells what it gave, and counts its faults.
ghost use Rattle.std.specs.Prelude.{◌≡◌, ◌++◌, [], false};

use crate::{ByteSource, ReadFailed};
use past::Past;
use std::io::Read;

/// A reader as a source of bytes.
#[derive(Drop)]
pub struct StdSource<R: Read + Drop> {
    inner: R,
    given: Past<u8>,
    ended: bool,
    faults: u64,
}

// With these bytes too.
fn with_bytes(given: &mut Past<u8>, bytes: &[u8])
    ensures { given.new.items ≡ given.old.items ++ bytes.now }
{
    for byte in bytes {
        *given = given.and(byte);
    }
}

impl<R: Read + Drop> StdSource<R> {
    /// A source over a reader, of which nothing was given.
    pub fn new(inner: R) -> StdSource<R>
        ensures reader { result.inner ≡ inner }
        ensures given { result.given.items ≡ [] }
        ensures none { (result.ended ≡ false) × (result.faults ≡ 0) }
    {
        StdSource {
            inner,
            given: Past::new(),
            ended: false,
            faults: 0,
        }
    }
}

impl<R: Read + Drop> ByteSource for StdSource<R> {
    ghost told = { λ s. record { given = s.given.items; left = R.remaining s.inner; ended = s.ended; faults = s.faults } };

    fn read(&mut self, into: &mut [u8]) -> Result<usize, ReadFailed> {
        match self.inner.read(into) {
            Ok(count) => {
                with_bytes(&mut self.given, &into[..count]);
                self.ended = self.ended || count == 0;
                Ok(count)
            }
            Err(_) => {
                self.faults = self.faults.saturating_add(1);
                Err(ReadFailed)
            }
        }
    }
}
