// Files of the system: part of the trusted edge. They open or create the file of a name, hand it on, and answer what comes
// of it, which is proved over any reader and writer. They tell no content, and count their faults.
ghost use Rattle.std.specs.Prelude.{◌≡◌, ◌≢◌, ◌≤◌, ◌+◌, Err, None, IfErr, IfOk, IsOkAnd, OnOk, vec_len};
ghost use Rattle.flux_outside.specs.Outside.{Explains, IsWritten, KeepsFront, ReadsRest};

use crate::{FileStop, Files, Got};
use std::alloc::Global;
use std::fs;
use std::io::{self, Read, Write};
use std::rt::Files as RuntimeFiles;

/// Files of the system, by their paths.
#[derive(Drop)]
pub struct StdFiles<'a, R: RuntimeFiles> {
    rt: &'a R,
    alloc: Global,
    read_faults: u64,
    save_faults: u64,
}

impl<'a, R: RuntimeFiles> StdFiles<'a, R> {
    /// The files of a runtime, with no fault counted.
    pub fn new(rt: &'a R, alloc: Global) -> StdFiles<'a, R>
        ensures faults { (result.read_faults ≡ 0) × (result.save_faults ≡ 0) }
    {
        StdFiles {
            rt,
            alloc,
            read_faults: 0,
            save_faults: 0,
        }
    }
}

// Appends all that a reader has left, up to `max` bytes. A reader that tells what it has left is read to
// its end, however small the pieces are that it gives.
#[tactic(auto, using(crate::proofs::ReadLaws::has_read_none, crate::proofs::ReadLaws::has_read_more, crate::proofs::ReadLaws::front_kept, crate::proofs::ReadLaws::few_read, crate::proofs::ReadLaws::read_whole, crate::proofs::ReadLaws::read_long))]
fn append<T: Read>(file: &mut T, max: u64, into: &mut Vec<u8>) -> Result<Got, FileStop>
    ensures got { IfOk result (λ got. ReadsRest (T.remaining file.old) max got into.old.items into.new.items) }
    ensures front { KeepsFront into.old.items into.new.items }
    ensures few { vec_len into.new ≤ vec_len into.old + max }
{
    let mut buffer = [0u8; 8_192];
    let mut left = max;
    for _turn in 0..u64::MAX {
        let Ok(count) = file.read(&mut buffer) else {
            return Err(FileStop::Failed);
        };
        if count == 0 {
            return Ok(Got::Whole);
        }
        if count as u64 > left {
            return Ok(Got::TooLong { seen: max + 1 });
        }
        left -= count as u64;
        if into.extend_from_slice(&buffer[..count]).is_err() {
            return Err(FileStop::OutOfMemory);
        }
    }
    Err(FileStop::Failed)
}

// An answer as it is, where a fault is counted.
fn counted<A>(answer: Result<A, FileStop>, faults: &mut u64) -> Result<A, FileStop>
    ensures answer { result ≡ answer }
    ensures cause { IfErr result (λ stop. Explains faults.old faults.new stop) }
    ensures still { result ≢ Err FileStop.Failed → faults.new ≡ faults.old }
    ensures later { faults.old ≤ faults.new }
{
    if let Err(FileStop::Failed) = answer {
        *faults = faults.saturating_add(1);
    }
    answer
}

// What a read answers of a file that was to be opened, and its count of faults then.
fn read_opened<T: Read + Drop>(
    opened: io::Result<T>,
    max: u64,
    into: &mut Vec<u8>,
    faults: &mut u64,
) -> Result<Got, FileStop>
    ensures got { IfOk result (λ got. IsOkAnd opened (λ file. ReadsRest (T.remaining file) max got into.old.items into.new.items)) }
    ensures front { KeepsFront into.old.items into.new.items }
    ensures few { vec_len into.new ≤ vec_len into.old + max }
    ensures cause { IfErr result (λ stop. Explains faults.old faults.new stop) }
    ensures still { result ≢ Err FileStop.Failed → faults.new ≡ faults.old }
    ensures later { faults.old ≤ faults.new }
{
    let answer = match opened {
        Ok(mut file) => append(&mut file, max, into),
        Err(_) => Err(FileStop::Failed),
    };
    counted(answer, faults)
}

// What a save answers to a file that was to be created, and its count of faults then.
fn save_created<W: Write>(
    created: &mut io::Result<W>,
    bytes: &[u8],
    faults: &mut u64,
) -> Result<(), FileStop>
    ensures saved { OnOk result (IsWritten W.contents created.old created.new bytes.now) }
    ensures cause { IfErr result (λ stop. Explains faults.old faults.new stop) }
    ensures still { result ≢ Err FileStop.Failed → faults.new ≡ faults.old }
    ensures later { faults.old ≤ faults.new }
{
    let answer = match created {
        Ok(file) => file.write_all(bytes).map_err(|_error| FileStop::Failed),
        Err(_) => Err(FileStop::Failed),
    };
    counted(answer, faults)
}

impl<R: RuntimeFiles> Files for StdFiles<'_, R> {
    ghost told = { λ s. record { contents = None; calls = None; wants = None; read_faults = s.read_faults; save_faults = s.save_faults } };

    fn read(&mut self, name: &str, max: u64, into: &mut Vec<u8>) -> Result<Got, FileStop> {
        read_opened(fs::open(self.rt, name), max, into, &mut self.read_faults)
    }

    fn save(&mut self, name: &str, bytes: &[u8]) -> Result<(), FileStop> {
        save_created(&mut fs::create(self.rt, name), bytes, &mut self.save_faults)
    }
}
