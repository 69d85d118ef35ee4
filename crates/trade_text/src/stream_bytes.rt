// The bytes that a reader gives, one after the other.
ghost use Rattle.csv.specs.Reading.{strip_bom};
ghost use Rattle.std.specs.Prelude.{◌≡◌, ◌≤◌, ℕ, IfErr, IfOk, List, Some, drop, length};
ghost use Rattle.trade_text.specs.StreamRecords.{GivesByte, OpensText, bytes_left};
ghost use Rattle.trade_text.specs.declared.error.StreamError.TheVariants as stream;

use crate::records::{starts_with_mark, without_mark};
use crate::{ReadError, StreamError};
use std::alloc::Global;
use std::io::{BufReader, Read};

// How many bytes two byte order marks have.
const TWO_MARKS: usize = 6;

// What a reader gives: first the bytes that were looked at for a mark, and then those behind them.
#[derive(Drop)]
pub(crate) struct StreamBytes<R> {
    source: BufReader<R>,
    front: Vec<u8>,
    at: usize,
}

// The next byte, or None at the end.
fn read_byte<R: Read>(source: &mut R) -> Result<Option<u8>, StreamError>
    ensures gives { IfOk result (λ next. (text : List ℕ) → R.remaining source.old ≡ Some text → GivesByte text next (R.remaining source.new)) }
    ensures failed { IfErr result (λ e. e ≡ stream.Failed) }
{
    let mut one = [0u8];
    match source.read(&mut one) {
        Ok(0) => Ok(None),
        Ok(_) => Ok(Some(one[0])),
        Err(_) => Err(StreamError::Failed),
    }
}

// How many bytes the byte order mark at the front has, if there is one.
fn mark_bytes(front: &[u8]) -> usize
    ensures drops { drop result front.now ≡ strip_bom front.now }
    ensures within { result ≤ length front.now }
{
    if starts_with_mark(front) { 3 } else { 0 }
}

impl<R: Read + Drop> StreamBytes<R> {
    // The bytes of a source. A byte order mark at the front is dropped, once: a second one is no header.
    pub(crate) fn open(alloc: Global, source: R) -> Result<StreamBytes<R>, StreamError>
        ensures { (text : List ℕ) → R.remaining source ≡ Some text → OpensText R.remaining result (strip_bom text) }
    {
        let mut source = match BufReader::new(alloc, source) {
            Ok(source) => source,
            Err(_) => return Err(StreamError::OutOfMemory),
        };
        let mut front = Vec::new(alloc);
        for _ in 0..TWO_MARKS {
            match read_byte(&mut source)? {
                None => {}
                Some(byte) => front.push(byte)?,
            }
        }
        if starts_with_mark(without_mark(&front)) {
            return Err(StreamError::Refused(ReadError::Header));
        }
        let at = mark_bytes(&front);
        Ok(StreamBytes { source, front, at })
    }

    // The next byte, or None at the end.
    pub(crate) fn next(&mut self) -> Result<Option<u8>, StreamError>
        ensures gives { IfOk result (λ next. (text : List ℕ) → bytes_left R.remaining self.old ≡ Some text
            → GivesByte text next (bytes_left R.remaining self.new)) }
        ensures failed { IfErr result (λ e. e ≡ stream.Failed) }
    {
        if self.at < self.front.len() {
            let byte = self.front[self.at];
            self.at += 1;
            return Ok(Some(byte));
        }
        read_byte(&mut self.source)
    }
}
