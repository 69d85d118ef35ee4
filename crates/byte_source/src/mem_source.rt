// A source in memory, which fails where it is told to.
ghost use Rattle.std.specs.Prelude.{◌≡◌, ◌<◌, ◌≤◌, IfOk, OnErr, false, length, take};
ghost use Rattle.byte_source.specs.Memory.{after_read, next_size, read_answer, source_told};
ghost use Rattle.byte_source.specs.Told.{Fails, Gives};

use crate::{ByteSource, ReadFailed};
use std::marker::Model;

/// A text that is given in pieces: the sizes of the first ones are in a list, and behind these as much is given as there is room
/// for. The reads whose numbers, from 1, are in a list fail and give nothing.
#[derive(Drop)]
pub struct MemSource {
    text: Vec<u8>,
    at: usize,
    sizes: Vec<usize>,
    fails: Vec<u64>,
    reads: u64,
    ended: bool,
    faults: u64,
}

impl Model for MemSource {
    ghost use Rattle.std.specs.Prelude.{◌≤◌, length};
    ghost use Rattle.byte_source.specs.Memory.{MemSourceView};

    ghost Value = { MemSourceView };

    ghost view = { λ s. record { text = s.text.items; at = s.at; sizes = s.sizes.items; fails = s.fails.items; reads = s.reads; ended = s.ended; faults = s.faults } };

    ghost invariant = { λ s. s.at ≤ length s.text.items };
}

impl MemSource {
    /// A source of a text, of which nothing was given.
    pub fn new(text: Vec<u8>, sizes: Vec<usize>, fails: Vec<u64>) -> MemSource
        ensures { result ≡ record { text = text.items; at = 0; sizes = sizes.items; fails = fails.items; reads = 0; ended = false; faults = 0 } }
    {
        MemSource {
            text,
            at: 0,
            sizes,
            fails,
            reads: 0,
            ended: false,
            faults: 0,
        }
    }

    // At most how many bytes the next read gives into so much room, wherever the text ends.
    fn next_size(&self, room: usize) -> usize
        ensures { result ≡ next_size self.now room }
    {
        match self.sizes.get(self.reads as usize) {
            None => room.max(1),
            Some(size) => (*size).max(1),
        }
    }
}

impl ByteSource for MemSource {
    ghost told = { source_told };

    fn read(&mut self, into: &mut [u8]) -> Result<usize, ReadFailed>
        requires { 0 < length into.old }
        ensures within { IfOk result (λ count. count ≤ length into.new) }
        ensures gives { IfOk result (λ count. Gives (source_told self.old) (take count into.new) (source_told self.new)) }
        ensures failed { OnErr result (Fails (source_told self.old) (source_told self.new)) }

        // It fails exactly where its list says so, and else gives as much as it may.
        ensures answer { result ≡ read_answer self.old (length into.old) }
        ensures after { self.new ≡ after_read self.old (length into.old) }
    {
        let size = self.next_size(into.len());
        self.reads = self.reads.saturating_add(1);
        if self.fails.contains(&self.reads) {
            self.faults = self.faults.saturating_add(1);
            return Err(ReadFailed);
        }
        let count = size.min(into.len()).min(self.text.len() - self.at);
        into[..count].copy_from_slice(&self.text[self.at..self.at + count]);
        self.at += count;
        self.ended = self.ended || count == 0;
        Ok(count)
    }
}
