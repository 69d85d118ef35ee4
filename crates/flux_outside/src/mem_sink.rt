// A sink in memory, which fails where it is told to.
ghost use Rattle.std.specs.Prelude.{◌≡◌, ◌<◌, ◌≤◌, [], None, IfOk, OnErr, Some, length, take};
ghost use Rattle.flux_outside.specs.Memory.{MemSinkView, after_put, put_answer, sink_told};
ghost use Rattle.flux_outside.specs.Outside.{IsOffered, Rose, Takes, TakesPart};

use crate::{Failed, Sink};
use std::alloc::Global;
use std::marker::Model;
use tuple_edge::OutOfMemory;

/// A sink in memory, of limited room, which takes at most so many bytes a put. The puts whose numbers,
/// from 1, are in a list fail and take nothing.
#[derive(Drop)]
pub struct MemSink {
    taken: Vec<u8>,
    fails: Vec<u64>,
    puts: u64,
    faults: u64,
    most: usize,
    room: usize,
}

impl Model for MemSink {
    ghost use Rattle.std.specs.Prelude.{◌≤◌, vec_capacity, vec_len};
    ghost use Rattle.flux_outside.specs.Memory.{MemSinkView};

    ghost Value = { MemSinkView };

    ghost view = { λ s. record { taken = s.taken.items; fails = s.fails.items; puts = s.puts; faults = s.faults; most = s.most; room = s.room } };

    ghost invariant = { λ s. (vec_len s.taken ≤ s.room) × (s.room ≤ vec_capacity s.taken) };
}

impl MemSink {
    /// A sink that has taken nothing and has room for `room` bytes, at most `most` of them a put.
    pub fn new(
        alloc: Global,
        fails: Vec<u64>,
        most: usize,
        room: usize,
    ) -> Result<MemSink, OutOfMemory>
        ensures { IfOk result (λ s. s ≡ record { taken = []; fails = fails.items; puts = 0; faults = 0; most = most; room = room }) }
    {
        Ok(MemSink {
            taken: Vec::with_capacity(alloc, room)?,
            fails,
            puts: 0,
            faults: 0,
            most,
            room,
        })
    }

    /// The bytes that were taken, in order.
    pub fn taken(&self) -> &[u8]
        ensures { result.now ≡ self.now.taken }
    {
        self.taken.as_slice()
    }
}

impl Sink for MemSink {
    ghost told = { sink_told };

    fn put(&mut self, bytes: &[u8]) -> Result<usize, Failed>
        requires { 0 < length bytes.now }
        ensures given { IsOffered None None bytes.now }
        ensures within { IfOk result (λ count. count ≤ length bytes.now) }
        ensures ok { IfOk result (λ count. Takes (Some self.old.taken) (Some self.new.taken) (take count bytes.now)) }
        ensures failed { OnErr result (TakesPart (Some self.old.taken) (Some self.new.taken) bytes.now) }
        ensures none { IfOk result (λ count. count ≡ 0 → Rose self.old.faults self.new.faults) }
        ensures cause { OnErr result (Rose self.old.faults self.new.faults) }
        ensures later { self.old.faults ≤ self.new.faults }

        // It fails exactly where its list says so, and else takes as much as it may. To take nothing is a fault too.
        ensures answer { result ≡ put_answer self.old bytes.now }
        ensures after { self.new ≡ after_put self.old bytes.now }
    {
        self.puts = self.puts.saturating_add(1);
        if self.fails.contains(&self.puts) {
            self.faults = self.faults.saturating_add(1);
            return Err(Failed);
        }
        let count = bytes.len().min(self.most).min(self.room - self.taken.len());
        if count == 0 {
            self.faults = self.faults.saturating_add(1);
            return Ok(0);
        }
        let (front, _) = bytes.split_at(count);
        self.taken.extend_from_slice(front).unwrap();
        Ok(count)
    }
}
