// The end that sends.
ghost use Rattle.input_ring.specs.Ends.{inputs_sent, sends_to};
ghost use Rattle.std.specs.Prelude.{◌≡◌, ◌++◌, ◌∷◌, [], MatchBool};
ghost use Rattle.tuple_edge.specs.Input.{from_first};

use crate::stopping::StopFlag;
use rtrb::{Producer, PushError};
use std::alloc::Global;
use std::sync::atomic::AtomicBool;
use std::sync::atomic::Ordering::SeqCst;
use std::sync::{Arc, Wait};
use std::thread::sleep;
use std::time::{Clock, Duration};
use tuple_edge::{Input, OutOfMemory, Row};

/// For how many milliseconds the sender sleeps before it looks again whether the ring has room.
const PAUSE_MILLISECONDS: u64 = 1;

/// The end that sends inputs.
#[derive(Drop)]
pub struct InputSender {
    pub(crate) producer: Producer<Input>,
    // Whether no more come.
    pub(crate) closed: Arc<AtomicBool, Global>,
    pub(crate) stopped: StopFlag,
}

impl InputSender {
    // Sends an input, where there is room.
    fn push(&mut self, input: Input) -> bool
        ensures sent { MatchBool result (inputs_sent self.new ≡ inputs_sent self.old ++ input ∷ []) (inputs_sent self.new ≡ inputs_sent self.old) }
        ensures ring { sends_to self.new ≡ sends_to self.old }
    {
        match self.producer.push(input) {
            Ok(()) => true,
            Err(PushError::Full(_)) => false,
        }
    }

    /// Sends a row of the first source behind those that it sent before, and waits while the ring is full. False, and then
    /// nothing is sent, where it was stopped.
    pub fn send<R: Wait + Clock>(&mut self, rt: &R, row: Row) -> bool
        ensures sent { MatchBool result (inputs_sent self.new ≡ inputs_sent self.old ++ from_first (row ∷ [])) (inputs_sent self.new ≡ inputs_sent self.old) }
        ensures ring { sends_to self.new ≡ sends_to self.old }
    {
        for _ in rt.forever() {
            if self.stopped.is_set() {
                return false;
            }
            if self.push(Input { source: 0, row }) {
                return true;
            }
            sleep(rt, Duration::from_millis(PAUSE_MILLISECONDS));
        }
        unreachable!()
    }

    /// Says that no more inputs come.
    pub fn close(&mut self)
        ensures sent { inputs_sent self.new ≡ inputs_sent self.old }
        ensures ring { sends_to self.new ≡ sends_to self.old }
    {
        self.closed.store(true, SeqCst);
    }

    /// Whether it was stopped.
    pub fn is_stopped(&self) -> bool {
        self.stopped.is_set()
    }

    /// The flag by which it is stopped.
    pub fn stop_flag(&self) -> Result<StopFlag, OutOfMemory> {
        self.stopped.another()
    }
}
