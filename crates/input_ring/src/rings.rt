// A ring of inputs, and what is known where both of its ends are in one hand.
ghost use mathlib.Core.List.{IsPrefix};
ghost use Rattle.input_ring.specs.Ends.{gives_from, inputs_given, inputs_sent, sends_to};
ghost use Rattle.input_ring.specs.Limits.{ring_inputs};
ghost use Rattle.std.specs.Prelude.{◌≡◌, [], false, true, IfOk};

use crate::sending::InputSender;
use crate::source::InputSource;
use crate::stopping::StopFlag;
use rtrb::RingBuffer;
use std::alloc::Global;
use std::sync::Arc;
use std::sync::atomic::AtomicBool;
use tuple_edge::OutOfMemory;

/// How many inputs a ring holds: so many the sender may be ahead.
pub const RING_INPUTS: usize = 1_024;

/// A ring through which nothing went yet, by its two ends.
pub fn input_ring(alloc: Global) -> Result<(InputSender, InputSource), OutOfMemory>
    ensures sent { IfOk result (λ ends. inputs_sent ends.0 ≡ []) }
    ensures given { IfOk result (λ ends. inputs_given ends.1 ≡ []) }
    ensures ended { IfOk result (λ ends. ends.1.ended ≡ false) }
    ensures ring { IfOk result (λ ends. gives_from ends.1 ≡ sends_to ends.0) }
    ensures limit { RING_INPUTS ≡ ring_inputs }
{
    let closed = Arc::new(alloc, AtomicBool::new(false))?;
    let looked_at = Arc::try_clone(&closed)?;
    let stopped = StopFlag::new(alloc)?;
    let stops = stopped.another()?;
    let (producer, consumer) = RingBuffer::new(alloc, RING_INPUTS)?;
    let sender = InputSender {
        producer,
        closed,
        stopped,
    };
    let source = InputSource {
        consumer,
        closed: looked_at,
        stopped: stops,
        ended: false,
    };
    Ok((sender, source))
}

impl InputSource {
    /// With both ends in one hand: what was given is the first part of what was sent, and it says whether it is all.
    pub fn settle(&mut self, sender: &mut InputSender) -> bool
        requires { gives_from self.old ≡ sends_to sender.old }
        ensures given { inputs_given self.new ≡ inputs_given self.old }
        ensures ended { self.new.ended ≡ self.old.ended }
        ensures sent { inputs_sent sender.new ≡ inputs_sent sender.old }
        ensures ring { (gives_from self.new ≡ gives_from self.old) × (sends_to sender.new ≡ sends_to sender.old) }
        ensures front { IsPrefix (inputs_given self.old) (inputs_sent sender.old) }
        ensures all { result ≡ true → inputs_given self.old ≡ inputs_sent sender.old }
    {
        self.consumer.slots_beside(&mut sender.producer) == 0
    }
}
