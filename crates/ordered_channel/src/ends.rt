// The two ends, and how they are made.
ghost use Rattle.crossbeam_channel.specs.Claims.{IsSeatAt, view};
ghost use Rattle.crossbeam_channel.specs.Ends.{receives_on, sends_on};
ghost use Rattle.std.specs.Prelude.{◌≡◌, ◌≤◌, ◌<◌, [], false, true, length, vec_capacity, IfOk};

use crate::message::{InOrder, Log, Message, Roles};
use crossbeam_channel::{Pass, RuledReceiver, RuledSender, bounded_with};
use std::alloc::Global;
use std::sync::Arc;
use std::sync::atomic::AtomicBool;
use tuple_edge::OutOfMemory;

pub(crate) type SendEnd<T> = RuledSender<Message<T>, Log<T>, InOrder>;

pub(crate) type ReceiveEnd<T> = RuledReceiver<Message<T>, Log<T>, InOrder>;

pub(crate) type LogPass<T> = Pass<Message<T>, Log<T>>;

/// How many values are received together at most.
pub(crate) const BATCH: usize = 1_024;

/// The end that sends.
#[derive(Drop)]
pub struct Sender<T: Copy> {
    // Whether no value comes any more, though the receiver may not have been told by a message.
    pub(crate) ended: Arc<AtomicBool, Global>,
    pub(crate) end: SendEnd<T>,
    pub(crate) pass: LogPass<T>,
    // How many values were sent.
    pub(crate) count: usize,
    ghost seated: { IsSeatAt (sends_on end) pass },
    ghost role: { (view pass).sends ≡ true },
    ghost counted: { length (view pass).sent ≡ count },
}

/// The end that receives.
#[derive(Drop)]
pub struct Receiver<T: Copy> {
    pub(crate) ended: Arc<AtomicBool, Global>,
    pub(crate) end: ReceiveEnd<T>,
    pub(crate) pass: LogPass<T>,
    // How many values were received.
    pub(crate) count: usize,
    // Those that were received together last.
    pub(crate) batch: Vec<T>,
    ghost seated: { IsSeatAt (receives_on end) pass },
    ghost role: { (view pass).gets ≡ true },
    ghost counted: { length (view pass).got ≡ count },
    ghost room: { 1024 ≤ vec_capacity batch },
}

/// A channel for so many values, through which nothing went yet.
pub fn channel<T: Copy>(
    alloc: Global,
    capacity: usize,
) -> Result<(Sender<T>, Receiver<T>), OutOfMemory>
    requires { 0 < capacity }
    ensures sent { IfOk result (λ ends. (view ends.0.pass).sent ≡ []) }
    ensures got { IfOk result (λ ends. (view ends.1.pass).got ≡ []) }
    ensures channel { IfOk result (λ ends. (receives_on ends.1.end).stamps.shared ≡ (sends_on ends.0.end).stamps.shared) }
{
    let batch = Vec::with_capacity(alloc, BATCH)?;
    let ended = Arc::new(alloc, AtomicBool::new(false))?;
    let looked_at = Arc::try_clone(&ended)?;
    let (to, from, mut sends) = bounded_with(alloc, capacity)?;
    let gets = to.another::<Roles>(&mut sends);
    let sender = Sender {
        ended,
        end: to,
        pass: sends,
        count: 0,
    };
    let receiver = Receiver {
        ended: looked_at,
        end: from,
        pass: gets,
        count: 0,
        batch,
    };
    Ok((sender, receiver))
}
