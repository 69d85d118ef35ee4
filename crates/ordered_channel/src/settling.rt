// Both ends in one hand.
ghost use mathlib.Core.List.{IsPrefix};
ghost use Rattle.crossbeam_channel.specs.Claims.{IsSeatAt, view};
ghost use Rattle.crossbeam_channel.specs.Ends.{receives_on};
ghost use Rattle.std.specs.Prelude.{◌≡◌, length, true};

use crate::ends::{LogPass, ReceiveEnd, Receiver, Sender};
use crate::message::{Message, Roles, Total};
use std::sync::Wait;

/// Both ends of a channel in one hand, where the rest of what was sent can be taken.
#[derive(Drop)]
pub struct Settled<T: Copy> {
    pub(crate) end: ReceiveEnd<T>,
    pub(crate) pass: LogPass<T>,
    // How many values were received.
    pub(crate) count: usize,
    ghost seated: { IsSeatAt (receives_on end) pass },
    ghost sends: { (view pass).sends ≡ true },
    ghost gets: { (view pass).gets ≡ true },
    ghost counted: { length (view pass).got ≡ count },
}

impl<T: Copy> Sender<T> {
    ghost use Rattle.ordered_channel.specs.Ends.{receives_from, sends_to, values_got, values_sent};
    ghost use Rattle.ordered_channel.specs.Settling.{all_got, all_sent};

    /// With both ends in one hand: what was received is the first part of what was sent.
    pub fn settle(self, receiver: Receiver<T>) -> Settled<T>
        requires { receives_from receiver ≡ sends_to self }
        ensures sent { all_sent result ≡ values_sent self }
        ensures got { all_got result ≡ values_got receiver }
        ensures front { IsPrefix (values_got receiver) (values_sent self) }
    {
        let Sender {
            end: to,
            mut pass,
            ..
        } = self;
        let Receiver {
            end,
            pass: other,
            count,
            ..
        } = receiver;
        to.absorb::<Roles>(&mut pass, other);
        to.learn_as::<Total>(&mut pass);
        Settled { end, pass, count }
    }
}

impl<T: Copy> Settled<T> {
    ghost use Rattle.ordered_channel.specs.Settling.{all_got, all_sent};
    ghost use Rattle.std.specs.Prelude.{◌++◌, ◌∷◌, [], IfNone, MatchOption};

    /// How many values were received.
    pub fn received(&self) -> usize
        ensures { result ≡ length (all_got self.now) }
    {
        self.count
    }

    /// The next value that was sent and not received; None where all of them were received.
    pub fn next<R: Wait>(&mut self, rt: &R) -> Option<T>
        ensures sent { all_sent self.new ≡ all_sent self.old }
        ensures got { MatchOption result (all_got self.new ≡ all_got self.old) (λ value. all_got self.new ≡ all_got self.old ++ value ∷ []) }
        ensures all { IfNone result (all_got self.new ≡ all_sent self.new) }
    {
        for _ in rt.forever() {
            match self.end.try_recv_as::<Total, R>(rt, &mut self.pass) {
                Ok(Message::Value(value)) => {
                    self.count += 1;
                    return Some(value);
                }
                Ok(Message::Stop) => {}
                Err(_) => return None,
            }
        }
        unreachable!()
    }
}
