// Sending: some calls never wait, and one waits for room.
ghost use mathlib.Core.List.{IsPrefix};
ghost use Rattle.crossbeam_channel.specs.Claims.{IsSeatAt, view};
ghost use Rattle.crossbeam_channel.specs.Ends.{sends_on};
ghost use Rattle.ordered_channel.specs.Ends.{sends_to, values_sent};
ghost use Rattle.std.specs.Prelude.{◌≡◌, ◌<◌, ◌≤◌, ◌+◌, ◌++◌, ◌∷◌, ◌^◌, [], if◌then◌else◌, MatchBool, true, length, take};

use crate::ends::{LogPass, SendEnd, Sender};
use crate::message::{Message, Sent};
use std::sync::Wait;
use std::sync::atomic::Ordering::SeqCst;

// Tries to send a value, the so many-th, and says whether it fitted.
fn try_value<T: Copy, R: Wait>(
    rt: &R,
    end: &SendEnd<T>,
    pass: &mut LogPass<T>,
    value: T,
    number: usize,
) -> bool
    requires seat { IsSeatAt (sends_on end.now) pass.old }
    requires role { (view pass.old).sends ≡ true }
    requires number { length (view pass.old).sent + 1 ≡ number }
    ensures seat { IsSeatAt (sends_on end.now) pass.new }
    ensures role { (view pass.new).sends ≡ true }
    ensures sent { (view pass.new).sent ≡ (if result then (view pass.old).sent ++ value ∷ [] else (view pass.old).sent) }
{
    match end.try_send_as::<Sent, R>(rt, pass, Message::Value(value)) {
        Ok(()) => true,
        Err(_) => false,
    }
}

// Sends a value, the so many-th, once there is room, and says whether there was an end to receive it.
fn send_value<T: Copy, R: Wait>(
    rt: &R,
    end: &SendEnd<T>,
    pass: &mut LogPass<T>,
    value: T,
    number: usize,
) -> bool
    requires seat { IsSeatAt (sends_on end.now) pass.old }
    requires role { (view pass.old).sends ≡ true }
    requires number { length (view pass.old).sent + 1 ≡ number }
    ensures seat { IsSeatAt (sends_on end.now) pass.new }
    ensures role { (view pass.new).sends ≡ true }
    ensures sent { (view pass.new).sent ≡ (if result then (view pass.old).sent ++ value ∷ [] else (view pass.old).sent) }
{
    match end.send_as::<Sent, R>(rt, pass, Message::Value(value)) {
        Ok(()) => true,
        Err(_) => false,
    }
}

// Sends the values from a place on until one doesn't fit, and says how many were sent then.
fn send_from<T: Copy, R: Wait>(
    rt: &R,
    end: &SendEnd<T>,
    pass: &mut LogPass<T>,
    values: &[T],
    from: usize,
) -> usize
    requires seat { IsSeatAt (sends_on end.now) pass.old }
    requires role { (view pass.old).sends ≡ true }
    requires from { from ≤ length values.now }
    requires sent { (view pass.old).sent ≡ take from values.now }
    ensures seat { IsSeatAt (sends_on end.now) pass.new }
    ensures role { (view pass.new).sends ≡ true }
    ensures more { from ≤ result }
    ensures within { result ≤ length values.now }
    ensures sent { (view pass.new).sent ≡ take result values.now }
{
    let mut next = from;
    while next < values.len() {
        if !try_value(rt, end, pass, values[next], next + 1) {
            return next;
        }
        next += 1;
    }
    next
}

// Tries to send that no value comes any more.
fn send_stop<T: Copy, R: Wait>(rt: &R, end: &SendEnd<T>, pass: &mut LogPass<T>)
    requires seat { IsSeatAt (sends_on end.now) pass.old }
    requires role { (view pass.old).sends ≡ true }
    requires few { length (view pass.old).sent < 2 ^ 64 }
    ensures seat { IsSeatAt (sends_on end.now) pass.new }
    ensures role { (view pass.new).sends ≡ true }
    ensures sent { (view pass.new).sent ≡ (view pass.old).sent }
{
    match end.try_send_as::<Sent, R>(rt, pass, Message::Stop) {
        Ok(()) => (),
        Err(_) => (),
    }
}

impl<T: Copy> Sender<T> {
    /// Sends on some of these values, behind those that it sent before, and waits for nothing. What doesn't fit is
    /// left for the next offer.
    pub fn offer<R: Wait>(&mut self, rt: &R, values: &[T])
        requires { IsPrefix (values_sent self.old) values.now }
        ensures more { IsPrefix (values_sent self.old) (values_sent self.new) }
        ensures front { IsPrefix (values_sent self.new) values.now }
        ensures channel { sends_to self.new ≡ sends_to self.old }
    {
        self.count = send_from(rt, &self.end, &mut self.pass, values, self.count);
    }

    /// Sends one value behind those that it sent before, and waits for nothing. False where it doesn't fit.
    pub fn push<R: Wait>(&mut self, rt: &R, value: &T) -> bool
        ensures sent { MatchBool result (values_sent self.new ≡ values_sent self.old ++ value.now ∷ []) (values_sent self.new ≡ values_sent self.old) }
        ensures channel { sends_to self.new ≡ sends_to self.old }
    {
        let Some(number) = self.count.checked_add(1) else {
            return false;
        };
        if !try_value(rt, &self.end, &mut self.pass, *value, number) {
            return false;
        }
        self.count = number;
        true
    }

    /// Sends one value behind those that it sent before, and waits while the channel is full. False where no end receives.
    pub fn send<R: Wait>(&mut self, rt: &R, value: &T) -> bool
        ensures sent { MatchBool result (values_sent self.new ≡ values_sent self.old ++ value.now ∷ []) (values_sent self.new ≡ values_sent self.old) }
        ensures channel { sends_to self.new ≡ sends_to self.old }
    {
        let Some(number) = self.count.checked_add(1) else {
            return false;
        };
        if !send_value(rt, &self.end, &mut self.pass, *value, number) {
            return false;
        }
        self.count = number;
        true
    }

    /// Says that no value comes any more. It waits for nothing.
    pub fn stop<R: Wait>(&mut self, rt: &R)
        ensures sent { values_sent self.new ≡ values_sent self.old }
        ensures channel { sends_to self.new ≡ sends_to self.old }
    {
        let _count = self.count;
        self.ended.store(true, SeqCst);
        send_stop(rt, &self.end, &mut self.pass);
    }
}
