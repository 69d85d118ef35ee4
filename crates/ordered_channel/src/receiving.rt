// Receiving: what waits in the channel is taken together.
ghost use Rattle.crossbeam_channel.specs.Claims.{IsSeatAt, view};
ghost use Rattle.crossbeam_channel.specs.Ends.{receives_on};
ghost use Rattle.ordered_channel.specs.Ends.{batch_of, receives_from, values_got};
ghost use Rattle.ordered_channel.specs.Nexts.{next_value};
ghost use Rattle.std.specs.Prelude.{◌≡◌, ◌<◌, ◌≤◌, ◌++◌, ◌+◌, ◌^◌, [], true, List, length, vec_capacity};

use crate::ends::{BATCH, LogPass, ReceiveEnd, Receiver};
use crate::message::{Got, Message};
use crate::next::Next;
use std::sync::Wait;
use std::sync::atomic::AtomicBool;
use std::sync::atomic::Ordering::SeqCst;

// What is at hand.
fn look<T: Copy, R: Wait>(rt: &R, end: &ReceiveEnd<T>, pass: &mut LogPass<T>) -> Next<T>
    requires seat { IsSeatAt (receives_on end.now) pass.old }
    requires role { (view pass.old).gets ≡ true }
    requires few { length (view pass.old).got < 2 ^ 64 }
    ensures seat { IsSeatAt (receives_on end.now) pass.new }
    ensures role { (view pass.new).gets ≡ true }
    ensures got { (view pass.new).got ≡ (view pass.old).got ++ next_value result }
    ensures few { length (view pass.new).got < 2 ^ 64 }
{
    match end.try_recv_as::<Got, R>(rt, pass) {
        Ok(Message::Value(value)) => Next::Value(value),
        Ok(Message::Stop) => Next::Over,
        Err(_) => Next::Empty,
    }
}

// Waits for the next message.
fn wait<T: Copy, R: Wait>(rt: &R, end: &ReceiveEnd<T>, pass: &mut LogPass<T>) -> Next<T>
    requires seat { IsSeatAt (receives_on end.now) pass.old }
    requires role { (view pass.old).gets ≡ true }
    requires few { length (view pass.old).got < 2 ^ 64 }
    ensures seat { IsSeatAt (receives_on end.now) pass.new }
    ensures role { (view pass.new).gets ≡ true }
    ensures got { (view pass.new).got ≡ (view pass.old).got ++ next_value result }
    ensures few { length (view pass.new).got < 2 ^ 64 }
{
    match end.recv_as::<Got, R>(rt, pass) {
        Ok(Message::Value(value)) => Next::Value(value),
        Ok(Message::Stop) => Next::Over,
        Err(_) => Next::Over,
    }
}

// What is at hand, where the sender may have said beside the channel that no value comes any more. That is looked at after
// nothing was found, and then the channel once more: a value that was sent before it was said is there by then.
fn look_over<T: Copy, R: Wait>(
    rt: &R,
    ended: &AtomicBool,
    end: &ReceiveEnd<T>,
    pass: &mut LogPass<T>,
) -> Next<T>
    requires seat { IsSeatAt (receives_on end.now) pass.old }
    requires role { (view pass.old).gets ≡ true }
    requires few { length (view pass.old).got < 2 ^ 64 }
    ensures seat { IsSeatAt (receives_on end.now) pass.new }
    ensures role { (view pass.new).gets ≡ true }
    ensures got { (view pass.new).got ≡ (view pass.old).got ++ next_value result }
    ensures few { length (view pass.new).got < 2 ^ 64 }
{
    match look(rt, end, pass) {
        Next::Empty => {
            if !ended.load(SeqCst) {
                return Next::Empty;
            }
        }
        found => return found,
    }
    match look(rt, end, pass) {
        Next::Value(value) => Next::Value(value),
        _ => Next::Over,
    }
}

// The next message. It is waited for only while values may come: where the last message was refused after the sender said
// beside the channel that none comes, the channel was full and isn't empty.
fn next<T: Copy, R: Wait>(
    rt: &R,
    ended: &AtomicBool,
    end: &ReceiveEnd<T>,
    pass: &mut LogPass<T>,
) -> Next<T>
    requires seat { IsSeatAt (receives_on end.now) pass.old }
    requires role { (view pass.old).gets ≡ true }
    requires few { length (view pass.old).got < 2 ^ 64 }
    ensures seat { IsSeatAt (receives_on end.now) pass.new }
    ensures role { (view pass.new).gets ≡ true }
    ensures got { (view pass.new).got ≡ (view pass.old).got ++ next_value result }
    ensures few { length (view pass.new).got < 2 ^ 64 }
{
    match look_over(rt, ended, end, pass) {
        Next::Empty => wait(rt, end, pass),
        found => found,
    }
}

// Takes what is at hand behind the values that are in the list, as far as it has room, and says whether more may come.
fn fill<T: Copy, R: Wait>(
    rt: &R,
    ended: &AtomicBool,
    end: &ReceiveEnd<T>,
    pass: &mut LogPass<T>,
    values: &mut Vec<T>,
) -> bool
    requires seat { IsSeatAt (receives_on end.now) pass.old }
    requires role { (view pass.old).gets ≡ true }
    requires few { length (view pass.old).got < 2 ^ 64 }
    requires room { 1024 ≤ vec_capacity values.old }
    ensures seat { IsSeatAt (receives_on end.now) pass.new }
    ensures role { (view pass.new).gets ≡ true }
    ensures few { length (view pass.new).got < 2 ^ 64 }
    ensures got { (before : List T) → (view pass.old).got ≡ before ++ values.old.items → (view pass.new).got ≡ before ++ values.new.items }
    ensures room { vec_capacity values.new ≡ vec_capacity values.old }
{
    while values.len() < BATCH {
        match look_over(rt, ended, end, pass) {
            Next::Value(value) => values.push_reserved(value),
            Next::Empty => return true,
            Next::Over => return false,
        }
    }
    true
}

// Takes what is at hand, and says whether more may come.
fn take_at_hand<T: Copy, R: Wait>(
    rt: &R,
    ended: &AtomicBool,
    end: &ReceiveEnd<T>,
    pass: &mut LogPass<T>,
    values: &mut Vec<T>,
) -> bool
    requires seat { IsSeatAt (receives_on end.now) pass.old }
    requires role { (view pass.old).gets ≡ true }
    requires few { length (view pass.old).got < 2 ^ 64 }
    requires none { values.old.items ≡ [] }
    requires room { 1024 ≤ vec_capacity values.old }
    ensures seat { IsSeatAt (receives_on end.now) pass.new }
    ensures role { (view pass.new).gets ≡ true }
    ensures few { length (view pass.new).got < 2 ^ 64 }
    ensures got { (view pass.new).got ≡ (view pass.old).got ++ values.new.items }
    ensures room { vec_capacity values.new ≡ vec_capacity values.old }
{
    fill(rt, ended, end, pass, values)
}

// Waits for a value, takes what is at hand behind it, and says whether more may come.
fn take_values<T: Copy, R: Wait>(
    rt: &R,
    ended: &AtomicBool,
    end: &ReceiveEnd<T>,
    pass: &mut LogPass<T>,
    values: &mut Vec<T>,
) -> bool
    requires seat { IsSeatAt (receives_on end.now) pass.old }
    requires role { (view pass.old).gets ≡ true }
    requires few { length (view pass.old).got < 2 ^ 64 }
    requires none { values.old.items ≡ [] }
    requires room { 1024 ≤ vec_capacity values.old }
    ensures seat { IsSeatAt (receives_on end.now) pass.new }
    ensures role { (view pass.new).gets ≡ true }
    ensures few { length (view pass.new).got < 2 ^ 64 }
    ensures got { (view pass.new).got ≡ (view pass.old).got ++ values.new.items }
    ensures room { vec_capacity values.new ≡ vec_capacity values.old }
{
    let Next::Value(value) = next(rt, ended, end, pass) else {
        return false;
    };
    values.push_reserved(value);
    fill(rt, ended, end, pass, values)
}

impl<T: Copy> Receiver<T> {
    /// Waits for a value and takes the values that are at hand behind it. False where no more come; then it may have
    /// taken none.
    pub fn take<R: Wait>(&mut self, rt: &R) -> bool
        ensures got { values_got self.new ≡ values_got self.old ++ batch_of self.new }
        ensures channel { receives_from self.new ≡ receives_from self.old }
    {
        let count = self.count;
        self.batch.clear();
        let more = take_values(rt, &self.ended, &self.end, &mut self.pass, &mut self.batch);
        self.count = count + self.batch.len();
        more
    }

    /// Takes the values that are at hand, and waits for none. False where no more come.
    pub fn try_take<R: Wait>(&mut self, rt: &R) -> bool
        ensures got { values_got self.new ≡ values_got self.old ++ batch_of self.new }
        ensures channel { receives_from self.new ≡ receives_from self.old }
    {
        let count = self.count;
        self.batch.clear();
        let more = take_at_hand(rt, &self.ended, &self.end, &mut self.pass, &mut self.batch);
        self.count = count + self.batch.len();
        more
    }

    /// The values that were taken together last.
    pub fn batch(&self) -> &[T]
        ensures { result.now ≡ batch_of self.now }
    {
        &self.batch
    }
}
