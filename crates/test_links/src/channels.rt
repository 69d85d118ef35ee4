// Channels of values, by one thread and by two.

use ordered_channel::{Receiver, Sender, Settled, channel};
use std::sync::Wait;
use std::test::Fail;
use std::thread::{Threads, join_mut, sleep};
use std::time::{Clock, Duration};

/// More values than the channel holds.
const MANY: u64 = 3_000;

// Whether of three values the third doesn't fit into a channel for two, and fits once the others were taken.
fn fits_later<R: Wait>(rt: &R, sender: &mut Sender<u64>, receiver: &mut Receiver<u64>) -> bool {
    let first = sender.push(rt, &1) && sender.push(rt, &2) && !sender.push(rt, &3);
    let more = receiver.try_take(rt) && receiver.batch() == [1, 2].as_slice();
    let third = sender.push(rt, &3);
    let again = receiver.try_take(rt) && receiver.batch() == [3].as_slice();
    let none = receiver.try_take(rt) && receiver.batch().is_empty();
    sender.stop(rt);
    let over = !receiver.try_take(rt) && receiver.batch().is_empty();
    first && more && third && again && none && over
}

#[test]
fn what_does_not_fit_is_not_sent(rt: HostRuntime) -> Result<(), Fail> {
    let (mut sender, mut receiver) = channel(rt.alloc(), 2)?;
    assert!(rt; fits_later(&rt, &mut sender, &mut receiver));
    Ok(())
}

// Sends values, numbered from 0, as room comes, and says how many it sent.
fn send_all<R: Wait>(rt: &R, sender: &mut Sender<u64>, count: u64) -> u64 {
    for number in 0..count {
        if !sender.send(rt, &number) {
            return number;
        }
    }
    sender.stop(rt);
    count
}

// Whether these values are numbered from a number on.
fn are_from(values: &[u64], from: u64) -> bool {
    let mut next = from;
    for value in values {
        if *value != next {
            return false;
        }
        next = next.wrapping_add(1);
    }
    true
}

// Takes values until no more come, and says how many they were; None where one was not the next.
fn take_all<R: Wait>(rt: &R, receiver: &mut Receiver<u64>) -> Option<u64> {
    let mut next = 0u64;
    for _ in rt.forever() {
        let more = receiver.take(rt);
        if !are_from(receiver.batch(), next) {
            return None;
        }
        next = next.wrapping_add(receiver.batch().len() as u64);
        if !more {
            return Some(next);
        }
    }
    unreachable!()
}

fn goes_through<R: Threads + Wait + Clock + Sync>(
    rt: &R,
    sender: &mut Sender<u64>,
    receiver: &mut Receiver<u64>,
) -> bool {
    let mut send = || send_all(rt, sender, MANY);
    let mut take = || {
        sleep(rt, Duration::from_millis(20));
        take_all(rt, receiver)
    };
    let (taken, sent) = join_mut(rt, &mut take, &mut send);
    sent == MANY && taken == Some(MANY)
}

// A sender that waits sends all, and all is taken, once and in order.
#[test]
fn values_go_through_a_full_channel(rt: HostRuntime) -> Result<(), Fail> {
    let (mut sender, mut receiver) = channel(rt.alloc(), 16)?;
    assert!(rt; goes_through(&rt, &mut sender, &mut receiver));
    Ok(())
}

// Whether these are the values that are left: these two, and no more.
fn are_left<R: Wait>(rt: &R, settled: &mut Settled<u64>) -> bool {
    settled.received() == 1
        && settled.next(rt) == Some(2)
        && settled.next(rt) == Some(3)
        && settled.next(rt).is_none()
        && settled.received() == 3
}

// What was sent and not received is taken where both ends are in one hand, though the channel was full as it was said that
// no value comes any more.
#[test]
fn what_is_left_is_taken(rt: HostRuntime) -> Result<(), Fail> {
    let (mut sender, mut receiver) = channel(rt.alloc(), 2)?;
    assert!(rt; sender.push(&rt, &1));
    assert!(rt; receiver.take(&rt));
    assert!(rt; sender.push(&rt, &2) && sender.push(&rt, &3));
    sender.stop(&rt);
    let mut settled = sender.settle(receiver);
    assert!(rt; are_left(&rt, &mut settled));
    Ok(())
}

// Where no end receives any more a sender that waits gives up, though the channel is full.
#[test]
fn nobody_receives(rt: HostRuntime) -> Result<(), Fail> {
    let (mut sender, receiver) = channel(rt.alloc(), 1)?;
    assert!(rt; sender.send(&rt, &1));
    drop(receiver);
    assert!(rt; !sender.send(&rt, &2));
    Ok(())
}
