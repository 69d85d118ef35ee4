// Rings of inputs, by one thread and by two.
ghost use Rattle.input_ring.specs.Ends.{gives_from, sends_to};
ghost use Rattle.std.specs.Prelude.{◌≡◌};

use input_ring::{InputSender, InputSource, RING_INPUTS, StopFlag, input_ring};
use node_tasks::{Came, Source};
use std::sync::Wait;
use std::test::Fail;
use std::thread::{Threads, join_mut, sleep, yield_now};
use std::time::{Clock, Duration};
use tuple_edge::Row;

/// More rows than a ring holds.
const MANY: i64 = 5_000;

fn row(number: i64) -> Row {
    Row {
        time: number,
        account: 1,
        symbol: 2,
        qty: 3,
        value: 4,
    }
}

// Sends so many rows, numbered from 0, and says how many it sent before it was stopped.
fn send_rows<R: Wait + Clock>(rt: &R, sender: &mut InputSender, count: i64) -> i64
    ensures { sends_to sender.new ≡ sends_to sender.old }
{
    for number in 0..count {
        if !sender.send(rt, row(number)) {
            return number;
        }
    }
    count
}

// The same, and says then that no more come.
fn send_all<R: Wait + Clock>(rt: &R, sender: &mut InputSender, count: i64) -> i64
    ensures { sends_to sender.new ≡ sends_to sender.old }
{
    let sent = send_rows(rt, sender, count);
    sender.close();
    sent
}

// Takes rows until no more come, and says how many they were; None where one was not the next.
fn take_all<R: Wait>(rt: &R, source: &mut InputSource) -> Option<i64>
    ensures { gives_from source.new ≡ gives_from source.old }
{
    let mut next = 0i64;
    for _ in rt.forever() {
        match source.next() {
            Came::Input(input) => {
                if input.source != 0 || input.row != row(next) {
                    return None;
                }
                next = next.wrapping_add(1);
            }
            Came::End => return Some(next),
            Came::Nothing => yield_now(),
        }
    }
    unreachable!()
}

// A ring whose sender is ahead, in a thread of its own, and then waits for a source that is late.
fn goes_through<R: Threads + Wait + Clock + Sync>(
    rt: &R,
    sender: &mut InputSender,
    source: &mut InputSource,
) -> bool
    requires { gives_from source.old ≡ sends_to sender.old }
    ensures { gives_from source.new ≡ sends_to sender.new }
{
    let mut send = || -> i64
        ensures { sends_to sender.exit.now ≡ sends_to sender.entry.now }
    { send_all(rt, sender, MANY) };
    let mut take = || -> Option<i64>
        ensures { gives_from source.exit.now ≡ gives_from source.entry.now }
    {
        sleep(rt, Duration::from_millis(20));
        take_all(rt, source)
    };
    let (sent, taken) = join_mut(rt, &mut send, &mut take);
    sent == MANY && taken == Some(MANY)
}

// All rows come once and in order, though the ring was full in between, and the end behind them.
#[test]
fn rows_go_through_a_full_ring(rt: HostRuntime) -> Result<(), Fail> {
    let (mut sender, mut source) = input_ring(rt.alloc())?;
    assert!(rt; goes_through(&rt, &mut sender, &mut source));
    assert!(rt; source.settle(&mut sender));
    Ok(())
}

// Whether the source gives nothing, then each row of a ring that is full, and only then the end, which it says again.
fn ends_behind_a_full_ring<R: Wait + Clock>(
    rt: &R,
    sender: &mut InputSender,
    source: &mut InputSource,
) -> bool
    requires { gives_from source.old ≡ sends_to sender.old }
    ensures { gives_from source.new ≡ sends_to sender.new }
{
    let all = RING_INPUTS as i64;
    let first = matches!(source.next(), Came::Nothing);
    let sent = send_all(rt, sender, all);
    let is_all = source.settle(sender);
    let taken = take_all(rt, source);
    let last = matches!(source.next(), Came::End);
    first && last && !is_all && sent == all && taken == Some(all)
}

#[test]
fn the_end_comes_behind_a_full_ring(rt: HostRuntime) -> Result<(), Fail> {
    let (mut sender, mut source) = input_ring(rt.alloc())?;
    assert!(rt; ends_behind_a_full_ring(&rt, &mut sender, &mut source));
    assert!(rt; source.settle(&mut sender));
    Ok(())
}

// How many rows are sent of more than the ring holds, where nobody takes them, until another thread stops the sender.
fn sent_until_stopped<R: Threads + Wait + Clock + Sync>(
    rt: &R,
    sender: &mut InputSender,
    flag: &StopFlag,
) -> i64 {
    let mut send = || send_rows(rt, sender, MANY);
    let mut stop = || {
        sleep(rt, Duration::from_millis(50));
        flag.stop();
    };
    let (sent, ()) = join_mut(rt, &mut send, &mut stop);
    sent
}

// A sender that waits for room is stopped, and sends nothing more; the source says no end.
#[test]
fn a_sender_that_waits_is_stopped(rt: HostRuntime) -> Result<(), Fail> {
    let (mut sender, source) = input_ring(rt.alloc())?;
    let flag = source.stop_flag()?;
    let sent = sent_until_stopped(&rt, &mut sender, &flag);
    assert!(rt; sent <= RING_INPUTS as i64);
    assert!(rt; sender.is_stopped() && flag.is_set());
    assert!(rt; !sender.send(&rt, row(0)));
    Ok(())
}
