// Logs of events, at the size of a day.
ghost use Rattle.std.specs.Prelude.{◌<◌, ◌≤◌, ◌^◌};

use event_log::{Log, Reader};
use std::alloc::Global;
use std::test::Fail;
use tuple_edge::{Event, LinkId, NodeId, OutOfMemory, Stamped, Which};

const EVENTS: u64 = 1_000_000;

const NODE: NodeId = NodeId::Replica {
    stage: 3,
    part: 2,
    which: Which::B,
};

// One of the node's senders.
fn sender(number: u64) -> NodeId
    requires { number < 2 ^ 32 }
{
    NodeId::Replica {
        stage: 2,
        part: number as u32,
        which: Which::A,
    }
}

// The nth event of a node with 40 senders, from each of which it takes 31 packets, before it works. The last
// of the senders loses every second packet. Now and then the clock rises by much, and another event comes between.
fn event_at(n: u64) -> Stamped
    requires { n < 2 ^ 32 }
{
    let clock = n * 3 + n / 100_000 * 1_000_000;
    let place = n / 32 % 40;
    let index = n / 1280 * 31 + n % 32 + 1;
    let event = if n % 1009 == 0 {
        Event::AskBack { node: NODE }
    } else if n % 32 == 31 {
        Event::Work { node: NODE }
    } else {
        Event::Take {
            link: LinkId {
                from: sender(place),
                to: NODE,
            },
            index: if place == 39 { 2 * index } else { index },
        }
    };
    Stamped { clock, event }
}

// Appends an event of the node by the call for its kind.
fn append(log: &mut Log, stamped: Stamped)
    requires { 1 ≤ log.old.spare }
{
    match stamped.event {
        Event::Take { link, index } => log.take(link.from, index, stamped.clock),
        Event::Work { .. } => log.work(stamped.clock),
        _ => log.push_reserved(stamped),
    }
}

// A log of all events of a day.
fn day(alloc: Global) -> Result<Log, OutOfMemory> {
    let mut log = Log::new(alloc, NODE);
    for n in 0..EVENTS {
        log.reserve(1)?;
        append(&mut log, event_at(n));
    }
    Ok(log)
}

// Whether the next event is this, told before it is given.
fn is_next(reader: &mut Reader<'_>, wanted: Stamped) -> bool {
    reader.peek() == Some(wanted) && reader.next() == Some(wanted)
}

fn reads_day(reader: &mut Reader<'_>) -> bool {
    for n in 0..EVENTS {
        if !is_next(reader, event_at(n)) {
            return false;
        }
    }
    reader.next().is_none()
}

#[test]
fn a_day_reads_back(rt: HostRuntime) -> Result<(), Fail> {
    let log = day(rt.alloc())?;
    assert!(rt; reads_day(&mut log.reader(rt.alloc())?));
    Ok(())
}

// An event that no node's log expects: of another node, with a clock that falls.
fn stray_at(n: u64) -> Stamped
    requires { n < 300 }
{
    let event = match n % 5 {
        0 => Event::Make,
        1 => Event::Work {
            node: NodeId::Egress,
        },
        2 => Event::Pull {
            from: sender(n),
            to: NODE,
        },
        3 => Event::Kill { node: sender(n) },
        _ => Event::Take {
            link: LinkId {
                from: NODE,
                to: sender(n),
            },
            index: 0,
        },
    };
    Stamped {
        clock: u64::MAX - n,
        event,
    }
}

// What the node takes as the index-th packet of a sender.
fn taken_at(index: u64, n: u64) -> Stamped
    requires index { index < 4 }
    requires n { n < 300 }
{
    Stamped {
        clock: index * 300 + n,
        event: Event::Take {
            link: LinkId {
                from: sender(n),
                to: NODE,
            },
            index,
        },
    }
}

// Three packets of each of 300 senders, and a stray after each.
fn strays(alloc: Global) -> Result<Log, OutOfMemory> {
    let mut log = Log::new(alloc, NODE);
    for index in 1..4 {
        for n in 0..300 {
            log.reserve(2)?;
            log.push_reserved(taken_at(index, n));
            log.push_reserved(stray_at(n));
        }
    }
    Ok(log)
}

fn reads_strays(reader: &mut Reader<'_>) -> bool {
    for index in 1..4 {
        for n in 0..300 {
            if reader.next() != Some(taken_at(index, n)) || reader.next() != Some(stray_at(n)) {
                return false;
            }
        }
    }
    reader.peek().is_none()
}

#[test]
fn strays_and_many_senders_read_back(rt: HostRuntime) -> Result<(), Fail> {
    let log = strays(rt.alloc())?;
    assert!(rt; log.len() == 1800);
    assert!(rt; reads_strays(&mut log.reader(rt.alloc())?));
    Ok(())
}

// What a node does several times, one after another.
#[derive(Clone, Copy)]
enum Deed {
    // It takes packets of a sender, from this index on.
    Take(u32, u32),
    Work,
    Make,
    AskBack,
}

// Deeds, the clock after which each is done, and how many times, each with the next clock: one link is cut by another,
// some are done more often than two bytes count, some come on where the ones before end, and some after a gap.
const RUNS: [(Deed, u32, u32); 12] = [
    (Deed::Take(1, 1), 10, 300),
    (Deed::Take(2, 1), 310, 1),
    (Deed::Take(1, 301), 311, 300),
    (Deed::Take(2, 2), 611, 70_000),
    (Deed::Take(1, 601), 70_611, 1),
    (Deed::Take(1, 900), 70_612, 5),
    (Deed::Work, 70_617, 65_536),
    (Deed::Work, 136_153, 65_537),
    (Deed::Work, 300_000, 3),
    (Deed::Make, 300_003, 200_000),
    (Deed::AskBack, 500_003, 4),
    (Deed::Take(2, 70_002), 500_007, 2),
];

// All of them together.
const RUN_EVENTS: usize = 401_689;

// The nth event of a deed that is done after a clock, counted from 0.
fn deed_at(deed: Deed, clock: u32, nth: u32) -> Stamped {
    let event = match deed {
        Deed::Take(number, index) => Event::Take {
            link: LinkId {
                from: sender(u64::from(number)),
                to: NODE,
            },
            index: u64::from(index) + u64::from(nth),
        },
        Deed::Work => Event::Work { node: NODE },
        Deed::Make => Event::Make,
        Deed::AskBack => Event::AskBack { node: NODE },
    };
    Stamped {
        clock: u64::from(clock) + u64::from(nth) + 1,
        event,
    }
}

// Appends a deed, event by event.
fn append_each(log: &mut Log, deed: Deed, clock: u32, times: u32) -> Result<(), OutOfMemory> {
    for nth in 0..times {
        log.reserve(1)?;
        append(log, deed_at(deed, clock, nth));
    }
    Ok(())
}

// Appends a deed by one call where there is one for it.
fn append_run(log: &mut Log, deed: Deed, clock: u32, times: u32) -> Result<(), OutOfMemory> {
    log.reserve(times as usize)?;
    match deed {
        Deed::Work => log.work_times(u64::from(clock), times as usize),
        Deed::Make => log.make_times(u64::from(clock), times as usize),
        Deed::Take(..) | Deed::AskBack => append_each(log, deed, clock, times)?,
    }
    Ok(())
}

// A log of all deeds, event by event.
fn event_by_event(alloc: Global) -> Result<Log, OutOfMemory> {
    let mut log = Log::new(alloc, NODE);
    for (deed, clock, times) in RUNS {
        append_each(&mut log, deed, clock, times)?;
    }
    Ok(log)
}

// A log of all deeds, run by run.
fn run_by_run(alloc: Global) -> Result<Log, OutOfMemory> {
    let mut log = Log::new(alloc, NODE);
    for (deed, clock, times) in RUNS {
        append_run(&mut log, deed, clock, times)?;
    }
    Ok(log)
}

fn reads_run(reader: &mut Reader<'_>, deed: Deed, clock: u32, times: u32) -> bool {
    for nth in 0..times {
        if !is_next(reader, deed_at(deed, clock, nth)) {
            return false;
        }
    }
    true
}

fn reads_runs(reader: &mut Reader<'_>) -> bool {
    for (deed, clock, times) in RUNS {
        if !reads_run(reader, deed, clock, times) {
            return false;
        }
    }
    reader.next().is_none()
}

// Whether a log holds all deeds.
fn holds_runs(alloc: Global, log: &Log) -> Result<bool, OutOfMemory> {
    Ok(log.len() == RUN_EVENTS && reads_runs(&mut log.reader(alloc)?))
}

#[test]
fn what_comes_again_reads_back(rt: HostRuntime) -> Result<(), Fail> {
    assert!(rt; holds_runs(rt.alloc(), &event_by_event(rt.alloc())?)?);
    assert!(rt; holds_runs(rt.alloc(), &run_by_run(rt.alloc())?)?);
    Ok(())
}
