// Links beside the lists that they are to give.
ghost use Rattle.std.specs.Prelude.{◌≡◌, ◌<◌, ◌≤◌, ◌+◌, ◌^◌, [], length};

use flux_link::{Arrival, Choice, Inlet, LossyIn, MemLink, Outlet, RING_PACKETS, ring};
use std::alloc::Global;
use std::test::Fail;
use std::thread;
use tuple_edge::{Body, OutOfMemory, Packet};

const MOST: u64 = 200;

fn packet(at: u64) -> Packet {
    Packet {
        at,
        body: Body::AskBack,
    }
}

// Sends packets until one is given back, or so many: how many were sent.
fn send_most<O: Outlet>(outlet: &mut O, most: u64) -> u64
    ensures { O.identity outlet.new ≡ O.identity outlet.old }
{
    for at in 0..most {
        if outlet.send(packet(at)).is_err() {
            return at;
        }
    }
    most
}

// The index of the next arrival of an inlet that gave few before.
fn next_of<I: Inlet>(inlet: &mut I) -> Option<u64>
    requires { length (I.given inlet.old) < 2 ^ 32 }
    ensures given { length (I.given inlet.new) ≤ length (I.given inlet.old) + 1 }
    ensures link { I.identity inlet.new ≡ I.identity inlet.old }
{
    let arrival = inlet.recv()?;
    Some(arrival.index)
}

// Its index, where it is looked at and then passed.
fn next_index<I: Inlet>(inlet: &mut I) -> Option<u64>
    requires { length (I.given inlet.old) < 2 ^ 32 }
    ensures given { length (I.given inlet.new) ≤ length (I.given inlet.old) + 1 }
    ensures link { I.identity inlet.new ≡ I.identity inlet.old }
{
    if !inlet.look() {
        return None;
    }
    let index = inlet.index();
    inlet.pass();
    Some(index)
}

// The indexes of all arrivals that an inlet gives, up to a fixed number of them. Each second one is looked at first.
fn indexes<I: Inlet>(alloc: Global, inlet: &mut I) -> Result<Vec<u64>, OutOfMemory>
    requires { length (I.given inlet.old) < 2 ^ 31 }
    ensures given { length (I.given inlet.new) ≤ length (I.given inlet.old) + MOST }
    ensures link { I.identity inlet.new ≡ I.identity inlet.old }
{
    let mut all = Vec::new(alloc);
    for turn in 0..MOST {
        let next = if turn % 2 == 0 {
            next_of(inlet)
        } else {
            next_index(inlet)
        };
        let Some(index) = next else {
            break;
        };
        all.push(index)?;
    }
    Ok(all)
}

// A link of one packet takes one, gives a second one back, and then gives the first.
fn goes_one_by_one(link: &mut MemLink) -> bool
    requires { link.old.given ≡ [] }
{
    let first = Arrival {
        index: 1,
        packet: packet(5),
    };
    let nothing = link.recv().is_none();
    let sent = link.send(packet(5)).is_ok();
    let back = link.send(packet(6)) == Err(packet(6));
    let given = link.recv() == Some(first);
    nothing && sent && back && given
}

// The packet that is next is told before it is given.
fn tells_next(link: &mut MemLink) -> bool {
    !link.look() && link.send(packet(5)).is_ok() && link.look() && *link.first() == packet(5)
}

fn link_of_one(alloc: Global) -> Result<bool, OutOfMemory> {
    let mut link = MemLink::new(alloc, 1)?;
    Ok(goes_one_by_one(&mut link))
}

fn next_of_one(alloc: Global) -> Result<bool, OutOfMemory> {
    let mut link = MemLink::new(alloc, 1)?;
    Ok(tells_next(&mut link))
}

// A link without room gives each packet back.
fn link_of_none(alloc: Global) -> Result<bool, OutOfMemory> {
    let mut link = MemLink::new(alloc, 0)?;
    Ok(link.send(packet(1)) == Err(packet(1)))
}

fn sends_two(link: &mut MemLink) -> bool
    ensures { link.new.given ≡ link.old.given }
{
    link.send(packet(1)).is_ok() && link.send(packet(2)).is_ok()
}

// Of two packets the first falls behind.
fn falls_behind(alloc: Global) -> Result<bool, OutOfMemory> {
    let mut link = MemLink::new(alloc, 2)?;
    let sent = sends_two(&mut link);
    let mut lossy = LossyIn::new(link, vec![in alloc; Choice::Behind]?);
    let given = indexes(alloc, &mut lossy)?;
    Ok(sent && given[..] == [2, 1])
}

#[test]
fn memory_link_is_exact(rt: HostRuntime) -> Result<(), Fail> {
    assert!(rt; link_of_one(rt.alloc())?);
    assert!(rt; falls_behind(rt.alloc())?);
    assert!(rt; next_of_one(rt.alloc())?);
    assert!(rt; link_of_none(rt.alloc())?);
    Ok(())
}

// A ring takes as many packets as it has room for, gives all of them, and then takes one more.
fn is_filled_and_emptied(alloc: Global) -> Result<bool, OutOfMemory> {
    let (mut outlet, mut inlet) = ring(alloc)?;
    let all = RING_PACKETS as u64;
    let sent = send_most(&mut outlet, all + 1);
    let given = indexes(alloc, &mut inlet)?;
    Ok(sent == all && given.iter().copied().eq(1..all + 1) && outlet.send(packet(7)).is_ok())
}

#[test]
fn ring_is_filled_and_emptied(rt: HostRuntime) -> Result<(), Fail> {
    assert!(rt; is_filled_and_emptied(rt.alloc())?);
    Ok(())
}

// What is given of four packets by choices.
const GIVEN: &[(&[Choice], &[u64])] = &[
    (&[], &[1, 2, 3, 4]),
    (
        &[
            Choice::Pass,
            Choice::Pass,
            Choice::Pass,
            Choice::Pass,
            Choice::Drop,
        ],
        &[1, 2, 3, 4],
    ),
    (&[Choice::Drop], &[2, 3, 4]),
    (&[Choice::Twice], &[1, 1, 2, 3, 4]),
    (&[Choice::Behind], &[2, 1, 3, 4]),
    (&[Choice::Behind, Choice::Behind], &[1, 3, 2, 4]),
    (
        &[
            Choice::Behind,
            Choice::Behind,
            Choice::Behind,
            Choice::Behind,
        ],
        &[1, 2, 3],
    ),
    (&[Choice::Behind, Choice::Drop, Choice::Drop], &[1, 4]),
    (&[Choice::Behind, Choice::Twice], &[2, 2, 1, 3, 4]),
    (
        &[Choice::Drop, Choice::Twice, Choice::Behind, Choice::Pass],
        &[2, 2, 4, 3],
    ),
    (
        &[Choice::Drop, Choice::Drop, Choice::Drop, Choice::Drop],
        &[],
    ),
];

// Whether these are given.
fn gives(alloc: Global, choices: &[Choice], wanted: &[u64]) -> Result<bool, OutOfMemory> {
    let (mut outlet, inlet) = ring(alloc)?;
    let sent = send_most(&mut outlet, 4);
    let mut lossy = LossyIn::new(inlet, Vec::from_slice(alloc, choices)?);
    let given = indexes(alloc, &mut lossy)?;
    Ok(sent == 4 && given.as_slice() == wanted)
}

fn first_wrong(alloc: Global) -> Result<Option<usize>, OutOfMemory> {
    for (place, (choices, wanted)) in GIVEN.iter().enumerate() {
        if !gives(alloc, choices, wanted)? {
            return Ok(Some(place));
        }
    }
    Ok(None)
}

#[test]
fn choices_say_what_is_given(rt: HostRuntime) -> Result<(), Fail> {
    assert_eq!(rt; first_wrong(rt.alloc())?, None);
    Ok(())
}

// The first two items are one, the next one is missing, and then come all others.
fn are_all_but_one(given: &[u64]) -> bool {
    given.len() == 100 && given[..2] == [1, 1] && given[2..].iter().copied().eq(3..101)
}

// One thread fills a ring while another one takes what it sees; then both ends are in one hand, and the rest is taken.
#[test]
fn ends_go_to_two_threads(rt: HostRuntime) -> Result<(), Fail> {
    let (mut outlet, inlet) = ring(rt.alloc())?;
    let choices = vec![in rt.alloc(); Choice::Twice, Choice::Drop]?;
    let mut lossy = LossyIn::new(inlet, choices);
    let (mut outlet, (mut lossy, first)) = thread::join(
        &rt,
        move || {
            send_most(&mut outlet, 100);
            outlet
        },
        move || {
            let first = indexes(rt.alloc(), &mut lossy);
            (lossy, first)
        },
    );
    lossy.settle(&mut outlet);
    let mut given = first?;
    given.append(&mut indexes(rt.alloc(), &mut lossy)?)?;
    assert!(rt; are_all_but_one(&given));
    Ok(())
}
