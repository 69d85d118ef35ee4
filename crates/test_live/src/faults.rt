// Wires that fail.
use crate::answer::is_so;
use crate::fixture::{Story, made, run_onto};
use flux_outside::MemSink;
use live_feed::Live;
use std::alloc::Global;
use std::sync::Wait;
use std::test::Fail;
use std::thread::Threads;
use test_kit::ONE;
use tuple_edge::OutOfMemory;

// Whether a front of the text was put, and all of it where no put failed: the first two puts are always there.
fn is_front(story: &Story, taken: &[u8], answer: Live, n: u64) -> bool {
    let all = story.text.len();
    let cut = match answer {
        Live::Done => n > 2 && taken.len() == all,
        Live::WriteFault => taken.len() < all,
        _ => false,
    };
    cut && story.text.as_slice().starts_with(taken)
}

// A wire that fails at its n-th put.
fn fails_at<R: Threads + Wait + Sync>(
    rt: &R,
    alloc: Global,
    story: &Story,
    n: u64,
) -> Result<bool, OutOfMemory> {
    let mut wire = MemSink::new(alloc, vec![in alloc; n]?, 1_000_000, 1_000_000)?;
    let answer = run_onto(rt, alloc, story, &mut wire);
    Ok(is_front(story, wire.taken(), answer, n))
}

fn fails_at_each<R: Threads + Wait + Sync>(
    rt: &R,
    alloc: Global,
    story: &Story,
) -> Result<bool, OutOfMemory> {
    for n in 1..12 {
        if !fails_at(rt, alloc, story, n)? {
            return Ok(false);
        }
    }
    Ok(true)
}

// For each n: a front of the text was put, or there were fewer puts.
#[test]
fn a_failed_put_ends_the_text(rt: HostRuntime) -> Result<(), Fail> {
    let story = made(rt.alloc(), ONE, 1, 1_000, b"")?;
    let well = fails_at_each(&rt, rt.alloc(), &story);
    drop(story);
    is_so(well?)
}

// Whether a wire that takes seven bytes a put takes all of them.
fn takes_all<R: Threads + Wait + Sync>(
    rt: &R,
    alloc: Global,
    story: &Story,
) -> Result<bool, OutOfMemory> {
    let mut narrow = MemSink::new(alloc, Vec::new(alloc), 7, 1_000_000)?;
    let answer = run_onto(rt, alloc, story, &mut narrow);
    Ok(answer == Live::Done && narrow.taken() == story.text.as_slice())
}

// Whether one that has room for a hundred bytes takes those, and is a fault then.
fn takes_a_hundred<R: Threads + Wait + Sync>(
    rt: &R,
    alloc: Global,
    story: &Story,
) -> Result<bool, OutOfMemory> {
    let mut full = MemSink::new(alloc, Vec::new(alloc), 1_000, 100)?;
    let answer = run_onto(rt, alloc, story, &mut full);
    Ok(
        answer == Live::WriteFault
            && full.taken().len() == 100
            && story.text.as_slice().starts_with(full.taken()),
    )
}

fn take_what_they_can<R: Threads + Wait + Sync>(
    rt: &R,
    alloc: Global,
    story: &Story,
) -> Result<bool, OutOfMemory> {
    Ok(takes_all(rt, alloc, story)? && takes_a_hundred(rt, alloc, story)?)
}

// A wire that takes a few bytes a put takes all of them; one that has no more room is a fault.
#[test]
fn a_wire_takes_what_it_can(rt: HostRuntime) -> Result<(), Fail> {
    let story = made(rt.alloc(), ONE, 1, 200, b"")?;
    let well = take_what_they_can(&rt, rt.alloc(), &story);
    drop(story);
    is_so(well?)
}
