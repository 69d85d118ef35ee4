// Live runs to their end.
use crate::answer::{is_so, none_is_wrong};
use crate::fixture::{Story, made, puts_all, run_onto};
use flux_outside::MemSink;
use live_feed::Live;
use std::alloc::Global;
use std::sync::Wait;
use std::test::Fail;
use std::thread::Threads;
use test_kit::{ONE, THREE};
use tuple_edge::OutOfMemory;

// A plan, how many trades, and a script.
type Case = (&'static [u8], u32, &'static [u8]);

const CASES: &[Case] = &[
    (ONE, 0, b""),
    (ONE, 3, b""),
    (ONE, 3_000, b"stop 1.0.a at 500 back 900\n"),
    (THREE, 2_000, b"kill 1.0.a at 100 back 300\n"),
];

fn ends_so<R: Threads + Wait + Sync>(
    rt: &R,
    alloc: Global,
    plan: &[u8],
    count: u32,
    script: &[u8],
) -> Result<bool, OutOfMemory> {
    if count > 3_000 {
        return Ok(false);
    }
    let story = made(alloc, plan, 7, count, script)?;
    let all = puts_all(rt, alloc, &story);
    drop(story);
    all
}

fn first_wrong<R: Threads + Wait + Sync>(
    rt: &R,
    alloc: Global,
) -> Result<Option<usize>, OutOfMemory> {
    for (place, (plan, count, script)) in CASES.iter().enumerate() {
        if !ends_so(rt, alloc, plan, *count, script)? {
            return Ok(Some(place));
        }
    }
    Ok(None)
}

// The text is that of the output, under a safe script too, and where the channel was often full.
#[test]
fn all_of_the_text_is_put(rt: HostRuntime) -> Result<(), Fail> {
    none_is_wrong(first_wrong(&rt, rt.alloc())?)
}

// Whether this is a front of the text, with the names of the columns and without the last line.
fn is_cut(story: &Story, taken: &[u8]) -> bool {
    let text = story.text.as_slice();
    taken.len() < text.len()
        && text.starts_with(taken)
        && taken.starts_with(b"time,account,symbol,qty,value\n")
}

fn loses_the_pair<R: Threads + Wait + Sync>(
    rt: &R,
    alloc: Global,
    story: &Story,
) -> Result<bool, OutOfMemory> {
    let mut wire = MemSink::new(alloc, Vec::new(alloc), 1_000_000, 1_000_000)?;
    let answer = run_onto(rt, alloc, story, &mut wire);
    Ok(answer == Live::Lost { stage: 1, part: 0 } && is_cut(story, wire.taken()))
}

// Where a pair is lost, what was emitted before is put, without the last line.
#[test]
fn a_lost_pair_is_named(rt: HostRuntime) -> Result<(), Fail> {
    let script = b"kill 1.0.a at 1 back never\nkill 1.0.b at 1 back never\n";
    let story = made(rt.alloc(), ONE, 1, 1_000, script)?;
    let well = loses_the_pair(&rt, rt.alloc(), &story);
    drop(story);
    is_so(well?)
}
