// Runs under scripts at random.
ghost use Rattle.std.specs.Prelude.{◌<◌};

use crate::answer::is_so;
use crate::fixture::{Story, made, puts_all, run_onto};
use flux_outside::MemSink;
use live_feed::Live;
use std::alloc::Global;
use std::sync::Wait;
use std::test::Fail;
use std::thread::Threads;
use test_kit::{ONE, THREE};
use tuple_edge::OutOfMemory;

// A number from those before it, of 31 bits.
fn next(number: u32) -> u32 {
    number.wrapping_mul(1_103_515_245).wrapping_add(12_345) & 0x7fff_ffff
}

// A safe script of one order for the first pair: a replica fails or is stopped, and may come back.
fn safe_script(alloc: Global, number: u32) -> Result<String, OutOfMemory> {
    let how = if number & 0x10000 == 0 {
        "kill"
    } else {
        "stop"
    };
    let which = if number & 0x20000 == 0 { 'a' } else { 'b' };
    let at = 1 + (number >> 8) % 400;
    if number & 0x40000 == 0 {
        return Ok(format!(in alloc; "{how} 1.0.{which} at {at} back never\n")?);
    }
    let back = at + 1 + (number >> 4) % 200;
    Ok(format!(in alloc; "{how} 1.0.{which} at {at} back {back}\n")?)
}

// A script by which both replicas of the first pair fail.
fn unsafe_script(alloc: Global, number: u32) -> Result<String, OutOfMemory> {
    let first = 1 + (number >> 8) % 500;
    let other = 1 + (number >> 16) % 500;
    let script = format!(in alloc;
        "kill 1.0.a at {first} back never\nkill 1.0.b at {other} back never\n"
    )?;
    Ok(script)
}

// The plan of a round.
fn plan_of(round: u32) -> &'static [u8] {
    if round % 2 == 0 { ONE } else { THREE }
}

fn writes_all<R: Threads + Wait + Sync>(
    rt: &R,
    alloc: Global,
    round: u32,
    script: &str,
) -> Result<bool, OutOfMemory>
    requires { round < 16 }
{
    let story = made(alloc, plan_of(round), round, 500, script.as_bytes())?;
    let all = puts_all(rt, alloc, &story);
    drop(story);
    all
}

fn all_write_all<R: Threads + Wait + Sync>(rt: &R, alloc: Global) -> Result<bool, OutOfMemory> {
    let mut number = 7u32;
    for round in 0..16u32 {
        number = next(number);
        if !writes_all(rt, alloc, round, safe_script(alloc, number)?.as_str())? {
            return Ok(false);
        }
    }
    Ok(true)
}

// Under a safe script the text is that of the output, whichever replica fails and when.
#[test]
fn safe_scripts_write_all(rt: HostRuntime) -> Result<(), Fail> {
    is_so(all_write_all(&rt, rt.alloc())?)
}

// Whether a front of the text was put, and all of it just where the pair was not lost.
fn is_front(story: &Story, taken: &[u8], answer: Live) -> bool {
    let text = story.text.as_slice();
    let ended = match answer {
        Live::Done => taken == text,
        Live::Lost { stage: 1, part: 0 } => taken != text,
        _ => false,
    };
    ended && text.starts_with(taken)
}

fn puts_a_front<R: Threads + Wait + Sync>(
    rt: &R,
    alloc: Global,
    story: &Story,
) -> Result<bool, OutOfMemory> {
    let mut wire = MemSink::new(alloc, Vec::new(alloc), 1_000_000, 1_000_000)?;
    let answer = run_onto(rt, alloc, story, &mut wire);
    Ok(is_front(story, wire.taken(), answer))
}

fn writes_a_front<R: Threads + Wait + Sync>(
    rt: &R,
    alloc: Global,
    round: u32,
    script: &str,
) -> Result<bool, OutOfMemory>
    requires { round < 16 }
{
    let story = made(alloc, plan_of(round), round, 500, script.as_bytes())?;
    let front = puts_a_front(rt, alloc, &story);
    drop(story);
    front
}

fn all_write_a_front<R: Threads + Wait + Sync>(rt: &R, alloc: Global) -> Result<bool, OutOfMemory> {
    let mut number = 11u32;
    for round in 0..16u32 {
        number = next(number);
        if !writes_a_front(rt, alloc, round, unsafe_script(alloc, number)?.as_str())? {
            return Ok(false);
        }
    }
    Ok(true)
}

// Under a script by which a pair may be lost a front of it is written, and all of it only where none was lost.
#[test]
fn unsafe_scripts_write_a_front(rt: HostRuntime) -> Result<(), Fail> {
    is_so(all_write_a_front(&rt, rt.alloc())?)
}
