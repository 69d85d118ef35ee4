// The answers of a newcomer.
ghost use Rattle.std.specs.Prelude.{◌≡◌, ◌≤◌, IfOk, false, length};

use crate::answer::is_so;
use crate::moves::passing::hold;
use catch_up::{Hold, Newcomer, Took};
use std::alloc::Global;
use std::test::Fail;
use stream_ops::{By, OpSpec};
use tuple_edge::{Entry, OutOfMemory};

// Items of two in-edges that a newcomer is given, by edge and number, and what becomes of each.
const HELD: &[(u32, u64, Hold)] = &[
    (0, 9, Hold::Kept),
    (0, 3, Hold::Kept),
    (0, 9, Hold::Repeat),
    (1, 9, Hold::Kept),
];

// Whether each of them is answered so.
fn holds_once(newcomer: &mut Newcomer) -> Result<bool, OutOfMemory>
    requires { length newcomer.old.held ≡ 2 }
    ensures { length newcomer.new.held ≡ 2 }
{
    let mut all = true;
    for (edge, number, held) in HELD {
        all = all && *edge < 2 && hold(newcomer, *edge, *number)? == *held;
    }
    Ok(all)
}

// Two numbers are held of the first in-edge then, in their order.
fn holds_two(newcomer: &Newcomer) -> bool
    requires { length newcomer.now.held ≡ 2 }
{
    newcomer.held(0, 0) == Some(3)
        && newcomer.held(0, 1) == Some(9)
        && newcomer.held(0, 2).is_none()
}

fn holds_each_once(alloc: Global) -> Result<bool, OutOfMemory> {
    let mut newcomer = Newcomer::begin(alloc, 2, 2)?;
    let once = holds_once(&mut newcomer);
    let two = holds_two(&newcomer);
    drop(newcomer);
    Ok(once? && two)
}

#[test]
fn each_number_is_held_once(rt: HostRuntime) -> Result<(), Fail> {
    is_so(holds_each_once(rt.alloc())?)
}

const ENTRY: Entry = Entry::Count { count: 5 };

// What became of an entry of an incarnation's move, under a number, one after another.
const CHUNKS: &[(u64, u64, Took)] = &[
    (2, 2, Took::Ahead),
    (1, 1, Took::OtherInc),
    (3, 9, Took::OtherInc),
    (2, 1, Took::Taken),
    (2, 1, Took::Repeat),
    (2, 0, Took::Repeat),
    (2, 3, Took::Ahead),
    (1, 1, Took::OtherInc),
    (2, 2, Took::Taken),
];

fn takes_in_order(newcomer: &mut Newcomer) -> Result<bool, OutOfMemory> {
    let mut all = true;
    for (inc, number, took) in CHUNKS {
        all = all && newcomer.chunk(*inc, *number, ENTRY)? == *took;
    }
    Ok(all)
}

// Two entries were taken.
fn has_two(newcomer: &Newcomer) -> bool {
    newcomer.taken() == 2
        && newcomer.entry(0).is_none()
        && newcomer.entry(2) == Some(ENTRY)
        && newcomer.entry(3).is_none()
}

fn takes_entries(alloc: Global) -> Result<bool, OutOfMemory> {
    let mut newcomer = Newcomer::begin(alloc, 2, 1)?;
    let in_order = takes_in_order(&mut newcomer);
    let two = has_two(&newcomer);
    drop(newcomer);
    Ok(in_order? && two)
}

#[test]
fn entries_are_taken_in_order(rt: HostRuntime) -> Result<(), Fail> {
    is_so(takes_entries(rt.alloc())?)
}

// Whether the end of an incarnation's move with so many entries counts.
fn ends(newcomer: &mut Newcomer, inc: u64, count: u64) -> Result<bool, OutOfMemory>
    requires { 1 ≤ length newcomer.old.held }
    ensures { IfOk result (λ ended. ended ≡ false → newcomer.new ≡ newcomer.old) }
{
    let spec = OpSpec::Total { by: By::Account };
    match newcomer.end(inc, count, spec, 1, 0, 2)? {
        Some(_) => Ok(true),
        None => Ok(false),
    }
}

// Whether the end of another incarnation's move counts, or else the end after an entry that wasn't taken.
fn ends_otherwise(newcomer: &mut Newcomer) -> Result<bool, OutOfMemory>
    requires { length newcomer.old.held ≡ 1 }
{
    let _hold = hold(newcomer, 0, 1)?;
    if ends(newcomer, 3, 0)? {
        return Ok(true);
    }
    ends(newcomer, 2, 1)
}

fn other_ends(alloc: Global) -> Result<bool, OutOfMemory> {
    let mut newcomer = Newcomer::begin(alloc, 2, 1)?;
    let ended = ends_otherwise(&mut newcomer);
    drop(newcomer);
    ended
}

#[test]
fn another_end_changes_nothing(rt: HostRuntime) -> Result<(), Fail> {
    is_so(!other_ends(rt.alloc())?)
}
