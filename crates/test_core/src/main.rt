//! The program `test_core`: for each story of some lists, a core goes through the story's events one by one and is
//! drained, and what came of it is written: which events are no step, the state that the others reach, how the drain
//! ended and by which events, and the rows that were emitted, beside those of the plan's output.
//!
//! Each of these calls may find no memory, and is then made again where it did. So the text is the same whichever one
//! allocation is refused. It rests on what flux_core, core_drain and ingress_egress promise of what stands after a call
//! that found no memory: what stood before, and after the drain's what its events lead to.
#![tactic(auto)]

mod again;
mod fault;
mod inputs;
mod listed;
mod sender;
mod story;
mod telling;

use again::again;
use fault::Fault;
use inputs::{bytes_of, inputs_of};
use listed::{Kind, Listed, listed_at};
use sender::sent_text;
use std::alloc::Global;
use std::env;
use std::process::ExitCode;
use telling::{put, tell_drain, tell_ending, tell_state};
use text_words::Lines;
use tuple_edge::OutOfMemory;

fn main(rt: HostRuntime) -> ExitCode {
    match tell_all(&rt, rt.alloc()) {
        Ok(()) => ExitCode::SUCCESS,
        Err(fault) => {
            let _ = eprintln!(rt; "test_core: {fault}");
            ExitCode::from(fault.status())
        }
    }
}

// The words after the program's name: the lists' names.
fn names(rt: &HostRuntime, alloc: Global) -> Result<Vec<String>, OutOfMemory> {
    let mut names = Vec::new(alloc);
    let Ok(args) = env::args(rt) else {
        return Err(OutOfMemory);
    };
    for name in args.skip(1) {
        names.push(name)?;
    }
    Ok(names)
}

// Each list in turn.
fn tell_all(rt: &HostRuntime, alloc: Global) -> Result<(), Fault> {
    for name in &again(|| names(rt, alloc))? {
        tell_list(rt, alloc, name)?;
    }
    Ok(())
}

// Each story of a list.
fn tell_list(rt: &HostRuntime, alloc: Global, name: &str) -> Result<(), Fault> {
    let text = bytes_of(rt, name)?;
    let mut lines = Lines::new(&text);
    for _line in 0..u64::MAX {
        let Some(mut line) = lines.next_line() else {
            break;
        };
        tell(rt, alloc, &listed_at(&mut line.words)?)?;
    }
    Ok(())
}

// The files of a story, and how many of its events happen.
fn tell_heading(rt: &HostRuntime, listed: &Listed<'_>) -> Result<(), Fault> {
    let Listed { plan, trades, .. } = *listed;
    let cash = listed.cash.unwrap_or("-");
    let events = listed.events.unwrap_or("-");
    match listed.front {
        None => println!(rt; "== {plan} {trades} {cash} {events}")?,
        Some(count) => println!(rt; "== {plan} {trades} {cash} {events} {count}")?,
    }
    Ok(())
}

// What a line of a list asks for.
fn tell(rt: &HostRuntime, alloc: Global, listed: &Listed<'_>) -> Result<(), Fault> {
    tell_heading(rt, listed)?;
    let inputs = inputs_of(rt, alloc, listed)?;
    match listed.kind {
        Kind::State => tell_state(rt, alloc, &inputs),
        Kind::Drain => tell_drain(rt, alloc, &inputs),
        Kind::Ending => tell_ending(rt, alloc, &inputs),
        Kind::Sends => put(
            rt,
            &again(|| sent_text(alloc, &inputs.plan, &inputs.trades))?,
        ),
    }
}
