// The program round a walk: its words, and what it prints.
use crate::orders::{Fault, Orders};
use crate::visit::{Bounds, Tally, Walk};
use std::alloc::{AllocError, Global};
use std::process::ExitCode;
use std::{env, io};
use tuple_edge::OutOfMemory;

/// A state differs.
const DIFFERS: u8 = 1;
/// The words are not two numbers.
const USAGE: u8 = 2;
/// Standard output can't be written.
const CANNOT_WRITE: u8 = 5;
/// No memory was to be had.
const OUT_OF_MEMORY: u8 = 8;

/// Goes over the states of a run within the bounds that the words of a program of this name say, prints what there is,
/// and gives the program's status: 0 exactly where no state differs and all was printed.
pub fn walk<E: Copy, R: Orders<E> + Drop>(
    rt: &HostRuntime,
    name: &str,
    run: Result<R, OutOfMemory>,
) -> ExitCode {
    let Ok(words) = words(rt, rt.alloc()) else {
        return short(rt, name);
    };
    let Some(bounds) = bounds(&words) else {
        let _ = eprintln!(rt; "{name}: usage: {name} DEPTH FAILURES");
        return ExitCode::from(USAGE);
    };
    let Ok((tally, differs)) = walked(rt.alloc(), run, bounds) else {
        return short(rt, name);
    };
    match printed(rt, tally, &differs) {
        Ok(()) => ExitCode::from(if differs.is_some() { DIFFERS } else { 0 }),
        Err(_) => ExitCode::from(CANNOT_WRITE),
    }
}

// No memory was to be had.
fn short(rt: &impl Eprint, name: &str) -> ExitCode {
    let _ = eprintln!(rt; "{name}: out of memory");
    ExitCode::from(OUT_OF_MEMORY)
}

// The words after the program's name; none where they are no text.
fn words(rt: &HostRuntime, alloc: Global) -> Result<Vec<String>, AllocError> {
    let mut words = Vec::new(alloc);
    if let Ok(args) = env::args(rt) {
        for word in args.skip(1) {
            words.push(word)?;
        }
    }
    Ok(words)
}

// The bounds that two words say.
fn bounds(words: &[String]) -> Option<Bounds> {
    let [depth, failures] = words else {
        return None;
    };
    Some(Bounds {
        depth: depth.parse().ok()?,
        failures: failures.parse().ok()?,
    })
}

/// The state that differs, if one does: in what, and the text of the events that lead there.
type Differs = Option<(Fault, String)>;

// The walk within these bounds.
fn walked<E: Copy, R: Orders<E> + Drop>(
    alloc: Global,
    run: Result<R, OutOfMemory>,
    bounds: Bounds,
) -> Result<(Tally, Differs), OutOfMemory> {
    let run = run?;
    let mut walk = Walk::new(alloc, &run, bounds);
    match walk.goes()? {
        None => Ok((walk.tally(), None)),
        Some(fault) => {
            let events = text_of(walk.way()?)?;
            Ok((walk.tally(), Some((fault, events))))
        }
    }
}

// The bytes of a text of events as a string.
fn text_of(events: Vec<u8>) -> Result<String, OutOfMemory> {
    match String::from_utf8(events) {
        Ok(text) => Ok(text),
        Err(_) => Err(OutOfMemory),
    }
}

// What the walk came to.
fn printed(rt: &impl Print, tally: Tally, differs: &Differs) -> io::Result<()> {
    let Tally {
        states,
        tried,
        steps,
        whole,
        lost,
    } = tally;
    println!(rt; "{states} states")?;
    println!(rt; "{tried} events tried, of which {steps} are steps")?;
    println!(rt; "{whole} drained whole, {lost} lost")?;
    match differs {
        None => println!(rt; "0 differ"),
        Some((fault, events)) => {
            println!(rt; "1 differs: {fault}")?;
            print!(rt; "{events}")
        }
    }
}
