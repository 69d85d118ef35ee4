// Why a command stops, as a program says it.
ghost use Rattle.std.specs.Prelude.{◌≡◌};
ghost use Rattle.flux_top.specs.Programs.{Tells};
ghost use Rattle.flux_top.specs.Stops.{IsOwn, line_at, own_lines, status_at};

use crate::lines::{line_by, say};
use command_course::Stop;
use flux_outside::Sink;
use std::alloc::Global;

/// The same stop, with the name of the program before its line.
pub fn own_stop(alloc: Global, name: &str, stop: Stop) -> Stop
    ensures { IsOwn name.now stop result }
{
    match stop {
        Stop::Refused { line } => match line_by(alloc, name, line.as_str()) {
            Ok(line) => Stop::Refused { line },
            Err(_) => Stop::OutOfMemory,
        },
        Stop::CannotRead { line } => match line_by(alloc, name, line.as_str()) {
            Ok(line) => Stop::CannotRead { line },
            Err(_) => Stop::OutOfMemory,
        },
        other => other,
    }
}

/// Says why a program stops, and gives its status for that. Of its own are the lines for words that have no form, for what
/// could not be written or saved, and for want of memory.
pub fn say_stop<E: Sink>(err: &mut E, usage: &str, unwritten: &str, short: &str, stop: &Stop) -> u8
    ensures status { result ≡ status_at stop.now }
    ensures line { Tells (E.told err.old) (E.told err.new) (line_at (own_lines usage.now unwritten.now short.now) stop.now) }
{
    match stop {
        Stop::Usage => {
            say(err, usage);
            2
        }
        Stop::Refused { line } => {
            say(err, line.as_str());
            3
        }
        Stop::CannotRead { line } => {
            say(err, line.as_str());
            4
        }
        Stop::CannotWrite => {
            say(err, unwritten);
            5
        }
        Stop::PairLost { line, .. } => {
            say(err, line.as_str());
            6
        }
        Stop::OutOfMemory => {
            say(err, short);
            8
        }
    }
}
