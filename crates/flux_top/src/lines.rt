// The lines that are said on the error stream.
ghost use Rattle.std.specs.Prelude.{◌≡◌, IfOk, string_bytes};
ghost use Rattle.flux_top.specs.Lines.{line_by, lost_line_by};
ghost use Rattle.flux_top.specs.Programs.{Tells};
ghost use Rattle.pair_machine.specs.Drain.{partition};

use flux_outside::{Failed, Sink, write_all};
use std::alloc::Global;
use tuple_edge::OutOfMemory;

// Says a line. A fault of the sink changes nothing.
pub(crate) fn say<E: Sink>(err: &mut E, line: &str)
    ensures { Tells (E.told err.old) (E.told err.new) line.now }
{
    match write_all(err, line.as_bytes()) {
        Ok(()) => (),
        Err(Failed) => (),
    }
}

/// What a program of this name says of a lost pair.
pub fn line_of_loss(alloc: Global, name: &str, stage: u32, part: u32) -> Result<String, OutOfMemory>
    ensures { IfOk result (λ line. string_bytes line ≡ lost_line_by name.now (partition stage part)) }
{
    let line = format!(in alloc; "{name}: pair {stage}.{part} is lost\n")?;
    Ok(line)
}

// A line as a program of this name says it.
pub(crate) fn line_by(alloc: Global, name: &str, line: &str) -> Result<String, OutOfMemory>
    ensures { IfOk result (λ own. string_bytes own ≡ line_by name.now line.now) }
{
    let own = format!(in alloc; "{name}: {line}")?;
    Ok(own)
}
