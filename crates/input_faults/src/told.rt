// The lines that are said of a fault.
ghost use Rattle.std.specs.Prelude.{◌≡◌, ◌++◌, IfOk, OnOk, option_map, string_bytes};
ghost use Rattle.input_faults.specs.WordFaults.{length_line, spot_line, standing};

use crate::shown::push_stands;
use crate::spot::{Spot, start_of, word_of};
use std::alloc::{AllocError, Global};
use tuple_edge::OutOfMemory;

// Appends what stands at a spot.
fn push_standing(text: &mut String, word: Option<&[u8]>) -> Result<(), AllocError>
    ensures { OnOk result (string_bytes text.new ≡ string_bytes text.old ++ standing (option_map (λ w. w.now) word.entry)) }
{
    match word {
        None => text.push_str("the line ends here"),
        Some(word) => push_stands(text, word),
    }
}

// The line that is said of a spot in a line of this number.
pub(crate) fn spot_line(
    alloc: Global,
    name: &str,
    number: u64,
    line: &[u8],
    spot: Spot,
) -> Result<String, OutOfMemory>
    ensures { IfOk result (λ said. string_bytes said ≡ spot_line name.now number line.now spot) }
{
    let column = start_of(line, spot.passed) as u64 + 1;
    let place = spot.place;
    let mut text = format!(in alloc; "{name}: line {number}, column {column}: ")?;
    push_standing(&mut text, word_of(line, spot.passed))?;
    write!(text, "; here may stand: {place}")?;
    Ok(text)
}

// The line that is said of a file that is too long.
pub(crate) fn length_line(
    alloc: Global,
    name: &str,
    count: u64,
    most: u64,
) -> Result<String, OutOfMemory>
    ensures { IfOk result (λ said. string_bytes said ≡ length_line name.now count most) }
{
    let text = format!(in alloc; "{name}: {count} bytes; at most {most} may be")?;
    Ok(text)
}

// The line that is said of a file, and why.
pub(crate) fn plain_line(alloc: Global, name: &str, why: &str) -> Result<String, OutOfMemory>
    ensures { IfOk result (λ said. string_bytes said ≡ name.now ++ why.now) }
{
    let text = format!(in alloc; "{name}{why}")?;
    Ok(text)
}
