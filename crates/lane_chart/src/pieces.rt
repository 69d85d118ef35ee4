// Words as wide as they have to be.
ghost use Rattle.lane_chart.specs.Text.{blanks, padded};
ghost use Rattle.std.specs.Fmt.{decimal};
ghost use Rattle.std.specs.Prelude.{◌≡◌, ◌++◌, OnOk, string_bytes};

use std::alloc::Global;
use tuple_edge::OutOfMemory;

// Appends so many blanks.
#[tactic(auto, using(std::proofs::lemmas::List::replicate_more))]
pub(crate) fn push_blanks(text: &mut String, count: usize) -> Result<(), OutOfMemory>
    ensures { OnOk result (string_bytes text.new ≡ string_bytes text.old ++ blanks count) }
{
    for blank in 0..count {
        text.push_str(" ")?;
    }
    Ok(())
}

// Appends a word with blanks after it, as wide as this.
pub(crate) fn push_padded(text: &mut String, width: usize, word: &str) -> Result<(), OutOfMemory>
    ensures { OnOk result (string_bytes text.new ≡ string_bytes text.old ++ padded width word.now) }
{
    text.push_str(word)?;
    push_blanks(text, width.saturating_sub(word.len()))
}

// Appends a number with blanks after it, as wide as this.
pub(crate) fn push_padded_number(
    text: &mut String,
    alloc: Global,
    width: usize,
    number: u64,
) -> Result<(), OutOfMemory>
    ensures { OnOk result (string_bytes text.new ≡ string_bytes text.old ++ padded width (decimal number)) }
{
    let digits = format!(in alloc; "{number}")?;
    push_padded(text, width, &digits)
}
