// Pieces of a text.
ghost use Rattle.std.specs.Fmt.{decimal};
ghost use Rattle.std.specs.Prelude.{◌≡◌, ◌++◌, OnOk};

use std::alloc::Global;
use trade_text::push_text;
use tuple_edge::OutOfMemory;

// Appends a number between two texts.
pub(crate) fn push_count(
    alloc: Global,
    text: &mut Vec<u8>,
    before: &str,
    count: u64,
    behind: &str,
) -> Result<(), OutOfMemory>
    ensures { OnOk result (text.new.items ≡ text.old.items ++ (before.now ++ decimal count ++ behind.now)) }
{
    let said = format!(in alloc; "{before}{count}{behind}")?;
    push_text(text, said.as_str())
}
