// Parts of the page.
ghost use Rattle.lane_chart.specs.SvgText.{group_at};
ghost use Rattle.std.specs.Prelude.{◌≡◌, ◌++◌, OnOk};

use crate::escape::push_text;
use std::alloc::Global;
use tuple_edge::OutOfMemory;

// Appends the beginning of a part of the page that stands so far right and down of the one around it.
#[tactic(auto, unfolding(crate::specs::SvgText::group_at))]
pub(crate) fn push_group(
    out: &mut Vec<u8>,
    alloc: Global,
    right: u128,
    down: u128,
) -> Result<(), OutOfMemory>
    ensures { OnOk result (out.new.items ≡ out.old.items ++ group_at right down) }
{
    let piece = format!(in alloc; "<g transform='translate({right} {down})'>")?;
    push_text(out, &piece)
}
