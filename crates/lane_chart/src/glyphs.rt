// The letters of cells.
ghost use Rattle.lane_chart.specs.ChartView.{mark_shown};
ghost use Rattle.lane_chart.specs.Heaviest.{heaviest, in_column};
ghost use Rattle.lane_chart.specs.Text.{glyph, letter_at};
ghost use Rattle.std.specs.Prelude.{◌≡◌, map};

use crate::chart::{Cell, Mark};
use crate::heaviest::heavier;

/// The letter of a kind of cell.
pub fn glyph(cell: Cell) -> &'static str
    ensures { result.now ≡ glyph cell }
{
    match cell {
        Cell::Strong => "#",
        Cell::Plain => "=",
        Cell::Weak => "~",
        Cell::Absent => ".",
        Cell::Active => "+",
        Cell::Idle => "-",
    }
}

// The heaviest of a mark and those of a column that come behind it.
fn heaviest_from<'a>(first: &'a Mark, marks: &'a [Mark], column: usize) -> &'a Mark
    ensures { mark_shown result.now ≡ heaviest (mark_shown first.now) (in_column column (map mark_shown marks.now)) }
{
    let mut held = first;
    for mark in marks {
        if mark.column == column {
            held = heavier(held, mark);
        }
    }
    held
}

// The letter of a column: that of its heaviest mark, and where it has none that of its cell.
pub(crate) fn letter_at(marks: &[Mark], column: usize, cell: Cell) -> &'static str
    ensures { result.now ≡ letter_at (map mark_shown marks.now) column cell }
{
    for (place, mark) in marks.iter().enumerate() {
        if mark.column == column {
            return heaviest_from(mark, &marks[place + 1..], column).letter;
        }
    }
    glyph(cell)
}
