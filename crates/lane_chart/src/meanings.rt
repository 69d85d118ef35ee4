// What cells and letters mean, as SVG.
ghost use Rattle.lane_chart.specs.ChartView.{cell_key_shown, letter_key_shown};
ghost use Rattle.lane_chart.specs.Places.{placed};
ghost use Rattle.lane_chart.specs.SvgText.{cell_drawn, cell_sample, key_place, key_words, letter_drawn, letter_sample};
ghost use Rattle.std.specs.Prelude.{◌≡◌, ◌++◌, OnOk, map};

use crate::badges::colour;
use crate::bars::shape;
use crate::chart::{Cell, CellKey, LetterKey, Weight};
use crate::escape::{push_escaped, push_text};
use crate::groups::push_group;
use crate::layout::Layout;
use std::alloc::Global;
use tuple_edge::OutOfMemory;

// How far apart the entries of the key are.
const KEY_PITCH: u128 = 124;

// How many stand in a row, and how far apart rows are.
const KEY_ROW: usize = 8;

const KEY_DOWN: u128 = 23;

// Appends the place of an entry of the key.
#[tactic(auto, unfolding(crate::specs::SvgText::key_place))]
fn push_key_place(out: &mut Vec<u8>, alloc: Global, place: usize) -> Result<(), OutOfMemory>
    ensures { OnOk result (out.new.items ≡ out.old.items ++ key_place place) }
{
    let right = (place % KEY_ROW) as u128 * KEY_PITCH;
    let down = (place / KEY_ROW) as u128 * KEY_DOWN;
    push_group(out, alloc, right, down)
}

// Appends the words of an entry of the key, and its end.
#[tactic(auto, unfolding(crate::specs::SvgText::key_words))]
fn push_key_words(out: &mut Vec<u8>, name: &str) -> Result<(), OutOfMemory>
    ensures { OnOk result (out.new.items ≡ out.old.items ++ key_words name.now) }
{
    push_escaped(out, name)?;
    push_text(out, "</text></g>\n")
}

// Appends the sample of a kind of cell.
#[tactic(auto, unfolding(crate::specs::SvgText::cell_sample))]
fn push_cell_sample(out: &mut Vec<u8>, cell: Cell) -> Result<(), OutOfMemory>
    ensures { OnOk result (out.new.items ≡ out.old.items ++ cell_sample cell) }
{
    push_text(out, "<rect ")?;
    push_text(out, shape(Layout::Roomy, cell))?;
    push_text(out, " x='0' width='24'/><text class='word' x='30' y='27'>")
}

// Appends what a kind of cell means.
#[tactic(auto, unfolding(crate::specs::SvgText::cell_drawn))]
fn push_cell(
    out: &mut Vec<u8>,
    alloc: Global,
    place: usize,
    key: &CellKey,
) -> Result<(), OutOfMemory>
    ensures { OnOk result (out.new.items ≡ out.old.items ++ cell_drawn place (cell_key_shown key.now)) }
{
    push_key_place(out, alloc, place)?;
    push_cell_sample(out, key.cell)?;
    push_key_words(out, key.name)
}

// Appends what the kinds of cells mean.
pub(crate) fn push_cells(
    out: &mut Vec<u8>,
    alloc: Global,
    cells: &[CellKey],
) -> Result<(), OutOfMemory>
    ensures { OnOk result (out.new.items ≡ out.old.items ++ placed cell_drawn 0 (map cell_key_shown cells.now)) }
{
    for (place, key) in cells.iter().enumerate() {
        push_cell(out, alloc, place, key)?;
    }
    Ok(())
}

// Appends the sample of a letter.
#[tactic(auto, unfolding(crate::specs::SvgText::letter_sample))]
fn push_letter_sample(out: &mut Vec<u8>, weight: Weight, letter: &str) -> Result<(), OutOfMemory>
    ensures { OnOk result (out.new.items ≡ out.old.items ++ letter_sample weight letter.now) }
{
    push_text(out, "<g class='")?;
    push_text(out, colour(weight))?;
    push_text(out, "'><circle cx='12' cy='46' r='7'/><text x='12' y='50'>")?;
    push_escaped(out, letter)?;
    push_text(out, "</text></g><text class='word' x='30' y='50'>")
}

// Appends what a letter means.
#[tactic(auto, unfolding(crate::specs::SvgText::letter_drawn))]
fn push_letter(
    out: &mut Vec<u8>,
    alloc: Global,
    place: usize,
    key: &LetterKey,
) -> Result<(), OutOfMemory>
    ensures { OnOk result (out.new.items ≡ out.old.items ++ letter_drawn place (letter_key_shown key.now)) }
{
    push_key_place(out, alloc, place)?;
    push_letter_sample(out, key.weight, key.letter)?;
    push_key_words(out, key.name)
}

// Appends what the letters mean.
pub(crate) fn push_letters_drawn(
    out: &mut Vec<u8>,
    alloc: Global,
    letters: &[LetterKey],
) -> Result<(), OutOfMemory>
    ensures { OnOk result (out.new.items ≡ out.old.items ++ placed letter_drawn 0 (map letter_key_shown letters.now)) }
{
    for (place, key) in letters.iter().enumerate() {
        push_letter(out, alloc, place, key)?;
    }
    Ok(())
}
