// What cells and letters mean, as text.
ghost use Rattle.lane_chart.specs.ChartView.{cell_key_shown, letter_key_shown};
ghost use Rattle.lane_chart.specs.Places.{placed};
ghost use Rattle.lane_chart.specs.Text.{cell_meaning, key_gap, letter_meaning, meaning};
ghost use Rattle.std.specs.Prelude.{◌≡◌, ◌++◌, OnOk, map, string_bytes};

use crate::chart::{CellKey, LetterKey};
use crate::glyphs::glyph;
use tuple_edge::OutOfMemory;

// How many entries of the key stand in a line.
const KEY_ROW: usize = 6;

// What stands before an entry of the key: a new line, or some blanks.
fn key_gap(place: usize) -> &'static str
    ensures { result.now ≡ key_gap place }
{
    if place % KEY_ROW == 0 {
        "\n        "
    } else {
        "   "
    }
}

// Appends what kinds of cells mean.
pub(crate) fn push_cell_meanings(text: &mut String, cells: &[CellKey]) -> Result<(), OutOfMemory>
    ensures { OnOk result (string_bytes text.new ≡ string_bytes text.old ++ placed cell_meaning 0 (map cell_key_shown cells.now)) }
{
    for (place, key) in cells.iter().enumerate() {
        push_meaning(text, place, glyph(key.cell), key.name)?;
    }
    Ok(())
}

// Appends what letters mean.
pub(crate) fn push_letter_meanings(
    text: &mut String,
    letters: &[LetterKey],
) -> Result<(), OutOfMemory>
    ensures { OnOk result (string_bytes text.new ≡ string_bytes text.old ++ placed letter_meaning 0 (map letter_key_shown letters.now)) }
{
    for (place, key) in letters.iter().enumerate() {
        push_meaning(text, place, key.letter, key.name)?;
    }
    Ok(())
}

// Appends what a letter means, by its place in the key.
fn push_meaning(
    text: &mut String,
    place: usize,
    letter: &str,
    name: &str,
) -> Result<(), OutOfMemory>
    ensures { OnOk result (string_bytes text.new ≡ string_bytes text.old ++ meaning place letter.now name.now) }
{
    text.push_str(key_gap(place))?;
    write!(text, "{letter} {name}")?;
    Ok(())
}
