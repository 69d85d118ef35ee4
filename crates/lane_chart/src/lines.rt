// The lines of lanes, of the scale and of the number that rises.
ghost use Rattle.lane_chart.specs.ChartView.{lane_shown, mark_shown};
ghost use Rattle.lane_chart.specs.Places.{placed};
ghost use Rattle.lane_chart.specs.Text.{lane_line, last_of, letter_at, ninths, scale_lines, steps_line, tick_number, tick_stroke};
ghost use Rattle.std.specs.List.{flat_map};
ghost use Rattle.std.specs.Prelude.{◌≡◌, ◌++◌, OnOk, map, string_bytes};

use crate::chart::{Cell, Lane, Mark, Tick};
use crate::glyphs::letter_at;
use crate::pieces::{push_blanks, push_padded, push_padded_number};
use crate::places::scaled;
use std::alloc::Global;
use tuple_edge::OutOfMemory;

// How wide the names are.
const NAME_WIDTH: usize = 8;

// Appends the letters of the cells of a lane.
fn push_letters(text: &mut String, marks: &[Mark], cells: &[Cell]) -> Result<(), OutOfMemory>
    ensures { OnOk result (string_bytes text.new ≡ string_bytes text.old ++ placed (letter_at (map mark_shown marks.now)) 0 cells.now) }
{
    for (column, cell) in cells.iter().enumerate() {
        text.push_str(letter_at(marks, column, *cell))?;
    }
    Ok(())
}

// Appends the line of a lane.
fn push_lane(text: &mut String, lane: &Lane) -> Result<(), OutOfMemory>
    ensures { OnOk result (string_bytes text.new ≡ string_bytes text.old ++ lane_line (lane_shown lane.now)) }
{
    push_padded(text, NAME_WIDTH, &lane.name)?;
    push_letters(text, &lane.marks, &lane.cells)?;
    text.push_str("\n")?;
    Ok(())
}

// Appends the lines of lanes.
pub(crate) fn push_lanes(text: &mut String, lanes: &[Lane]) -> Result<(), OutOfMemory>
    ensures { OnOk result (string_bytes text.new ≡ string_bytes text.old ++ flat_map lane_line (map lane_shown lanes.now)) }
{
    for lane in lanes {
        push_lane(text, lane)?;
    }
    Ok(())
}

// Appends the numbers of a scale.
fn push_tick_numbers(text: &mut String, alloc: Global, ticks: &[Tick]) -> Result<(), OutOfMemory>
    ensures { OnOk result (string_bytes text.new ≡ string_bytes text.old ++ flat_map tick_number ticks.now) }
{
    for tick in ticks {
        push_padded_number(text, alloc, tick.span, tick.number)?;
    }
    Ok(())
}

// Appends the strokes of a scale.
fn push_tick_strokes(text: &mut String, ticks: &[Tick]) -> Result<(), OutOfMemory>
    ensures { OnOk result (string_bytes text.new ≡ string_bytes text.old ++ flat_map tick_stroke ticks.now) }
{
    for tick in ticks {
        push_padded(text, tick.span, "|")?;
    }
    Ok(())
}

// Appends the two lines of a scale.
pub(crate) fn push_scale(
    text: &mut String,
    alloc: Global,
    ticks: &[Tick],
) -> Result<(), OutOfMemory>
    ensures { OnOk result (string_bytes text.new ≡ string_bytes text.old ++ scale_lines ticks.now) }
{
    push_blanks(text, NAME_WIDTH)?;
    push_tick_numbers(text, alloc, ticks)?;
    text.push_str("\n")?;
    push_blanks(text, NAME_WIDTH)?;
    push_tick_strokes(text, ticks)?;
    text.push_str("\n")?;
    Ok(())
}

// Appends each number in ninths of all.
fn push_ninths(text: &mut String, all: u64, steps: &[u64]) -> Result<(), OutOfMemory>
    ensures { OnOk result (string_bytes text.new ≡ string_bytes text.old ++ flat_map (ninths all) steps.now) }
{
    for step in steps {
        let ninths = scaled(9, all, *step);
        write!(text, "{ninths}")?;
    }
    Ok(())
}

// The last of some numbers, and 0 where there are none.
pub(crate) fn last_of(numbers: &[u64]) -> u64
    ensures { result ≡ last_of numbers.now }
{
    match numbers.last() {
        Some(number) => *number,
        None => 0,
    }
}

// Appends the line of the number that rises.
pub(crate) fn push_steps(text: &mut String, counted: &str, steps: &[u64]) -> Result<(), OutOfMemory>
    ensures { OnOk result (string_bytes text.new ≡ string_bytes text.old ++ steps_line counted.now steps.now) }
{
    let all = last_of(steps);
    push_padded(text, NAME_WIDTH, counted)?;
    push_ninths(text, all, steps)?;
    write!(text, "  of {all}\n")?;
    Ok(())
}
