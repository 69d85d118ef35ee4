// A chart as JSON.
ghost use Rattle.lane_chart.specs.ChartView.{chart_shown, lane_shown, mark_shown};
ghost use Rattle.lane_chart.specs.Places.{placed};
ghost use Rattle.lane_chart.specs.Text.{glyph};
ghost use Rattle.look_json.specs.ChartJson.{chart_json, lane_data, lane_lines, mark_data, mark_line, step_data, step_line, title_data};
ghost use Rattle.look_json.specs.Lines.{line_of};
ghost use Rattle.serde_json.specs.View.{view};
ghost use Rattle.std.specs.List.{flat_map};
ghost use Rattle.std.specs.Prelude.{◌≡◌, ◌++◌, IfOk, OnOk, map, string_bytes};

use crate::line::push_line;
use lane_chart::{Cell, Chart, Lane, Mark, glyph};
use serde_json::{Value, json};
use std::alloc::Global;
use tuple_edge::OutOfMemory;

// A title, as a value.
fn title_value(alloc: Global, title: &str) -> Result<Value, OutOfMemory>
    ensures { IfOk result (λ value. view value ≡ title_data title.now) }
{
    let value = json!(in alloc; {"title": title})?;
    Ok(value)
}

// The cells of a lane, by the letters of the text.
fn glyphs(alloc: Global, cells: &[Cell]) -> Result<String, OutOfMemory>
    ensures { IfOk result (λ text. string_bytes text ≡ flat_map glyph cells.now) }
{
    let mut text = String::new(alloc);
    for cell in cells {
        text.push_str(glyph(*cell))?;
    }
    Ok(text)
}

// A lane, as a value.
fn lane_value(alloc: Global, lane: &Lane) -> Result<Value, OutOfMemory>
    ensures { IfOk result (λ value. view value ≡ lane_data (lane_shown lane.now)) }
{
    let cells = glyphs(alloc, &lane.cells)?;
    let value = json!(in alloc; {"cells": cells, "lane": &lane.name})?;
    Ok(value)
}

// A mark in the lane of this name, as a value.
fn mark_value(alloc: Global, lane: &str, mark: &Mark) -> Result<Value, OutOfMemory>
    ensures { IfOk result (λ value. view value ≡ mark_data lane.now (mark_shown mark.now)) }
{
    let value = json!(in alloc; {
        "column": mark.column,
        "lane": lane,
        "letter": mark.letter,
        "title": &mark.title
    })?;
    Ok(value)
}

// Appends the line of a mark.
fn push_mark(text: &mut Vec<u8>, alloc: Global, lane: &str, mark: &Mark) -> Result<(), OutOfMemory>
    ensures { OnOk result (text.new.items ≡ text.old.items ++ mark_line lane.now (mark_shown mark.now)) }
{
    let value = mark_value(alloc, lane, mark)?;
    push_line(text, alloc, &value)
}

// Appends the lines of marks.
fn push_marks(
    text: &mut Vec<u8>,
    alloc: Global,
    lane: &str,
    marks: &[Mark],
) -> Result<(), OutOfMemory>
    ensures { OnOk result (text.new.items ≡ text.old.items ++ flat_map (mark_line lane.now) (map mark_shown marks.now)) }
{
    for mark in marks {
        push_mark(text, alloc, lane, mark)?;
    }
    Ok(())
}

// Appends the line of a title.
fn push_title(text: &mut Vec<u8>, alloc: Global, title: &str) -> Result<(), OutOfMemory>
    ensures { OnOk result (text.new.items ≡ text.old.items ++ line_of (title_data title.now)) }
{
    let value = title_value(alloc, title)?;
    push_line(text, alloc, &value)
}

// Appends the line of a lane without its marks.
fn push_cells(text: &mut Vec<u8>, alloc: Global, lane: &Lane) -> Result<(), OutOfMemory>
    ensures { OnOk result (text.new.items ≡ text.old.items ++ line_of (lane_data (lane_shown lane.now))) }
{
    let value = lane_value(alloc, lane)?;
    push_line(text, alloc, &value)
}

// Appends the lines of a lane.
fn push_lane(text: &mut Vec<u8>, alloc: Global, lane: &Lane) -> Result<(), OutOfMemory>
    ensures { OnOk result (text.new.items ≡ text.old.items ++ lane_lines (lane_shown lane.now)) }
{
    push_cells(text, alloc, lane)?;
    push_marks(text, alloc, &lane.name, &lane.marks)
}

// Appends the lines of lanes.
fn push_lanes(text: &mut Vec<u8>, alloc: Global, lanes: &[Lane]) -> Result<(), OutOfMemory>
    ensures { OnOk result (text.new.items ≡ text.old.items ++ flat_map lane_lines (map lane_shown lanes.now)) }
{
    for lane in lanes {
        push_lane(text, alloc, lane)?;
    }
    Ok(())
}

// The number at a column's end, as a value.
fn step_value(
    alloc: Global,
    counted: &str,
    column: usize,
    number: u64,
) -> Result<Value, OutOfMemory>
    ensures { IfOk result (λ value. view value ≡ step_data counted.now column number) }
{
    let value = json!(in alloc; {"column": column, "counted": counted, "number": number})?;
    Ok(value)
}

// Appends the line of the number at a column's end.
fn push_step(
    text: &mut Vec<u8>,
    alloc: Global,
    counted: &str,
    column: usize,
    number: u64,
) -> Result<(), OutOfMemory>
    ensures { OnOk result (text.new.items ≡ text.old.items ++ step_line counted.now column number) }
{
    let value = step_value(alloc, counted, column, number)?;
    push_line(text, alloc, &value)
}

// Appends the lines of the numbers at the columns' ends.
fn push_steps(
    text: &mut Vec<u8>,
    alloc: Global,
    counted: &str,
    steps: &[u64],
) -> Result<(), OutOfMemory>
    ensures { OnOk result (text.new.items ≡ text.old.items ++ placed (step_line counted.now) 0 steps.now) }
{
    for (column, number) in steps.iter().enumerate() {
        push_step(text, alloc, counted, column, *number)?;
    }
    Ok(())
}

/// The lines of a chart: its title, each lane with its cells, its marks behind it, and the number at each column's end.
pub fn write_chart_json(alloc: Global, chart: &Chart) -> Result<Vec<u8>, OutOfMemory>
    ensures { IfOk result (λ text. text.items ≡ chart_json (chart_shown chart.now)) }
{
    let mut text = Vec::new(alloc);
    push_title(&mut text, alloc, &chart.title)?;
    push_lanes(&mut text, alloc, &chart.lanes)?;
    push_steps(&mut text, alloc, chart.counted, &chart.steps)?;
    Ok(text)
}
