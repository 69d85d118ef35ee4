// The lanes, the scale and the number that rises, as SVG.
ghost use Rattle.lane_chart.specs.ChartView.{lane_shown};
ghost use Rattle.lane_chart.specs.Places.{placed};
ghost use Rattle.lane_chart.specs.SvgText.{grid_drawn, lane_drawn, lane_place, name_place, number_drawn, step_drawn, steps_drawn, steps_end, steps_name, tick_drawn};
ghost use Rattle.lane_chart.specs.Text.{last_of};
ghost use Rattle.std.specs.List.{flat_map};
ghost use Rattle.std.specs.Prelude.{◌≡◌, ◌++◌, OnOk, length, map, ◌<◌};

use crate::badges::push_badges;
use crate::bars::{across, push_bars};
use crate::chart::{Lane, Tick};
use crate::escape::{push_escaped, push_text};
use crate::groups::push_group;
use crate::layout::{Layout, lane_pitch};
use crate::lines::last_of;
use crate::places::scaled;
use std::alloc::Global;
use tuple_edge::OutOfMemory;

// Where the name of a lane stands.
fn name_place(layout: Layout) -> &'static str
    ensures { result.now ≡ name_place layout }
{
    match layout {
        Layout::Roomy => "<text class='name' x='-10' y='27'>",
        Layout::Close => "<text class='name close' x='-10' y='8'>",
    }
}

// Appends the place of a lane.
#[tactic(auto, unfolding(crate::specs::SvgText::lane_place))]
fn push_lane_place(
    out: &mut Vec<u8>,
    alloc: Global,
    layout: Layout,
    place: usize,
) -> Result<(), OutOfMemory>
    ensures { OnOk result (out.new.items ≡ out.old.items ++ lane_place layout place) }
{
    let down = 64 + place as u128 * lane_pitch(layout);
    push_group(out, alloc, 72, down)?;
    push_text(out, name_place(layout))
}

// Appends a lane, by its place among the lanes.
#[tactic(auto, unfolding(crate::specs::SvgText::lane_drawn))]
fn push_lane(
    out: &mut Vec<u8>,
    alloc: Global,
    layout: Layout,
    columns: usize,
    place: usize,
    lane: &Lane,
) -> Result<(), OutOfMemory>
    ensures { OnOk result (out.new.items ≡ out.old.items ++ lane_drawn layout columns place (lane_shown lane.now)) }
{
    push_lane_place(out, alloc, layout, place)?;
    push_escaped(out, &lane.name)?;
    push_text(out, "</text>\n")?;
    push_bars(out, alloc, layout, columns, &lane.cells)?;
    push_badges(out, alloc, layout, columns, &lane.marks)?;
    push_text(out, "</g>\n")?;
    Ok(())
}

// Appends lanes.
pub(crate) fn push_lanes_drawn(
    out: &mut Vec<u8>,
    alloc: Global,
    layout: Layout,
    columns: usize,
    lanes: &[Lane],
) -> Result<(), OutOfMemory>
    ensures { OnOk result (out.new.items ≡ out.old.items ++ placed (lane_drawn layout columns) 0 (map lane_shown lanes.now)) }
{
    for (place, lane) in lanes.iter().enumerate() {
        push_lane(out, alloc, layout, columns, place, lane)?;
    }
    Ok(())
}

// Appends a stroke through all lanes.
#[tactic(auto, unfolding(crate::specs::SvgText::grid_drawn))]
fn push_grid(out: &mut Vec<u8>, alloc: Global, at: u128, bottom: u128) -> Result<(), OutOfMemory>
    ensures { OnOk result (out.new.items ≡ out.old.items ++ grid_drawn at bottom) }
{
    let piece = format!(in alloc; "<path class='grid' d='M{at} 62V{bottom}'/>")?;
    push_text(out, &piece)
}

// Appends a number of the scale.
#[tactic(auto, unfolding(crate::specs::SvgText::number_drawn))]
fn push_number(out: &mut Vec<u8>, alloc: Global, at: u64, number: u64) -> Result<(), OutOfMemory>
    ensures { OnOk result (out.new.items ≡ out.old.items ++ number_drawn at number) }
{
    let piece = format!(in alloc; "<text class='tick' x='{at}' y='54'>{number}</text>\n")?;
    push_text(out, &piece)
}

// Appends a place of the scale.
#[tactic(auto, unfolding(crate::specs::SvgText::tick_drawn))]
fn push_tick(
    out: &mut Vec<u8>,
    alloc: Global,
    columns: usize,
    bottom: u128,
    tick: &Tick,
) -> Result<(), OutOfMemory>
    ensures { OnOk result (out.new.items ≡ out.old.items ++ tick_drawn columns bottom tick.now) }
{
    let at = 72 + u64::from(across(columns, tick.column));
    push_grid(out, alloc, u128::from(at), bottom)?;
    push_number(out, alloc, at, tick.number)
}

// Appends a scale.
pub(crate) fn push_ticks(
    out: &mut Vec<u8>,
    alloc: Global,
    columns: usize,
    bottom: u128,
    ticks: &[Tick],
) -> Result<(), OutOfMemory>
    ensures { OnOk result (out.new.items ≡ out.old.items ++ flat_map (tick_drawn columns bottom) ticks.now) }
{
    for tick in ticks {
        push_tick(out, alloc, columns, bottom, tick)?;
    }
    Ok(())
}

// Appends one step: up to the number at a column's end, and across that column.
fn push_step(
    out: &mut Vec<u8>,
    alloc: Global,
    columns: usize,
    all: u64,
    column: usize,
    number: u64,
) -> Result<(), OutOfMemory>
    requires { column < columns }
    ensures { OnOk result (out.new.items ≡ out.old.items ++ step_drawn columns all column number) }
{
    let up = 60 - scaled(60, all, number);
    let end = across(columns, column + 1);
    let piece = format!(in alloc; "V{up}H{end}")?;
    push_text(out, &piece)
}

// Appends all steps up to a number.
fn push_steps_to(
    out: &mut Vec<u8>,
    alloc: Global,
    all: u64,
    steps: &[u64],
) -> Result<(), OutOfMemory>
    ensures { OnOk result (out.new.items ≡ out.old.items ++ placed (step_drawn (length steps.now) all) 0 steps.now) }
{
    for (column, number) in steps.iter().enumerate() {
        push_step(out, alloc, steps.len(), all, column, *number)?;
    }
    Ok(())
}

// Appends what the steps come to.
#[tactic(auto, unfolding(crate::specs::SvgText::steps_end))]
fn push_steps_end(out: &mut Vec<u8>, alloc: Global, all: u64) -> Result<(), OutOfMemory>
    ensures { OnOk result (out.new.items ≡ out.old.items ++ steps_end all) }
{
    let piece = format!(in alloc; "'/><text class='word' x='966' y='12'>{all}</text>\n")?;
    push_text(out, &piece)
}

// Appends what the steps count.
#[tactic(auto, unfolding(crate::specs::SvgText::steps_name))]
fn push_steps_name(out: &mut Vec<u8>, counted: &str) -> Result<(), OutOfMemory>
    ensures { OnOk result (out.new.items ≡ out.old.items ++ steps_name counted.now) }
{
    push_text(out, "<text class='name' x='-10' y='60'>")?;
    push_escaped(out, counted)?;
    push_text(out, "</text><path class='step' d='M0 60")
}

// Appends the number that rises, as a line of steps.
#[tactic(auto, unfolding(crate::specs::SvgText::steps_drawn))]
pub(crate) fn push_steps_drawn(
    out: &mut Vec<u8>,
    alloc: Global,
    counted: &str,
    steps: &[u64],
) -> Result<(), OutOfMemory>
    ensures { OnOk result (out.new.items ≡ out.old.items ++ steps_drawn counted.now steps.now) }
{
    let all = last_of(steps);
    push_steps_name(out, counted)?;
    push_steps_to(out, alloc, all, steps)?;
    push_steps_end(out, alloc, all)
}
