// The bars of a lane.
ghost use Rattle.lane_chart.specs.Runs.{runs};
ghost use Rattle.lane_chart.specs.SvgText.{across, bar, shape};
ghost use Rattle.lane_chart.specs.declared.layout.Layout.TheVariants as layout;
ghost use Rattle.std.specs.List.{flat_map};
ghost use Rattle.std.specs.Prelude.{◌≡◌, ◌≤◌, ◌++◌, OnOk};

use crate::chart::Cell;
use crate::escape::push_text;
use crate::layout::Layout;
use crate::places::scaled;
use crate::runs::{Run, runs};
use std::alloc::Global;
use tuple_edge::OutOfMemory;

// How wide all columns are.
const WIDTH: u32 = 960;

// Where a column begins, of so many.
pub(crate) fn across(columns: usize, column: usize) -> u32
    ensures value { result ≡ across columns column }
    ensures within { result ≤ 960 }
{
    scaled(WIDTH, columns as u64, column as u64)
}

// The shape of a kind of cell where lanes have room.
fn shape_roomy(cell: Cell) -> &'static str
    ensures { result.now ≡ shape layout.Roomy cell }
{
    match cell {
        Cell::Strong => "class='strong' y='16' height='14'",
        Cell::Plain => "class='plain' y='19' height='8'",
        Cell::Weak => "class='weak' y='16' height='14'",
        Cell::Absent => "class='absent' y='22' height='2'",
        Cell::Active => "class='active' y='18' height='10'",
        Cell::Idle => "class='idle' y='22' height='2'",
    }
}

// The same where they stand close.
fn shape_close(cell: Cell) -> &'static str
    ensures { result.now ≡ shape layout.Close cell }
{
    match cell {
        Cell::Strong => "class='strong' y='1' height='8'",
        Cell::Plain => "class='plain' y='3' height='4'",
        Cell::Weak => "class='weak' y='1' height='8'",
        Cell::Absent => "class='absent' y='4' height='2'",
        Cell::Active => "class='active' y='2' height='6'",
        Cell::Idle => "class='idle' y='4' height='2'",
    }
}

// The shape of a kind of cell: its colour's name and its height.
pub(crate) fn shape(layout: Layout, cell: Cell) -> &'static str
    ensures { result.now ≡ shape layout cell }
{
    match layout {
        Layout::Roomy => shape_roomy(cell),
        Layout::Close => shape_close(cell),
    }
}

// Appends the bar of a run of cells.
#[tactic(auto, unfolding(crate::specs::SvgText::bar))]
fn push_bar(
    out: &mut Vec<u8>,
    alloc: Global,
    layout: Layout,
    columns: usize,
    run: &Run,
) -> Result<(), OutOfMemory>
    ensures { OnOk result (out.new.items ≡ out.old.items ++ bar layout columns run.now) }
{
    let shape = shape(layout, run.cell);
    let start = across(columns, run.start);
    let width = across(columns, run.end).saturating_sub(start);
    let piece = format!(in alloc; "<rect {shape} x='{start}' width='{width}'/>\n")?;
    push_text(out, &piece)
}

// Appends the bars of a lane.
pub(crate) fn push_bars(
    out: &mut Vec<u8>,
    alloc: Global,
    layout: Layout,
    columns: usize,
    cells: &[Cell],
) -> Result<(), OutOfMemory>
    ensures { OnOk result (out.new.items ≡ out.old.items ++ flat_map (bar layout columns) (runs cells.now)) }
{
    let found = runs(alloc, cells)?;
    for run in &found {
        push_bar(out, alloc, layout, columns, run)?;
    }
    Ok(())
}
