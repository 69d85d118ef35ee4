// A chart as SVG.
ghost use Rattle.lane_chart.specs.ChartView.{cell_key_shown, chart_shown, letter_key_shown};
ghost use Rattle.lane_chart.specs.SvgText.{chart_svg, lanes_end, layout_in, page_head, page_key, page_sheet, page_size, page_steps, page_title};
ghost use Rattle.std.specs.Prelude.{◌≡◌, ◌<◌, ◌^◌, ◌++◌, IfOk, OnOk, map};

use crate::chart::{CellKey, Chart, LetterKey};
use crate::escape::{push_escaped, push_text};
use crate::groups::push_group;
use crate::lanes::{push_lanes_drawn, push_steps_drawn, push_ticks};
use crate::layout::{Layout, lane_pitch, layout_of};
use crate::meanings::{push_cells, push_letters_drawn};
use crate::style::style;
use std::alloc::Global;
use tuple_edge::OutOfMemory;

// How much room the lanes of a chart have.
fn layout_in(chart: &Chart) -> Layout
    ensures { result ≡ layout_in (chart_shown chart.now) }
{
    layout_of(chart.lanes.len())
}

// How far down the lanes of a chart go.
fn lanes_end(chart: &Chart) -> u128
    ensures value { result ≡ lanes_end (chart_shown chart.now) }
    ensures small { result < 2 ^ 80 }
{
    64 + chart.lanes.len() as u128 * lane_pitch(layout_in(chart))
}

// Appends how large the page is.
#[tactic(auto, unfolding(crate::specs::SvgText::page_size))]
fn push_size(out: &mut Vec<u8>, alloc: Global, height: u128) -> Result<(), OutOfMemory>
    ensures { OnOk result (out.new.items ≡ out.old.items ++ page_size height) }
{
    let piece = format!(in alloc;
        "<svg xmlns='http://www.w3.org/2000/svg' viewBox='0 0 1160 {height}'>\n"
    )?;
    push_text(out, &piece)
}

// Appends the sheet on which all else is drawn.
#[tactic(auto, unfolding(crate::specs::SvgText::page_sheet))]
fn push_sheet(out: &mut Vec<u8>, alloc: Global, height: u128) -> Result<(), OutOfMemory>
    ensures { OnOk result (out.new.items ≡ out.old.items ++ page_sheet height) }
{
    let piece = format!(in alloc; "<rect class='page' width='1160' height='{height}'/>")?;
    push_text(out, &piece)
}

// Appends the title of the page.
#[tactic(auto, unfolding(crate::specs::SvgText::page_title))]
fn push_title(out: &mut Vec<u8>, title: &str) -> Result<(), OutOfMemory>
    ensures { OnOk result (out.new.items ≡ out.old.items ++ page_title title.now) }
{
    push_text(out, "<text class='title' x='72' y='26'>")?;
    push_escaped(out, title)?;
    push_text(out, "</text>\n")
}

// Appends the head of the page.
#[tactic(auto, unfolding(crate::specs::SvgText::page_head))]
fn push_head(out: &mut Vec<u8>, alloc: Global, height: u128, title: &str) -> Result<(), OutOfMemory>
    ensures { OnOk result (out.new.items ≡ out.old.items ++ page_head height title.now) }
{
    push_size(out, alloc, height)?;
    push_text(out, style())?;
    push_sheet(out, alloc, height)?;
    push_title(out, title)
}

// Appends the number that rises, under lanes that end here.
#[tactic(auto, unfolding(crate::specs::SvgText::page_steps))]
fn push_steps_part(
    out: &mut Vec<u8>,
    alloc: Global,
    end: u128,
    counted: &str,
    steps: &[u64],
) -> Result<(), OutOfMemory>
    requires { end < 2 ^ 80 }
    ensures { OnOk result (out.new.items ≡ out.old.items ++ page_steps end counted.now steps.now) }
{
    push_group(out, alloc, 72, end + 14)?;
    push_steps_drawn(out, alloc, counted, steps)?;
    push_text(out, "</g>\n")
}

// Appends the key, under lanes that end here, and the end of the page.
#[tactic(auto, unfolding(crate::specs::SvgText::page_key))]
fn push_key_part(
    out: &mut Vec<u8>,
    alloc: Global,
    end: u128,
    cells: &[CellKey],
    letters: &[LetterKey],
) -> Result<(), OutOfMemory>
    requires { end < 2 ^ 80 }
    ensures { OnOk result (out.new.items ≡ out.old.items ++ page_key end (map cell_key_shown cells.now) (map letter_key_shown letters.now)) }
{
    push_group(out, alloc, 72, end + 84)?;
    push_cells(out, alloc, cells)?;
    push_letters_drawn(out, alloc, letters)?;
    push_text(out, "</g>\n</svg>\n")
}

// Appends the page of a chart.
#[tactic(auto, unfolding(crate::specs::SvgText::chart_svg))]
fn push_page(out: &mut Vec<u8>, alloc: Global, chart: &Chart) -> Result<(), OutOfMemory>
    ensures { OnOk result (out.new.items ≡ out.old.items ++ chart_svg (chart_shown chart.now)) }
{
    let end = lanes_end(chart);
    let columns = chart.steps.len();
    push_head(out, alloc, end + 173, &chart.title)?;
    push_ticks(out, alloc, columns, end + 80, &chart.ticks)?;
    push_lanes_drawn(out, alloc, layout_in(chart), columns, &chart.lanes)?;
    push_steps_part(out, alloc, end, chart.counted, &chart.steps)?;
    push_key_part(out, alloc, end, &chart.cells, &chart.letters)
}

/// The SVG of a chart, for up to 960 columns: its title, its scale, for each lane a bar whose colours and heights tell
/// its cells apart, with its marks, each with its title, and the heaviest on top where they share a place; under them the number that rises as a line of steps, and the
/// key. It has a light and a dark scheme, no script, and fetches nothing.
pub fn write_svg(alloc: Global, chart: &Chart) -> Result<Vec<u8>, OutOfMemory>
    ensures { IfOk result (λ text. text.items ≡ chart_svg (chart_shown chart.now)) }
{
    let mut out = Vec::new(alloc);
    push_page(&mut out, alloc, chart)?;
    Ok(out)
}
