// A chart as text.
ghost use Rattle.lane_chart.specs.ChartView.{chart_shown};
ghost use Rattle.lane_chart.specs.Text.{chart_text, drawing, key};
ghost use Rattle.std.specs.Prelude.{◌≡◌, ◌++◌, IfOk, OnOk, string_bytes};

use crate::chart::Chart;
use crate::keys::{push_cell_meanings, push_letter_meanings};
use crate::lines::{push_lanes, push_scale, push_steps};
use std::alloc::Global;
use tuple_edge::OutOfMemory;

// Which of several marks of a column is shown: the key has the heaviest kind first.
const KEY_RULE: &str = "\n        of several in a column the first of these is shown\n";

// Appends the lines above the key.
fn push_drawing(text: &mut String, alloc: Global, chart: &Chart) -> Result<(), OutOfMemory>
    ensures { OnOk result (string_bytes text.new ≡ string_bytes text.old ++ drawing (chart_shown chart.now)) }
{
    text.push_str(&chart.title)?;
    text.push_str("\n\n")?;
    push_scale(text, alloc, &chart.ticks)?;
    push_lanes(text, &chart.lanes)?;
    push_steps(text, chart.counted, &chart.steps)
}

// Appends the key.
fn push_key(text: &mut String, chart: &Chart) -> Result<(), OutOfMemory>
    ensures { OnOk result (string_bytes text.new ≡ string_bytes text.old ++ key (chart_shown chart.now)) }
{
    push_cell_meanings(text, &chart.cells)?;
    push_letter_meanings(text, &chart.letters)?;
    text.push_str(KEY_RULE)?;
    Ok(())
}

// Appends all lines of a chart.
#[tactic(auto, unfolding(crate::specs::Text::chart_text))]
fn push_chart(text: &mut String, alloc: Global, chart: &Chart) -> Result<(), OutOfMemory>
    ensures { OnOk result (string_bytes text.new ≡ string_bytes text.old ++ chart_text (chart_shown chart.now)) }
{
    push_drawing(text, alloc, chart)?;
    push_key(text, chart)
}

/// The text of a chart, for up to about 100 columns: its title, its scale, a line for each lane with a letter a column,
/// which is that of its heaviest mark, a line for the number that rises in ninths of what it comes to, and the key of
/// the letters.
pub fn write_text(alloc: Global, chart: &Chart) -> Result<Vec<u8>, OutOfMemory>
    ensures { IfOk result (λ text. text.items ≡ chart_text (chart_shown chart.now)) }
{
    let mut text = String::new(alloc);
    push_chart(&mut text, alloc, chart)?;
    Ok(text.into_bytes())
}
