// The chart of a run.
ghost use Rattle.lane_chart.specs.ChartView.{chart_shown};
ghost use Rattle.run_timeline.specs.Timeline.{timeline, title_at, title_of};
ghost use Rattle.std.specs.Prelude.{◌≡◌, IfOk, string_bytes};

use crate::cells::rows_of;
use crate::keys::{cell_keys, letter_keys};
use crate::lanes::lanes_of;
use crate::ticks::ticks_of;
use lane_chart::Chart;
use plan_reader::Plan;
use run_end::{RunEnd, push_run_end};
use run_watch::{Frame, WatchedRun};
use std::alloc::Global;
use tuple_edge::OutOfMemory;

// The title: how many events there are, how far they lead, and how the run stands then.
fn title_at(
    alloc: Global,
    place: u64,
    made: u64,
    emitted: u64,
    end: RunEnd,
    all: u64,
) -> Result<String, OutOfMemory>
    ensures { IfOk result (λ title. string_bytes title ≡ title_at place made emitted end all) }
{
    let mut title = String::new(alloc);
    write!(title, "{place} events, {made} makes, {emitted} rows, ")?;
    push_run_end(&mut title, end, emitted, all)?;
    Ok(title)
}

// The title of frames: that of the last one.
fn title_of(alloc: Global, frames: &[Frame], end: RunEnd, all: u64) -> Result<String, OutOfMemory>
    ensures { IfOk result (λ title. string_bytes title ≡ title_of frames.now end all) }
{
    match frames.last() {
        Some(frame) => title_at(
            alloc,
            frame.place(),
            frame.made(),
            frame.emitted(),
            end,
            all,
        ),
        None => title_at(alloc, 0, 0, 0, end, all),
    }
}

/// The chart of what happened in a run of this plan, and of its frames: a lane for ingress, for each replica in node
/// order, and for egress. A replica's cell is its mode at the column's end; that of ingress or egress says whether it
/// made or emitted anything in the column. Each happening that is told has a mark, in the lane of its node and in the
/// column of its place, and one of a pair in the lanes of both its replicas. A mark's rank is the place of its letter in
/// the key: a lost pair is the heaviest, then a failure, then a named leader. Under the lanes stand the rows that egress
/// had emitted at each column's end. The title says how the run stands, where the plan gives so many rows in all. Of the
/// replicas those alone are drawn, where that is asked, in whose lanes something happened.
#[tactic(auto, unfolding(crate::specs::Timeline::timeline))]
pub fn chart_of(
    alloc: Global,
    plan: &Plan,
    watched: &WatchedRun,
    end: RunEnd,
    all: u64,
    only: bool,
) -> Result<Chart, OutOfMemory>
    ensures { IfOk result (λ chart. chart_shown chart ≡ timeline only plan.now watched.now.frames.items watched.now.told.items end all) }
{
    let frames = watched.frames.as_slice();
    let title = title_of(alloc, frames, end, all)?;
    let ticks = ticks_of(alloc, frames)?;
    let lanes = lanes_of(alloc, plan, frames, &watched.told, only)?;
    let steps = rows_of(alloc, frames)?;
    let cells = cell_keys(alloc)?;
    let letters = letter_keys(alloc)?;
    Ok(Chart {
        title,
        ticks,
        lanes,
        counted: "rows",
        steps,
        cells,
        letters,
    })
}
