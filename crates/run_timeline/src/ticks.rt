// The scale of a timeline.
ghost use Rattle.run_timeline.specs.Ticks.{events_before, part_at, parts, tick_at, tick_count, ticks_of};
ghost use Rattle.std.specs.Prelude.{◌≡◌, ◌≤◌, IfOk};

use lane_chart::Tick;
use run_watch::Frame;
use std::alloc::Global;
use tuple_edge::OutOfMemory;

// How many events come before a column begins.
fn events_before(frames: &[Frame], column: usize) -> u64
    ensures { result ≡ events_before frames.now column }
{
    if column == 0 {
        return 0;
    }
    match frames.get(column - 1) {
        Some(frame) => frame.place(),
        None => 0,
    }
}

// Into how many parts of at least five columns a scale is divided, five at most.
fn parts(columns: usize) -> usize
    ensures value { result ≡ parts columns }
    ensures some { 1 ≤ result }
    ensures few { result ≤ 5 }
{
    (columns / 5).min(5).max(1)
}

// The column at which a part of a scale begins; the last one ends with the columns.
fn part_at(columns: usize, part: usize) -> usize
    ensures { result ≡ part_at columns part }
{
    let parts = parts(columns);
    if part < parts {
        part * (columns / parts)
    } else {
        columns
    }
}

// The place of a scale at which a part begins.
#[tactic(auto, unfolding(crate::specs::Ticks::tick_at))]
fn tick_at(frames: &[Frame], part: usize) -> Tick
    requires { part ≤ 5 }
    ensures { result ≡ tick_at frames.now part }
{
    let columns = frames.len();
    let column = part_at(columns, part);
    let end = part_at(columns, part + 1);
    Tick {
        column,
        span: end.saturating_sub(column),
        number: events_before(frames, column),
    }
}

// How many places a scale has.
fn tick_count(columns: usize) -> usize
    ensures value { result ≡ tick_count columns }
    ensures few { result ≤ 6 }
{
    if columns < 2 { 1 } else { parts(columns) + 1 }
}

// The places of a scale.
pub(crate) fn ticks_of(alloc: Global, frames: &[Frame]) -> Result<Vec<Tick>, OutOfMemory>
    ensures { IfOk result (λ ticks. ticks.items ≡ ticks_of frames.now) }
{
    let count = tick_count(frames.len());
    let mut ticks = Vec::new(alloc);
    for part in 0..count {
        ticks.push(tick_at(frames, part))?;
    }
    Ok(ticks)
}
