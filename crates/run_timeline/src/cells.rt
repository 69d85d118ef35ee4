// The cells of a lane, each at its column's end.
ghost use Rattle.run_timeline.specs.Cells.{cell_at, cell_of, makes_of, replica_cells, rising_cell, rising_cells, rows_of};
ghost use Rattle.std.specs.Prelude.{◌≡◌, IfOk};

use lane_chart::Cell;
use run_watch::{Frame, Mode};
use std::alloc::Global;
use tuple_edge::OutOfMemory;

// How a replica is drawn that is in this mode.
fn cell_of(mode: Mode) -> Cell
    ensures { result ≡ cell_of mode }
{
    match mode {
        Mode::Leads => Cell::Strong,
        Mode::Runs => Cell::Plain,
        Mode::Gathers => Cell::Weak,
        Mode::Gone => Cell::Absent,
    }
}

// The cell of a replica at the end of a column, by its place in node order.
fn cell_at(place: usize, frame: &Frame) -> Cell
    ensures { result ≡ cell_at place frame.now }
{
    match frame.modes().get(place) {
        Some(mode) => cell_of(*mode),
        None => Cell::Absent,
    }
}

// The cells of a replica.
pub(crate) fn replica_cells(
    alloc: Global,
    frames: &[Frame],
    place: usize,
) -> Result<Vec<Cell>, OutOfMemory>
    ensures { IfOk result (λ cells. cells.items ≡ replica_cells frames.now place) }
{
    let mut cells = Vec::new(alloc);
    for frame in frames {
        cells.push(cell_at(place, frame))?;
    }
    Ok(cells)
}

// What ingress had made at each column's end.
pub(crate) fn makes_of(alloc: Global, frames: &[Frame]) -> Result<Vec<u64>, OutOfMemory>
    ensures { IfOk result (λ makes. makes.items ≡ makes_of frames.now) }
{
    let mut makes = Vec::new(alloc);
    for frame in frames {
        makes.push(frame.made())?;
    }
    Ok(makes)
}

// What egress had emitted at each column's end.
pub(crate) fn rows_of(alloc: Global, frames: &[Frame]) -> Result<Vec<u64>, OutOfMemory>
    ensures { IfOk result (λ rows. rows.items ≡ rows_of frames.now) }
{
    let mut rows = Vec::new(alloc);
    for frame in frames {
        rows.push(frame.emitted())?;
    }
    Ok(rows)
}

// Whether a count rose.
fn rising_cell(before: u64, count: u64) -> Cell
    ensures { result ≡ rising_cell before count }
{
    if count == before {
        Cell::Idle
    } else {
        Cell::Active
    }
}

// The cells of a count that rises from 0.
pub(crate) fn rising_cells(alloc: Global, counts: &[u64]) -> Result<Vec<Cell>, OutOfMemory>
    ensures { IfOk result (λ cells. cells.items ≡ rising_cells 0 counts.now) }
{
    let mut cells = Vec::new(alloc);
    let mut before = 0;
    for count in counts {
        cells.push(rising_cell(before, *count))?;
        before = *count;
    }
    Ok(cells)
}
