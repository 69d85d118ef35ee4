// Cells that are alike beside one another.
ghost use Rattle.lane_chart.specs.Runs.{rank, runs};
ghost use Rattle.std.specs.Prelude.{◌≡◌, IfOk};

use crate::chart::Cell;
use std::alloc::Global;
use tuple_edge::OutOfMemory;

// Cells of one kind from one place to another.
#[derive(Clone, Copy)]
pub(crate) struct Run {
    pub(crate) cell: Cell,
    pub(crate) start: usize,
    pub(crate) end: usize,
}

// Which kind of cell it is, by its place in the list of kinds.
fn rank(cell: Cell) -> u8
    ensures { result ≡ rank cell }
{
    match cell {
        Cell::Strong => 0,
        Cell::Plain => 1,
        Cell::Weak => 2,
        Cell::Absent => 3,
        Cell::Active => 4,
        Cell::Idle => 5,
    }
}

// The runs of cells.
pub(crate) fn runs(alloc: Global, cells: &[Cell]) -> Result<Vec<Run>, OutOfMemory>
    ensures { IfOk result (λ found. found.items ≡ runs cells.now) }
{
    let mut runs = Vec::new(alloc);
    let [first, rest @ ..] = cells else {
        return Ok(runs);
    };
    let mut kind = *first;
    let mut start = 0;
    for (place, cell) in rest.iter().enumerate() {
        let end = place + 1;
        if rank(*cell) != rank(kind) {
            runs.push(Run {
                cell: kind,
                start,
                end,
            })?;
            kind = *cell;
            start = end;
        }
    }
    let end = cells.len();
    runs.push(Run {
        cell: kind,
        start,
        end,
    })?;
    Ok(runs)
}
