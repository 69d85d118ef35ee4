// The marks of a lane.
ghost use Rattle.lane_chart.specs.ChartView.{mark_shown};
ghost use Rattle.run_timeline.specs.Marks.{column_of, mark_in, mark_of, marks_of};
ghost use Rattle.std.specs.Prelude.{◌≡◌, ◌++◌, IfOk, OnOk, map};

use crate::said::title_of;
use crate::signs::{letter_of, rank_of, stands_in, weight_of};
use lane_chart::Mark;
use run_watch::{Frame, Told};
use std::alloc::Global;
use tuple_edge::{NodeId, OutOfMemory};

// The column of a place of the list: how many columns end before it.
fn column_of(frames: &[Frame], place: u64) -> usize
    ensures { result ≡ column_of frames.now place }
{
    for (column, frame) in frames.iter().enumerate() {
        if place <= frame.place() {
            return column;
        }
    }
    frames.len()
}

// The mark of a happening, in the lane of a node.
#[tactic(auto, unfolding(crate::specs::Marks::mark_of))]
fn mark_of(alloc: Global, frames: &[Frame], lane: NodeId, told: &Told) -> Result<Mark, OutOfMemory>
    ensures { IfOk result (λ mark. mark_shown mark ≡ mark_of frames.now lane told.now) }
{
    let column = column_of(frames, told.place);
    let weight = weight_of(told.happening);
    let rank = rank_of(told.happening);
    let letter = letter_of(told.happening);
    let title = title_of(alloc, lane, told)?;
    Ok(Mark {
        column,
        weight,
        rank,
        letter,
        title,
    })
}

// Appends the mark of a happening, where it stands in the lane of this node.
fn push_mark_in(
    marks: &mut Vec<Mark>,
    alloc: Global,
    frames: &[Frame],
    node: NodeId,
    told: &Told,
) -> Result<(), OutOfMemory>
    ensures { OnOk result (map mark_shown marks.new.items ≡ map mark_shown marks.old.items ++ mark_in frames.now node told.now) }
{
    if stands_in(node, told.happening) {
        marks.push(mark_of(alloc, frames, node, told)?)?;
    }
    Ok(())
}

// The marks of the lane of a node, in the order of the list.
pub(crate) fn marks_of(
    alloc: Global,
    frames: &[Frame],
    told: &[Told],
    node: NodeId,
) -> Result<Vec<Mark>, OutOfMemory>
    ensures { IfOk result (λ marks. map mark_shown marks.items ≡ marks_of frames.now told.now node) }
{
    let mut marks = Vec::new(alloc);
    for happened in told {
        push_mark_in(&mut marks, alloc, frames, node, happened)?;
    }
    Ok(marks)
}
