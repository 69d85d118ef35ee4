// What comes to each stage of a plan, and which of it is reached from one of the trades.
ghost use Rattle.evaluation.specs.StageRows.{HasTime, early_replies, late_replies};
ghost use Rattle.plan_reader.specs.PlanView.{IsStage};
ghost use Rattle.reach_finder.specs.Found.{passage_of};
ghost use Rattle.reach_finder.specs.Traced.{marks_in, rows_in};
ghost use Rattle.row_origin.specs.Origins.{only};
ghost use Rattle.row_reach.specs.Reach.{passage, passages, reached};
ghost use Rattle.std.specs.Prelude.{◌≡◌, ◌++◌, ◌∷◌, [], All, IfOk, OnOk, length, map};

use crate::shades::Traced;
use crate::stages::{Rows, passed};
use plan_reader::{Plan, Stage};
use std::alloc::Global;
use trade_text::Trades;
use tuple_edge::{OutOfMemory, Row};

/// The rows that come to a stage or, after the last one, leave the plan, in order, each with whether it is reached.
#[derive(Drop)]
pub struct Passage {
    pub rows: Vec<Traced>,
}

// Rows, of which that of this place is reached.
fn marked(alloc: Global, rows: &[Row], place: usize) -> Result<Vec<Traced>, OutOfMemory>
    ensures rows { IfOk result (λ xs. rows_in xs.items ≡ rows.now) }
    ensures marks { IfOk result (λ xs. marks_in xs.items ≡ only place (length rows.now)) }
{
    let mut xs = Vec::with_capacity(alloc, rows.len())?;
    for (n, row) in rows.iter().enumerate() {
        xs.push(Traced {
            row: *row,
            reached: n == place,
        })?;
    }
    Ok(xs)
}

// Puts early and late rows, in one list, behind what came to other stages.
fn put(rows: Rows, found: &mut Vec<Passage>) -> Result<(), OutOfMemory>
    ensures { OnOk result (map passage_of found.new.items ≡ map passage_of found.old.items
        ++ passage (rows_in rows.early.items ++ rows_in rows.late.items) (marks_in (rows.early.items ++ rows.late.items)) ∷ []) }
{
    let mut all = rows.early;
    all.extend_from_slice(&rows.late)?;
    found.push(Passage { rows: all })?;
    Ok(())
}

// Puts the rows that come to a stage behind others, and gives those that the stage passes on.
fn pass_on(
    alloc: Global,
    stage: &Stage,
    rows: Rows,
    found: &mut Vec<Passage>,
) -> Result<Rows, OutOfMemory>
    requires stage { IsStage stage.now }
    requires early_times { All HasTime (rows_in rows.early.items) }
    requires late_times { All HasTime (rows_in rows.late.items) }
    ensures early { IfOk result (λ next. rows_in next.early.items ≡ early_replies stage.now [] (rows_in rows.early.items)) }
    ensures late { IfOk result (λ next. rows_in next.late.items ≡ late_replies stage.now (rows_in rows.early.items) (rows_in rows.late.items) 0 stage.now.parts) }
    ensures marks { IfOk result (λ next. marks_in (next.early.items ++ next.late.items) ≡ reached stage.now (rows_in rows.early.items) (rows_in rows.late.items) (marks_in (rows.early.items ++ rows.late.items))) }
    ensures found { OnOk result (map passage_of found.new.items ≡ map passage_of found.old.items
        ++ passage (rows_in rows.early.items ++ rows_in rows.late.items) (marks_in (rows.early.items ++ rows.late.items)) ∷ []) }
{
    let next = passed(alloc, stage, rows.early.as_slice(), rows.late.as_slice())?;
    put(rows, found)?;
    Ok(next)
}

/// What comes to each stage of a plan, the first one first, and at last the rows of its output, each with whether it is
/// reached from the trade of this place.
pub fn passages(
    alloc: Global,
    plan: &Plan,
    trades: &Trades,
    place: usize,
) -> Result<Vec<Passage>, OutOfMemory>
    ensures { IfOk result (λ found. map passage_of found.items ≡ passages plan.now.stages trades.now.rows [] (only place (length trades.now.rows))) }
{
    let early = marked(alloc, trades.rows(), place)?;
    let late = Vec::new(alloc);
    let mut rows = Rows { early, late };
    let mut found = Vec::new(alloc);
    for stage in plan.stages() {
        rows = pass_on(alloc, stage, rows, &mut found)?;
    }
    put(rows, &mut found)?;
    Ok(found)
}
