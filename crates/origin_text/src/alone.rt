// Whether the inputs on which a row of the output rests give it again by themselves.
ghost use Rattle.origin_text.specs.Alone.{GivesAgain, given_again, input_marks, is_same, marked_rows, number_among};
ghost use Rattle.plan_reader.specs.PlanView.{IsStage};
ghost use Rattle.std.specs.Bool.{Decides};
ghost use Rattle.std.specs.List.{position};
ghost use Rattle.std.specs.Prelude.{◌≡◌, ◌<◌, ◌++◌, ◌∷◌, [], All, IfOk, IfSome, OnOk, if◌then◌else◌, is_some, length};

use origin_finder::{StageTold, is_marked, rows_passed};
use plan_reader::Stage;
use std::alloc::Global;
use trade_text::Trades;
use tuple_edge::{OutOfMemory, Row};

/// What the plan gives for some of the inputs alone: how many these are, how many rows it gives for them, and the number, from 1,
/// of the first one of those that is the row which is asked about.
#[derive(Clone, Copy)]
pub struct Again {
    pub chosen: usize,
    pub given: usize,
    pub number: Option<usize>,
}

// The marks of the inputs on which the row of the output rests.
pub(crate) fn input_marks(told: &[StageTold]) -> &[bool]
    ensures { result.now ≡ input_marks told.now }
{
    match told.get(told.len().saturating_sub(1)) {
        None => &[],
        Some(first) => first.roles().rests(),
    }
}

// Appends a row if it has a mark.
fn push_if(chosen: &mut Vec<Row>, row: Row, mark: bool) -> Result<(), OutOfMemory>
    ensures { OnOk result (chosen.new.items ≡ chosen.old.items ++ (if mark then row ∷ [] else [])) }
{
    if mark {
        chosen.push(row)?;
    }
    Ok(())
}

// Those of rows that have a mark.
fn marked_rows(alloc: Global, rows: &[Row], marks: &[bool]) -> Result<Vec<Row>, OutOfMemory>
    ensures { IfOk result (λ chosen. chosen.items ≡ marked_rows rows.now marks.now) }
{
    let mut chosen = Vec::new(alloc);
    for (place, row) in rows.iter().enumerate() {
        push_if(&mut chosen, *row, is_marked(marks, place))?;
    }
    Ok(chosen)
}

// Whether two rows are alike in each column.
fn is_same(a: &Row, b: &Row) -> bool
    ensures { result ≡ is_same a.now b.now }
{
    a == b
}

// The place of the first one of rows that is this row.
fn first_place(row: &Row, rows: &[Row]) -> Option<usize>
    ensures place { result ≡ position (is_same row.now) rows.now }
    ensures within { IfSome result (λ place. place < length rows.now) }
{
    rows.iter().position(|x| is_same(row, x))
}

// Its number, from 1.
fn number_among(row: &Row, rows: &[Row]) -> Option<usize>
    ensures { result ≡ number_among row.now rows.now }
{
    let place = first_place(row, rows)?;
    Some(place + 1)
}

/// What stages give for those of the inputs alone that have a mark, beside a row. Its number is told exactly where they give it
/// again.
pub(crate) fn given_again(
    alloc: Global,
    stages: &[Stage],
    inputs: &Trades,
    marks: &[bool],
    row: &Row,
) -> Result<Again, OutOfMemory>
    requires { All IsStage stages.now }
    ensures again { IfOk result (λ again. again ≡ given_again stages.now inputs.now.rows marks.now row.now) }
    ensures exactly { IfOk result (λ again. Decides (is_some again.number) (GivesAgain stages.now inputs.now.rows marks.now row.now)) }
{
    let marked = marked_rows(alloc, inputs.rows(), marks)?;
    let chosen = marked.len();
    let rows = rows_passed(alloc, stages, marked)?;
    Ok(Again {
        chosen,
        given: rows.len(),
        number: number_among(row, &rows),
    })
}
