// The rows that are told of a stage.
ghost use Rattle.origin_text.specs.Told.{came_at_end, came_by, counting, told_rows};
ghost use Rattle.std.specs.Prelude.{◌≡◌, ◌++◌, ◌∷◌, [], IfOk, OnOk, if◌then◌else◌};

use op_spec::OpSpec;
use origin_finder::{StageTold, counts_itself, is_marked};
use std::alloc::Global;
use tuple_edge::{OutOfMemory, Row};

/// A row on which rows rest that are asked about: its number among those that came to the stage, from 1, and whether it counts.
#[derive(Clone, Copy)]
pub struct ToldRow {
    pub number: usize,
    pub row: Row,
    pub counts: bool,
}

// Appends a row if rows rest on it.
fn push_if(told: &mut Vec<ToldRow>, x: ToldRow, rests: bool) -> Result<(), OutOfMemory>
    ensures { OnOk result (told.new.items ≡ told.old.items ++ (if rests then x ∷ [] else [])) }
{
    if rests {
        told.push(x)?;
    }
    Ok(())
}

// The rows that are told of a stage.
pub(crate) fn told_rows(alloc: Global, stage: &StageTold) -> Result<Vec<ToldRow>, OutOfMemory>
    ensures { IfOk result (λ told. told.items ≡ told_rows stage.now) }
{
    let rests = stage.roles().rests();
    let counts = stage.roles().counts();
    let mut told = Vec::new(alloc);
    for (place, row) in stage.rows().iter().enumerate() {
        let x = ToldRow {
            number: place + 1,
            row: *row,
            counts: is_marked(counts, place),
        };
        push_if(&mut told, x, is_marked(rests, place))?;
    }
    Ok(told)
}

// How many of these rows count.
pub(crate) fn counting(told: &[ToldRow]) -> usize
    ensures { result ≡ counting told.now }
{
    told.iter().filter(|x| x.counts).count()
}

// The number of the row by which the row of the output came, where it counts.
pub(crate) fn came_by(is_last: bool, op: &OpSpec, told: &[ToldRow]) -> Option<usize>
    ensures { result ≡ came_by is_last op.now told.now }
{
    if !is_last || !counts_itself(op) {
        return None;
    }
    match told.get(told.len().saturating_sub(1)) {
        None => None,
        Some(x) => Some(x.number),
    }
}

// Whether the row of the output came at the end.
pub(crate) fn came_at_end(is_last: bool, op: &OpSpec, told: &[ToldRow]) -> bool
    ensures { result ≡ came_at_end is_last op.now told.now }
{
    is_last && !counts_itself(op) && counting(told) == told.len()
}
