// The rows of a key and a partition, with their places.
ghost use Rattle.op_spec.specs.Keys.{is_key, key_of};
ghost use Rattle.row_cause.specs.Causes.{of_key};
ghost use Rattle.row_origin.specs.Stages.{placed_from, placed_to};
ghost use Rattle.std.specs.Prelude.{◌≡◌, ◌≤◌, ◌++◌, ◌∷◌, [], IfOk, OnOk, ◌&&◌, ◌==◌, if◌then◌else◌};
ghost use Rattle.tuple_edge.specs.Row.{route_of};

use op_spec::By;
use plan_reader::Stage;
use row_cause::Placed;
use std::alloc::Global;
use std::cmp::Ordering;
use tuple_edge::{Key, OutOfMemory, Row, route};

// Whether a row is of a key.
fn is_of_key(by: By, key: &Key, row: &Row) -> bool
    ensures { result ≡ is_key (key_of by row.now) key.now }
{
    by.key(row).cmp(key) == Ordering::Equal
}

// Whether a row goes to a partition and is of a key.
fn is_wanted(stage: &Stage, part: u32, by: By, key: &Key, row: &Row) -> bool
    requires { 1 ≤ stage.now.parts }
    ensures { result ≡ (route_of row.now stage.now.by stage.now.parts == part) && is_key (key_of by row.now) key.now }
{
    route(row, stage.by, stage.parts) == part && is_of_key(by, key, row)
}

// Appends a row if it is wanted.
fn push_if(rows: &mut Vec<Placed>, x: Placed, wanted: bool) -> Result<(), OutOfMemory>
    ensures { OnOk result (rows.new.items ≡ rows.old.items ++ (if wanted then x ∷ [] else [])) }
{
    if wanted {
        rows.push(x)?;
    }
    Ok(())
}

// Those of a key among the rows that go to a partition.
pub(crate) fn keyed(
    alloc: Global,
    stage: &Stage,
    part: u32,
    by: By,
    key: &Key,
    rows: &[Row],
) -> Result<Vec<Placed>, OutOfMemory>
    requires { 1 ≤ stage.now.parts }
    ensures { IfOk result (λ keyed. keyed.items ≡ of_key by key.now (placed_to stage.now part (placed_from 0 rows.now))) }
{
    let mut keyed = Vec::new(alloc);
    for (place, row) in rows.iter().enumerate() {
        let wanted = is_wanted(stage, part, by, key, row);
        push_if(&mut keyed, Placed { place, row: *row }, wanted)?;
    }
    Ok(keyed)
}
