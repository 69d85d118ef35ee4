// How many items a replica merges.
ghost use Rattle.evaluation.specs.StageRows.{rows_to};
ghost use Rattle.pair_machine.specs.Edges.{merged_at};
ghost use Rattle.std.specs.Prelude.{◌≡◌, ◌↔◌, ◌≤◌, true, IfOk, length};
ghost use Rattle.trade_text.specs.TradesView.{inputs_in};

use origin_finder::rows_passed;
use plan_reader::{Plan, Stage};
use std::alloc::Global;
use trade_text::Trades;
use tuple_edge::{OutOfMemory, Row, route};

// How many of these rows go to a partition.
fn count_to(stage: &Stage, part: u32, rows: &[Row]) -> usize
    requires { 1 ≤ stage.now.parts }
    ensures count { result ≡ length (rows_to stage.now part rows.now) }
    ensures few { result ≤ length rows.now }
{
    rows.iter()
        .filter(|row| route(row, stage.by, stage.parts) == part)
        .count()
}

/// How many items each replica of a partition merges up to the end: the rows that go there, a mark after each so many inputs, and
/// the end. Stages count from 1, as in the names of nodes. The movements are merged with the trades for a plan of version 2, and for
/// no other.
pub fn items_merged(
    alloc: Global,
    plan: &Plan,
    trades: &Trades,
    stage: usize,
    part: u32,
) -> Result<u64, OutOfMemory>
    requires merged { (trades.now.merged ≡ true) ↔ (plan.now.version ≡ 2) }
    requires some { 1 ≤ stage }
    requires there { stage ≤ length plan.now.stages }
    ensures { IfOk result (λ count. count ≡ length (merged_at plan.now (inputs_in trades.now) stage part)) }
{
    let (before, from) = plan.stages().split_at(stage - 1);
    let rows = rows_passed(alloc, before, Vec::from_slice(alloc, trades.rows())?)?;
    let marks = trades.rows().len() as u64 / plan.mark();
    Ok(count_to(&from[0], part, &rows) as u64 + marks + 1)
}
