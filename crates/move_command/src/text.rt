// The text of `move`.
ghost use Rattle.std.specs.Prelude.{◌≡◌, ◌++◌, All, IfOk, IsTrue, List, OnOk, string_bytes};
ghost use Rattle.bucket_move.specs.BucketsView.{Call, IsAfter, fed, opening_table, table_after};
ghost use Rattle.bucket_move.specs.ByKey.{is_by_key};
ghost use Rattle.bucket_move.specs.Shifts.{DontFall, IsShiftOf};
ghost use Rattle.move_command.specs.Text.{move_text, part_line, part_lines};
ghost use Rattle.plan_reader.specs.declared.stage.Stage.{Stage};

use crate::work::work;
use bucket_move::{Buckets, Moves};
use plan_reader::Plan;
use std::alloc::Global;
use std::thread::Threads;
use trade_text::{Trades, write_output};
use tuple_edge::OutOfMemory;

// The line of a partition at which so many keys stand.
fn part_line(alloc: Global, part: u32, keys: u64) -> Result<String, OutOfMemory>
    ensures { IfOk result (λ line. string_bytes line ≡ part_line part keys) }
{
    let line = format!(in alloc; "part {part} keys={keys}\n")?;
    Ok(line)
}

// Appends the line of each partition: how many keys stand there.
fn push_keys(alloc: Global, text: &mut Vec<u8>, buckets: &Buckets) -> Result<(), OutOfMemory>
    ensures { OnOk result ((stage : Stage) (calls : List Call) → IsAfter stage calls buckets.now
        → text.new.items ≡ text.old.items ++ part_lines (table_after (opening_table stage.parts) calls) (fed calls) stage) }
{
    for part in 0..buckets.parts() {
        let line = part_line(alloc, part, buckets.keys(part))?;
        text.extend_from_slice(line.as_bytes())?;
    }
    Ok(())
}

/// The text of a plan's output, worked with moves, and the lines of its partitions.
pub(crate) fn moved_text<R: Threads + Sync>(
    rt: &R,
    alloc: Global,
    plan: &Plan,
    trades: &Trades,
    moves: &Moves,
) -> Result<Vec<u8>, OutOfMemory>
    requires by_key { IsTrue (is_by_key plan.now) }
    requires of_plan { All (IsShiftOf plan.now) moves.now }
    requires order { DontFall 0 moves.now }
    ensures { IfOk result (λ bytes. bytes.items ≡ move_text plan.now trades.now moves.now) }
{
    let mut buckets = Buckets::new(alloc, plan)?;
    work(rt, &mut buckets, trades.rows(), moves.list())?;
    let mut text = write_output(alloc, buckets.emitted(), trades, true)?;
    push_keys(alloc, &mut text, &buckets)?;
    Ok(text)
}
