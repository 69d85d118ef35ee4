// Rows worked in buckets, with the moves between them.
ghost use Rattle.std.specs.Prelude.{◌≡◌, ◌≤◌, ◌<◌, ◌-◌, ◌++◌, ◌∷◌, [], All, IfOk, List, OnOk, drop, false, length, take};
ghost use Rattle.bucket_move.specs.BucketsView.{Call, Feeds, IsAfter, Moves};
ghost use Rattle.bucket_move.specs.Limits.{buckets};
ghost use Rattle.bucket_move.specs.Shifts.{DontFall};
ghost use Rattle.move_command.specs.Moved.{calls_of, made};
ghost use Rattle.move_command.specs.Within.{IsMoveOf};
ghost use Rattle.plan_reader.specs.declared.stage.Stage.{Stage};
ghost use Rattle.op_spec.specs.Times.{IsTime};

use bucket_move::{Buckets, Shift};
use std::thread::Threads;
use tuple_edge::{OutOfMemory, Row};

// Works the rows up to a move's stamp, where the first of them has the stamp after the one that was passed, and makes the move. The
// rows behind it are left.
fn work_upto<'a, R: Threads + Sync>(
    rt: &R,
    buckets: &mut Buckets,
    rows: &'a [Row],
    passed: u64,
    shift: &Shift,
) -> Result<&'a [Row], OutOfMemory>
    requires whole { buckets.old.failed ≡ false }
    requires timely { All (λ r. IsTime r.time) rows.now }
    requires within { IsMoveOf buckets.old.stage shift.now }
    requires no_sooner { passed ≤ shift.now.at }
    requires there { shift.now.at - passed ≤ length rows.now }
    ensures rest { IfOk result (λ rest. rest.now ≡ drop (shift.now.at - passed) rows.now) }
    ensures stands { OnOk result ((stage : Stage) (calls : List Call) → IsAfter stage calls buckets.old
        → IsAfter stage (calls ++ Feeds (take (shift.now.at - passed) rows.now) ∷ Moves shift.now.bucket shift.now.to ∷ []) buckets.new) }
    ensures stage { buckets.new.stage ≡ buckets.old.stage }
    ensures whole { OnOk result (buckets.new.failed ≡ false) }
{
    let (before, rest) = rows.split_at((shift.at - passed) as usize);
    buckets.feed(rt, before)?;
    buckets.move_bucket(shift.bucket, shift.to)?;
    Ok(rest)
}

/// Works rows, and makes each move behind the row of its stamp, where there is one.
pub(crate) fn work<R: Threads + Sync>(
    rt: &R,
    buckets: &mut Buckets,
    rows: &[Row],
    shifts: &[Shift],
) -> Result<(), OutOfMemory>
    requires whole { buckets.old.failed ≡ false }
    requires timely { All (λ r. IsTime r.time) rows.now }
    requires within { All (IsMoveOf buckets.old.stage) shifts.now }
    requires order { DontFall 0 shifts.now }
    ensures { OnOk result ((stage : Stage) → IsAfter stage [] buckets.old → IsAfter stage (calls_of 0 rows.now (made (length rows.now) shifts.now)) buckets.new) }
{
    let count = rows.len() as u64;
    let mut rest = rows;
    let mut passed = 0;
    for shift in shifts {
        if shift.at <= count {
            rest = work_upto(rt, buckets, rest, passed, shift)?;
            passed = shift.at;
        }
    }
    buckets.feed(rt, rest)
}
