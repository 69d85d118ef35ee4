// The command `move`: what it writes, of its inputs one after the other.
ghost use Rattle.std.specs.Prelude.{◌≡◌, All, IfErr, IfOk, IsTrue};
ghost use Rattle.bucket_move.specs.ByKey.{is_by_key};
ghost use Rattle.bucket_move.specs.Shifts.{DontFall, IsShiftOf};
ghost use Rattle.command_course.specs.Course.{Came, Writes};
ghost use Rattle.command_course.specs.Steps.{OnlyReads, StopsOf};
ghost use Rattle.move_command.specs.Outcome.{move_course, move_moves, move_plan, move_trades};
ghost use Rattle.move_command.specs.Text.{move_text};

use crate::moves_file::MovesFile;
use crate::text::moved_text;
use bucket_move::{Moves, is_by_key};
use command_course::{PlanFile, Stop, TradesFile, input_at, refused};
use flux_outside::Files;
use plan_reader::Plan;
use std::alloc::Global;
use std::thread::Threads;
use trade_text::Trades;

/// The text that `move` writes: the output of the plan for the trades, worked in buckets that move as the file of moves says, and
/// then for each partition how many keys stand there at the end.
#[tactic(auto, using(crate::proofs::Courses::reads_on, crate::proofs::Courses::reads_passed))]
pub fn move_text<R: Threads + Sync, F: Files>(
    rt: &R,
    alloc: Global,
    files: &mut F,
    plan: &str,
    trades: &str,
    moves: &str,
) -> Result<Vec<u8>, Stop>
    ensures comes { IfOk result (λ bytes. Came (F.told files.old) (F.told files.new) (move_course plan.now trades.now moves.now) (Writes bytes.items)) }
    ensures stops { IfErr result (λ stop. StopsOf (F.told files.old) (F.told files.new) (move_course plan.now trades.now moves.now) stop) }
    ensures reads { OnlyReads (F.told files.old) (F.told files.new) result }
{
    let it = input_at(alloc, files, plan, &PlanFile)?;
    text_of_plan(rt, alloc, files, plan, &it, trades, moves)
}

// The text, once the plan was read: it is to be by key.
#[tactic(auto, using(crate::proofs::Courses::refused_here, crate::proofs::Courses::reads_refused))]
fn text_of_plan<R: Threads + Sync, F: Files>(
    rt: &R,
    alloc: Global,
    files: &mut F,
    name: &str,
    plan: &Plan,
    trades: &str,
    moves: &str,
) -> Result<Vec<u8>, Stop>
    ensures comes { IfOk result (λ bytes. Came (F.told files.old) (F.told files.new) (move_plan name.now trades.now moves.now plan.now) (Writes bytes.items)) }
    ensures stops { IfErr result (λ stop. StopsOf (F.told files.old) (F.told files.new) (move_plan name.now trades.now moves.now plan.now) stop) }
    ensures reads { OnlyReads (F.told files.old) (F.told files.new) result }
{
    if is_by_key(plan) {
        text_of_trades(rt, alloc, files, plan, trades, moves)
    } else {
        Err(refused(alloc, name, "not by key"))
    }
}

// The text, once the plan was accepted.
#[tactic(auto, using(crate::proofs::Courses::reads_on, crate::proofs::Courses::reads_passed))]
fn text_of_trades<R: Threads + Sync, F: Files>(
    rt: &R,
    alloc: Global,
    files: &mut F,
    plan: &Plan,
    trades: &str,
    moves: &str,
) -> Result<Vec<u8>, Stop>
    requires { IsTrue (is_by_key plan.now) }
    ensures comes { IfOk result (λ bytes. Came (F.told files.old) (F.told files.new) (move_trades trades.now moves.now plan.now) (Writes bytes.items)) }
    ensures stops { IfErr result (λ stop. StopsOf (F.told files.old) (F.told files.new) (move_trades trades.now moves.now plan.now) stop) }
    ensures reads { OnlyReads (F.told files.old) (F.told files.new) result }
{
    let trades = input_at(alloc, files, trades, &TradesFile)?;
    text_of_moves(rt, alloc, files, plan, &trades, moves)
}

// The text, once the trades were read too.
#[tactic(auto, using(crate::proofs::Courses::reads_then, crate::proofs::Courses::reads_passed))]
fn text_of_moves<R: Threads + Sync, F: Files>(
    rt: &R,
    alloc: Global,
    files: &mut F,
    plan: &Plan,
    trades: &Trades,
    moves: &str,
) -> Result<Vec<u8>, Stop>
    requires { IsTrue (is_by_key plan.now) }
    ensures comes { IfOk result (λ bytes. Came (F.told files.old) (F.told files.new) (move_moves moves.now plan.now trades.now) (Writes bytes.items)) }
    ensures stops { IfErr result (λ stop. StopsOf (F.told files.old) (F.told files.new) (move_moves moves.now plan.now trades.now) stop) }
    ensures reads { OnlyReads (F.told files.old) (F.told files.new) result }
{
    let moves = input_at(alloc, files, moves, &MovesFile { plan })?;
    written(rt, alloc, plan, trades, &moves)
}

// The text, where want of memory is why the command stops.
fn written<R: Threads + Sync>(
    rt: &R,
    alloc: Global,
    plan: &Plan,
    trades: &Trades,
    moves: &Moves,
) -> Result<Vec<u8>, Stop>
    requires by_key { IsTrue (is_by_key plan.now) }
    requires of_plan { All (IsShiftOf plan.now) moves.now }
    requires order { DontFall 0 moves.now }
    ensures text { IfOk result (λ bytes. bytes.items ≡ move_text plan.now trades.now moves.now) }
    ensures want { IfErr result (λ stop. stop ≡ Stop.OutOfMemory) }
{
    let text = moved_text(rt, alloc, plan, trades, moves)?;
    Ok(text)
}
