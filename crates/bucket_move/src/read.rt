// How moves are read.
ghost use Rattle.std.specs.Prelude.{◌≤◌, All, IfOk};
ghost use Rattle.text_words.specs.Reading.{Reads, Takes};
ghost use Rattle.bucket_move.specs.Moves.{Gives, body_of, moves_of, moves_of_lines, next_shift, shifts_after, with_line};
ghost use Rattle.bucket_move.specs.Shifts.{DontFall, IsShiftOf, last_at};

use crate::error::Fault;
use crate::words::{is_opening, shift};
use crate::{Moves, MovesError, Shift};
use plan_reader::Plan;
use std::alloc::Global;
use text_words::{Line, Lines, Words};

/// The greatest length of the text of moves, in bytes.
pub const MAX_MOVES_BYTES: u64 = 65_536;

// Passes the first line that counts, which is fixed.
fn pass_header(lines: &mut Lines<'_>) -> Result<(), MovesError>
    ensures { Reads (λ x. lines.new) result (body_of lines.old) }
{
    match lines.next_line() {
        None => Err(MovesError::Header),
        Some(mut line) => {
            if is_opening(&mut line.words) {
                Ok(())
            } else {
                Err(MovesError::Header)
            }
        }
    }
}

// The move of a line, no sooner than those before it.
#[tactic(auto, unfolding(crate::specs::Moves::next_shift))]
fn next_shift(words: &mut Words<'_>, plan: &Plan, before: &Moves) -> Result<Shift, Fault>
    ensures value { Takes words.new result (next_shift plan.now before.now words.old) }
    ensures of_plan { IfOk result (IsShiftOf plan.now) }
    ensures no_sooner { IfOk result (λ shift. last_at before.now ≤ shift.at) }
{
    let shift = shift(words, plan)?;
    if before.last_at() <= shift.at {
        Ok(shift)
    } else {
        Err(Fault::NotRising)
    }
}

// Adds the move of a line.
#[tactic(auto, using(crate::proofs::Orders::one_more), unfolding(crate::specs::Moves::with_line))]
fn take(mut line: Line<'_>, plan: &Plan, moves: &mut Moves) -> Result<(), MovesError>
    requires of_plan { All (IsShiftOf plan.now) moves.old }
    requires in_order { DontFall 0 moves.old }
    ensures value { Gives (λ x. moves.new) result (with_line plan.now moves.old (record { number = line.entry.number; words = line.entry.words })) }
    ensures of_plan { All (IsShiftOf plan.now) moves.new }
    ensures in_order { DontFall 0 moves.new }
{
    match next_shift(&mut line.words, plan, moves) {
        Err(fault) => Err(fault.at(line.number)),
        Ok(shift) => {
            moves.push(shift)?;
            Ok(())
        }
    }
}

// Adds the moves of all further lines.
#[tactic(auto, unfolding(crate::specs::Moves::shifts_after))]
fn take_all(lines: &mut Lines<'_>, plan: &Plan, moves: &mut Moves) -> Result<(), MovesError>
    requires of_plan { All (IsShiftOf plan.now) moves.old }
    requires in_order { DontFall 0 moves.old }
    ensures value { Gives (λ x. moves.new) result (shifts_after plan.now moves.old lines.old) }
    ensures of_plan { All (IsShiftOf plan.now) moves.new }
    ensures in_order { DontFall 0 moves.new }
{
    while let Some(line) = lines.next_line() {
        take(line, plan, moves)?;
    }
    Ok(())
}

// The moves that lines say.
#[tactic(auto, unfolding(crate::specs::Moves::moves_of_lines))]
fn moves_of_lines(alloc: Global, mut lines: Lines<'_>, plan: &Plan) -> Result<Moves, MovesError>
    ensures reads { Gives (λ m. m) result (moves_of_lines plan.now lines.entry) }
    ensures of_plan { IfOk result (All (IsShiftOf plan.now)) }
    ensures in_order { IfOk result (DontFall 0) }
{
    pass_header(&mut lines)?;
    let mut moves = Moves::none(alloc);
    take_all(&mut lines, plan, &mut moves)?;
    Ok(moves)
}

/// The moves that a text says, for the first stage of a plan, or the first of its faults.
#[tactic(auto, unfolding(crate::specs::Moves::moves_of))]
pub fn read_moves(alloc: Global, bytes: &[u8], plan: &Plan) -> Result<Moves, MovesError>
    ensures reads { Gives (λ m. m) result (moves_of plan.now bytes.now) }
    ensures of_plan { IfOk result (All (IsShiftOf plan.now)) }
    ensures in_order { IfOk result (DontFall 0) }
{
    let length = bytes.len() as u64;
    if length > MAX_MOVES_BYTES {
        return Err(MovesError::TooLong { bytes: length });
    }
    moves_of_lines(alloc, Lines::new(bytes), plan)
}
