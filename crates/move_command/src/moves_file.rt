// The kind of input file that says moves.
ghost use Rattle.std.specs.Prelude.{All};
ghost use Rattle.bucket_move.specs.Limits.{max_moves_bytes};
ghost use Rattle.bucket_move.specs.Shifts.{DontFall, IsShiftOf};
ghost use Rattle.move_command.specs.Inputs.{moves_from};

use bucket_move::{MAX_MOVES_BYTES, Moves, MovesError, read_moves};
use command_course::{Input, Stop, refused};
use plan_reader::Plan;
use std::alloc::Global;

/// A file with moves for a plan.
#[derive(Drop)]
pub(crate) struct MovesFile<'a> {
    pub(crate) plan: &'a Plan,
}

impl<'a> Input for MovesFile<'a> {
    type Value = Moves;

    ghost most = { λ _. max_moves_bytes };

    ghost reading = { λ file. moves_from file.plan.now };

    ghost keeps = { λ file moves. All (IsShiftOf file.plan.now) moves × DontFall 0 moves };

    fn most(&self) -> u64 {
        MAX_MOVES_BYTES
    }

    #[tactic(auto, using(crate::proofs::Refusals::moves_refused))]
    fn value(&self, alloc: Global, name: &str, bytes: &[u8]) -> Result<Moves, Stop> {
        match read_moves(alloc, bytes, self.plan) {
            Ok(moves) => Ok(moves),
            Err(MovesError::OutOfMemory) => Err(Stop::OutOfMemory),
            Err(error) => Err(refused(alloc, name, error)),
        }
    }

    #[tactic(auto, using(crate::proofs::Refusals::long_moves))]
    fn too_long(&self, alloc: Global, name: &str, seen: u64) -> Stop {
        refused(alloc, name, MovesError::TooLong { bytes: seen })
    }
}
