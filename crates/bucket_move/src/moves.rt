// The moves of buckets that a text asks for.
ghost use Rattle.std.specs.Prelude.{◌≡◌, ◌++◌, ◌∷◌, [], OnErr, OnOk};
ghost use Rattle.bucket_move.specs.Shifts.{last_at};

use std::alloc::Global;
use std::marker::Model;
use tuple_edge::OutOfMemory;

/// One move: a bucket goes to a partition, for the rows whose stamp is above `at`, where there are at
/// least so many rows. `at` is a positive multiple of the plan's mark, the bucket 0 to 63, and `to` a partition from 0.
#[derive(Clone, Copy, Debug, PartialEq, Eq)]
pub struct Shift {
    pub at: u64,
    pub bucket: u32,
    pub to: u32,
}

/// The moves that a text says, in order.
///
/// Contracts see their list.
#[derive(Debug, Drop)]
pub struct Moves {
    list: Vec<Shift>,
}

impl Model for Moves {
    ghost use Rattle.std.specs.Prelude.{List};
    ghost use Rattle.bucket_move.specs.declared.moves.Shift.{Shift};

    ghost Value = { List Shift };

    ghost view = { λ m. m.list.items };
}

impl Moves {
    // No moves.
    pub(crate) fn none(alloc: Global) -> Moves
        ensures { result ≡ [] }
    {
        Moves {
            list: Vec::new(alloc),
        }
    }

    /// The moves, in the order of their lines. Their stamps don't fall.
    pub fn list(&self) -> &[Shift]
        ensures { result.now ≡ self.now }
    {
        &self.list
    }

    // Appends a move. Without memory the moves stay as they were.
    pub(crate) fn push(&mut self, shift: Shift) -> Result<(), OutOfMemory>
        ensures pushed { OnOk result (self.new ≡ self.old ++ shift ∷ []) }
        ensures unchanged { OnErr result (self.new ≡ self.old) }
    {
        self.list.push(shift)?;
        Ok(())
    }

    // The stamp of the last move; of none it is 0.
    pub(crate) fn last_at(&self) -> u64
        ensures { result ≡ last_at self.now }
    {
        match self.list.last() {
            None => 0,
            Some(shift) => shift.at,
        }
    }
}
