// The rule that the table keeps, and the kinds of step that keep it.
ghost use Rattle.claim_board.specs.Rule.{BoardRule};
ghost use Rattle.claim_board.specs.Steps.{first_seat, Tries, Releases, Loads, Stores, with_next, next_seat, with_seat, spent};

use crate::view::{Named, SeatView};
use atomic_table::{Join, Play, Split, TableRule};
use std::marker::PhantomData;
use std::snapshot::Snapshot;

// What a board began with: its values, and how many seats it was to have.
#[derive(Drop)]
pub struct Opening<T> {
    pub(crate) values: Snapshot<Vec<T>>,
    pub(crate) seats: u32,
}

// The rule is specs/Rule.antt.
pub struct OfBoard<T> {
    marker: PhantomData<T>,
}

impl<T: Named> TableRule<Option<T>, SeatView<T>, Opening<T>> for OfBoard<T> {
    ghost holds = { λ key. BoardRule T.name key.values.value.items key.seats };

    ghost first = { λ key. first_seat key.values.value.items key.seats 1 };
}

// A compare and exchange of a claim word, from 0 to the seat's number.
pub struct Claim;

impl<T: Named> Play<Option<T>, SeatView<T>> for Claim {
    ghost then = { Tries T.name };
}

// A store of 0 to the claim word of a place that the seat holds, once the value is back in its slot.
pub struct Release;

impl<T> Play<Option<T>, SeatView<T>> for Release {
    ghost then = { Releases };
}

// A load of the halt word.
pub struct Look;

impl<T> Play<Option<T>, SeatView<T>> for Look {
    ghost then = { Loads };
}

// A store of 1 to the halt word.
pub struct Halt;

impl<T> Play<Option<T>, SeatView<T>> for Halt {
    ghost then = { Stores };
}

// A seat is split off the first.
pub struct Next;

impl<T> Split<SeatView<T>> for Next {
    ghost left = { with_next };

    ghost right = { next_seat };
}

// A seat is joined into another.
pub struct Both;

impl<T> Join<SeatView<T>> for Both {
    ghost both = { with_seat };

    ghost spent = { spent };
}
