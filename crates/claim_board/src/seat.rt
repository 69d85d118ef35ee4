// A seat, and the order of the places that it holds.
ghost use Rattle.std.specs.Prelude.{◌≡◌, ℕ, ◌≤◌, true, length, vec_len, vec_capacity};
ghost use Rattle.std.specs.VecDeque.{deque_capacity};
ghost use Rattle.claim_board.specs.Lists.{is_in, is_distinct, all_below, places_of, rotated};

use crate::view::SeatView;
use atomic_table::Seat;
use std::collections::VecDeque;

/// The right of one thread to claim places of a board. It has a number, from 1 to the number of
/// seats of the board, and may hold several places at once.
///
/// A seat that is dropped keeps its places, and the board can then not be closed.
#[derive(Drop)]
pub struct BoardSeat<T> {
    pub(crate) seat: Seat<Option<T>, SeatView<T>>,
    pub(crate) number: u64,
    // The places held, in the order of the seat's slots, with room for all places.
    pub(crate) held: VecDeque<usize>,
    // Empty, with room for all values: what `close` gives them in. A board that had it could not be shared
    // by threads, unless the values could.
    pub(crate) list: Vec<T>,
    ghost is_live: { seat.me.0.live ≡ true },
    ghost is_number: { number ≡ seat.me.0.number },
    ghost in_order: { places_of seat.me.1 ≡ held.items },
    ghost same: { (k : ℕ) → is_in k seat.me.0.holds ≡ is_in k held.items },
    ghost distinct: { is_distinct held.items ≡ true },
    ghost below: { all_below (length seat.me.0.opening) held.items ≡ true },
    ghost room: { length seat.me.0.opening ≤ deque_capacity held },
    ghost list_room: { (vec_len list ≡ 0) × (length seat.me.0.opening ≤ vec_capacity list) },
}

impl<T> BoardSeat<T> {
    ghost use Rattle.std.specs.Prelude.{◌≡◌, ◌<◌, List, ◌∷◌};
    ghost use Rattle.claim_board.specs.Board.{Holds, IsTurned};

    // Turns until the place is in front, so that the table's next exchange is of its slot.
    pub(crate) fn turn_to(&mut self, place: usize)
        requires { Holds self.old place }
        ensures seat { IsTurned self.old self.new }
        ensures front { (others : List _) × (self.new.held.items ≡ place ∷ others) }
    {
        while self.front() != place {
            self.turn();
        }
    }

    // The place in front goes behind the others.
    fn turn(&mut self)
        ensures seat { IsTurned self.old self.new }
        ensures held { self.new.held.items ≡ rotated self.old.held.items }
    {
        self.seat.turn();
        if !self.held.is_empty() {
            self.held.rotate_left(1);
        }
    }

    fn front(&self) -> usize
        requires { 0 < length self.now.held.items }
        ensures { (others : List _) × (self.now.held.items ≡ result ∷ others) }
    {
        self.held[0]
    }
}
