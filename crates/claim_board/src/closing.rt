// The closing of a board, which gives its values back.
ghost use Rattle.std.specs.Prelude.{◌≡◌, ℕ, ◌<◌, ◌≤◌, [], ◌∷◌, length, map, vec_len, vec_capacity, IfSome, IsSome};
ghost use Rattle.std.specs.Slots.{slots_items, slots_len, IsFull};
ghost use Rattle.claim_board.specs.Board.{opening_of, HasValue};

use crate::board::Board;
use crate::rule::Both;
use crate::seat::BoardSeat;
use crate::view::Named;
use atomic_table::Closed;
use std::alloc::Global;
use std::snapshot::Snapshot;

impl<T: Named> Board<T> {
    ghost use Rattle.claim_board.specs.Steps.{with_seat};
    ghost use Rattle.claim_board.specs.Board.{seat_view, seats_of, IsSeatOf, HoldsNone, AllHoldNone, AreAll};

    /// Closes the board, given all its seats, none of which holds a place, and gives one value for
    /// each place, in order, with the places' names.
    ///
    /// Takes no memory: the list's room was made by `new`.
    pub fn close(self, seats: Vec<BoardSeat<T>>) -> Vec<T>
        requires all { AreAll self seats.items }
        requires home { AllHoldNone seats.items }
        ensures { map T.name result.items ≡ map T.name (opening_of self) }
    {
        let before = Snapshot::of(&self);
        let Some(all) = self.gather(seats) else {
            unreachable!()
        };
        let Board {
            table,
            places,
            halt_word: _,
        } = self;
        let BoardSeat {
            seat,
            number: _,
            held: _,
            list,
        } = all;
        let closed = table.close_with(seat);
        take_all(&before, closed, list, places)
    }

    // Joins all seats into the last one.
    fn gather(&self, mut seats: Vec<BoardSeat<T>>) -> Option<BoardSeat<T>>
        requires all { AreAll self.now seats.items }
        requires home { AllHoldNone seats.items }
        requires some { 0 < seats_of self.now }
        ensures all { IfSome result (λ s. AreAll self.now (s ∷ []) × AllHoldNone (s ∷ [])) }
        ensures some { IsSome result }
    {
        let mut all = seats.pop()?;
        while let Some(other) = seats.pop() {
            self.join(&mut all, other);
        }
        Some(all)
    }

    // Joins a seat into another.
    fn join(&self, seat: &mut BoardSeat<T>, other: BoardSeat<T>)
        requires seat { IsSeatOf self.now seat.old }
        requires other { IsSeatOf self.now other × HoldsNone other }
        ensures seat { IsSeatOf self.now seat.new × (seat_view seat.new ≡ with_seat (seat_view seat.old) (seat_view other)) }
    {
        let BoardSeat {
            seat: other,
            number: _,
            held: _,
            list: _,
        } = other;
        self.table.shared.join_seat::<Both>(&mut seat.seat, other);
    }
}

// Takes the values out of the slots of a table that is closed, in order of places.
fn take_all<T: Named>(
    _before: &Snapshot<Board<T>>,
    closed: Closed<Option<T>, Global>,
    list: Vec<T>,
    places: usize,
) -> Vec<T>
    requires list { (vec_len list ≡ 0) × (places ≤ vec_capacity list) × (places ≡ length (opening_of _before.now.value)) }
    requires slots { IsFull closed.slots × (slots_len closed.slots ≡ places) }
    requires values { (k : ℕ) → k < places → HasValue T.name (opening_of _before.now.value) (slots_items closed.slots) k }
    ensures { map T.name result.items ≡ map T.name (opening_of _before.now.value) }
{
    let mut closed = closed;
    let mut list = list;
    for place in 0..places {
        list.push_reserved(closed.take(place).unwrap());
    }
    closed.free();
    list
}
