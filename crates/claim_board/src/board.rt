// The board, and the calls that threads make between its making and its closing.
ghost use Rattle.claim_board.specs.Rule.{halt_word_of, word_count_of};
ghost use Rattle.std.specs.Prelude.{◌≡◌, ◌<◌, length};

use crate::rule::{Claim, Halt, Look, OfBoard, Opening, Release};
use crate::seat::BoardSeat;
use crate::view::{Named, SeatView};
use atomic_table::Table;
use std::alloc::Global;

/// Another seat had the place.
#[derive(Clone, Copy, Debug, PartialEq, Eq)]
pub struct Taken {
    /// The number of the seat that had it, from 1.
    pub owner: u64,
}

/// Values at places 0, 1, .., each at home or with the one seat that claimed its place.
///
/// A value has the name that the value with which the board began had at this place.
#[derive(Drop)]
pub struct Board<T: Named> {
    pub(crate) table: Table<Option<T>, SeatView<T>, Opening<T>, OfBoard<T>, Global>,
    pub(crate) places: usize,
    // The place of the halt word among the words.
    pub(crate) halt_word: usize,
    ghost halt_place: { halt_word ≡ halt_word_of places },
    ghost word_count: { table.shared.table_id.words ≡ word_count_of places },
    ghost slot_count: { table.shared.table_id.slots ≡ places },
    ghost value_count: { length table.shared.key.values.value.items ≡ places },
    ghost seated: { 0 < table.shared.key.seats },
}

impl<T: Named> Board<T> {
    ghost use Rattle.std.specs.Prelude.{true, false, IsTrue, ◌↔◌, IsOk, IfOk, IfErr};
    ghost use Rattle.claim_board.specs.Lists.{is_in};
    ghost use Rattle.claim_board.specs.Rule.{IsNamedAt};
    ghost use Rattle.claim_board.specs.Steps.{with_place, without_place, with_loss, with_load, with_halt, IsAnothers};
    ghost use Rattle.claim_board.specs.Board.{seat_view, opening_of, seats_of, IsSeatOf, Holds};

    /// Claims a place that this seat doesn't hold, and gives its value.
    ///
    /// It tries once: [`Taken`] tells the seat whose number the claim word was at that moment. A
    /// board of one seat never answers it. Takes no memory and doesn't wait.
    pub fn take(&self, seat: &mut BoardSeat<T>, place: usize) -> Result<T, Taken>
        requires seat { IsSeatOf self.now seat.old }
        requires place { place < length (opening_of self.now) }
        requires free { is_in place (seat_view seat.old).holds ≡ false }
        ensures seat { IsSeatOf self.now seat.new }

        // The claim was won: the value has the place's name, and the seat holds the place.
        ensures named { IfOk result (λ x. IsNamedAt T.name (opening_of self.now) place x) }
        ensures won { IfOk result (λ x. seat_view seat.new ≡ with_place place (seat_view seat.old)) }

        // It was lost: the seat knows of one more lost claim, with this place and this owner.
        ensures owner { IfErr result (λ t. IsAnothers (seat_view seat.old) t.owner) }
        ensures lost { IfErr result (λ t. seat_view seat.new ≡ with_loss place t.owner (seat_view seat.old)) }
        ensures alone { seats_of self.now ≡ 1 → IsOk result }
    {
        let shared = &self.table.shared;
        let number = seat.number;
        let found = shared.compare_exchange::<Claim>(&mut seat.seat, place, 0, number);
        if found != 0 {
            return Err(Taken { owner: found });
        }
        let value = shared.exchange(&mut seat.seat, place, None).unwrap();
        seat.held.push_front_reserved(place);
        Ok(value)
    }

    /// Gives a place back that this seat holds, with a value of the place's name.
    ///
    /// Takes no memory and doesn't wait.
    pub fn give(&self, seat: &mut BoardSeat<T>, place: usize, value: T)
        requires seat { IsSeatOf self.now seat.old }
        requires holds { Holds seat.old place }
        requires name { IsNamedAt T.name (opening_of self.now) place value }
        ensures seat { IsSeatOf self.now seat.new }
        ensures view { seat_view seat.new ≡ without_place place (seat_view seat.old) }
    {
        let shared = &self.table.shared;
        seat.turn_to(place);
        drop(shared.exchange(&mut seat.seat, place, Some(value)));
        shared.store::<Release>(&mut seat.seat, place, 0);
        seat.held.pop_front();
    }

    /// Sets the halt word, for good.
    ///
    /// Takes no memory and doesn't wait.
    pub fn halt(&self, seat: &mut BoardSeat<T>)
        requires { IsSeatOf self.now seat.old }
        ensures seat { IsSeatOf self.now seat.new }
        ensures view { seat_view seat.new ≡ with_halt (seat_view seat.old) }
    {
        let shared = &self.table.shared;
        shared.store::<Halt>(&mut seat.seat, self.halt_word, 1);
    }

    /// Whether the halt word is set, by one load.
    ///
    /// Once this seat has set it or was told so, the answer stays true. Takes no memory and
    /// doesn't wait.
    pub fn halted(&self, seat: &mut BoardSeat<T>) -> bool
        requires { IsSeatOf self.now seat.old }
        ensures seat { IsSeatOf self.now seat.new }

        // The seat knows of one more load, and what it found.
        ensures view { seat_view seat.new ≡ with_load (seat_view seat.new).last_load (seat_view seat.old) }
        ensures yes { IsTrue result ↔ ((seat_view seat.new).last_load ≡ 1) }
        ensures no { (result ≡ false) ↔ ((seat_view seat.new).last_load ≡ 0) }
        ensures stored { (seat_view seat.old).stored ≡ true → IsTrue result }
        ensures again { (seat_view seat.old).last_load ≡ 1 → IsTrue result }
    {
        let shared = &self.table.shared;
        shared.load::<Look>(&mut seat.seat, self.halt_word) == 1
    }
}
