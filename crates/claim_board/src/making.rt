// The making of a board with its seats, which alone takes memory.
ghost use Rattle.std.specs.Prelude.{◌≡◌, ◌+◌, ◌<◌, ◌≤◌, true, [], length, map, IfOk, Some, vec_len, vec_capacity};
ghost use Rattle.std.specs.VecDeque.{deque_capacity};

use crate::board::Board;
use crate::rule::{Next, Opening};
use crate::seat::BoardSeat;
use crate::view::Named;
use atomic_table::{Refused, Table};
use std::alloc::Global;
use std::collections::VecDeque;
use std::snapshot::Snapshot;
use tuple_edge::OutOfMemory;

// So many words that nobody uses stand before the halt word, and behind it, so that no store to a claim word takes its line
// from the caches of those that look at it.
const SPARE_WORDS: usize = 15;

impl<T: Named> Board<T> {
    ghost use Rattle.claim_board.specs.Steps.{first_seat, with_next, next_seat};
    ghost use Rattle.claim_board.specs.Board.{seat_view, opening_of, seats_of, IsSeatOf, AllHoldNone, AreAll, AreNew};

    /// A board with these values at the places 0, 1, .., and its seats by rising number from 1.
    ///
    /// Their names are the names of the places for good. `OutOfMemory` gives the values up.
    pub fn new(
        alloc: Global,
        items: Vec<T>,
        seats: u32,
    ) -> Result<(Board<T>, Vec<BoardSeat<T>>), OutOfMemory>
        requires item { 0 < vec_len items }
        requires seat { 0 < seats }
        ensures values { IfOk result (λ made. opening_of made.0 ≡ items.items) }
        ensures count { IfOk result (λ made. (seats_of made.0 ≡ seats) × (vec_len made.1 ≡ seats)) }
        ensures seats { IfOk result (λ made. AreNew made.0 made.1.items) }
        ensures all { IfOk result (λ made. AreAll made.0 made.1.items) }
        ensures home { IfOk result (λ made. AllHoldNone made.1.items) }
    {
        let opening = Opening {
            values: Snapshot::of(&items),
            seats,
        };
        let places = items.len();
        let halt_word = places + SPARE_WORDS;
        let words = vec![in alloc; 0u64; halt_word + 1 + SPARE_WORDS]?;
        let list = Vec::with_capacity(alloc, places)?;
        let held = VecDeque::with_capacity(alloc, places)?;
        let slots = slots_of(alloc, items)?;
        let (table, seat) = match Table::new(alloc, words.as_slice(), slots, &opening) {
            Ok(made) => made,
            Err(Refused { slots: _ }) => return Err(OutOfMemory),
        };
        let board = Board {
            table,
            places,
            halt_word,
        };
        let first = BoardSeat {
            seat,
            number: 1,
            held,
            list,
        };
        let all = board.all_seats(alloc, first, seats)?;
        Ok((board, all))
    }

    // The first seat, and the others, which are split off it one after another.
    fn all_seats(
        &self,
        alloc: Global,
        mut first: BoardSeat<T>,
        count: u32,
    ) -> Result<Vec<BoardSeat<T>>, OutOfMemory>
        requires count { (0 < count) × (count ≡ seats_of self.now) }
        requires first { IsSeatOf self.now first × (seat_view first ≡ first_seat (opening_of self.now) (seats_of self.now) 1) }
        ensures count { IfOk result (λ all. vec_len all ≡ count) }
        ensures seats { IfOk result (λ all. AreNew self.now all.items) }
        ensures all { IfOk result (λ all. AreAll self.now all.items) }
        ensures home { IfOk result (λ all. AllHoldNone all.items) }
    {
        let mut all = Vec::with_capacity(alloc, count as usize)?;
        for made in 1..count {
            let held = VecDeque::with_capacity(alloc, self.places)?;
            let list = Vec::with_capacity(alloc, self.places)?;
            let next = self.split(&mut first, held, list, made as u64 + 1);
            all.push_reserved(next);
        }
        all.push_reserved(first);
        all.rotate_right(1);
        Ok(all)
    }

    // Splits off the seat of the next number.
    fn split(
        &self,
        seat: &mut BoardSeat<T>,
        held: VecDeque<usize>,
        list: Vec<T>,
        number: u64,
    ) -> BoardSeat<T>
        requires seat { IsSeatOf self.now seat.old × ((seat_view seat.old).makes ≡ true) }
        requires number { (number ≡ (seat_view seat.old).made + 1) × (number ≤ seats_of self.now) }
        requires held { (held.items ≡ []) × (length (opening_of self.now) ≤ deque_capacity held) }
        requires list { (vec_len list ≡ 0) × (length (opening_of self.now) ≤ vec_capacity list) }
        ensures seat { IsSeatOf self.now seat.new × (seat_view seat.new ≡ with_next (seat_view seat.old)) }
        ensures other { IsSeatOf self.now result × (seat_view result ≡ next_seat (seat_view seat.old)) }
    {
        let seat = self.table.shared.split_seat::<Next>(&mut seat.seat);
        BoardSeat {
            seat,
            number,
            held,
            list,
        }
    }
}

// Each value in a slot.
fn slots_of<T: Drop>(alloc: Global, items: Vec<T>) -> Result<Vec<Option<T>>, OutOfMemory>
    ensures { IfOk result (λ slots. slots.items ≡ map Some items.items) }
{
    Ok(items.into_iter().map(Some).collect(alloc)?)
}
