// Boards of ends of links, by one thread and by two. Threads may send such an end to each other, and may not share one.
ghost use Rattle.std.specs.Prelude.{◌≡◌, ℕ, ◌<◌, [], ◌∷◌, length, IfOk, IfSome, vec_len, slice_index_or};
ghost use Rattle.claim_board.specs.Board.{opening_of, IsSeatOf, HoldsNone, AllHoldNone, AreAll, IsBack};

use claim_board::{Board, BoardSeat, Named, Taken, all_joined_is_alone, each_is_once};
use flux_link::{Outlet, RingOut, ring};
use std::alloc::Global;
use std::sync::atomic::{AtomicU64, Ordering};
use std::test::Fail;
use std::thread;
use std::thread::Threads;
use tuple_edge::{Body, OutOfMemory, Packet};

// A value whose name is its number, how many turns it has had, and the end of a link on which each turn is told as long
// as there is room.
#[derive(Drop)]
struct Value {
    number: u64,
    turns: u64,
    outlet: RingOut,
}

impl Named for Value {
    ghost Name = { ℕ };

    ghost name = { λ v. v.number };
}

// A value that has had no turn.
fn new_value(alloc: Global, number: u64) -> Result<Value, OutOfMemory> {
    let (outlet, _inlet) = ring(alloc)?;
    Ok(Value {
        number,
        turns: 0,
        outlet,
    })
}

// Values by number from 0.
fn values(alloc: Global, count: u64) -> Result<Vec<Value>, OutOfMemory>
    ensures { IfOk result (λ made. vec_len made ≡ count) }
{
    let mut made = Vec::new(alloc);
    for number in 0..count {
        made.push(new_value(alloc, number)?)?;
    }
    Ok(made)
}

// The two seats of a board of two.
fn pair(
    _board: &Board<Value>,
    seats: Vec<BoardSeat<Value>>,
) -> Option<(BoardSeat<Value>, BoardSeat<Value>)>
    requires { AreAll _board.now seats.items × AllHoldNone seats.items }
    ensures { IfSome result (λ p. AreAll _board.now (p.0 ∷ p.1 ∷ []) × AllHoldNone (p.0 ∷ p.1 ∷ [])) }
{
    let mut seats = seats;
    let second = seats.pop()?;
    let first = seats.pop()?;
    if !seats.is_empty() {
        return None;
    }
    Some((first, second))
}

// The first seat takes place 0, the second one tries, the first gives, the second takes and gives.
fn hand_over(
    board: &Board<Value>,
    first: &mut BoardSeat<Value>,
    second: &mut BoardSeat<Value>,
) -> Option<Taken>
    requires place { 0 < length (opening_of board.now) }
    requires seats { AreAll board.now (first.old ∷ second.old ∷ []) × AllHoldNone (first.old ∷ second.old ∷ []) }
    ensures { IfSome result (λ _. AreAll board.now (first.new ∷ second.new ∷ []) × AllHoldNone (first.new ∷ second.new ∷ [])) }
{
    let Ok(value) = board.take(first, 0) else {
        return None;
    };
    let Err(taken) = board.take(second, 0) else {
        return None;
    };
    board.give(first, 0, value);
    if !turn(board, second, 0) {
        return None;
    }
    Some(taken)
}

fn packet(at: u64) -> Packet {
    Packet {
        at,
        body: Body::AskBack,
    }
}

// Takes the value of a place, where no one has it, counts and tells the turn, and gives it back.
fn turn(board: &Board<Value>, seat: &mut BoardSeat<Value>, place: usize) -> bool
    requires seat { IsSeatOf board.now seat.old × HoldsNone seat.old }
    requires place { place < length (opening_of board.now) }
    ensures { IsBack board.now seat.old seat.new }
{
    match board.take(seat, place) {
        Ok(mut value) => {
            value.turns = value.turns.wrapping_add(1);
            let _told = value.outlet.send(packet(value.turns));
            board.give(seat, place, value);
            true
        }
        Err(_) => false,
    }
}

// Tries each of ten places some hundred times, and counts the claims won.
fn turns(board: &Board<Value>, seat: &mut BoardSeat<Value>, won: &AtomicU64)
    requires seat { IsSeatOf board.now seat.old × HoldsNone seat.old }
    requires places { length (opening_of board.now) ≡ 10 }
    ensures { IsBack board.now seat.old seat.new }
{
    for step in 0..4000usize {
        if turn(board, seat, step % 10) {
            won.fetch_add(1, Ordering::SeqCst);
        }
    }
}

// The turns of one thread, which may set the halt word at the end.
fn work(board: &Board<Value>, seat: &mut BoardSeat<Value>, won: &AtomicU64, halts: bool)
    requires seat { IsSeatOf board.now seat.old × HoldsNone seat.old }
    requires places { length (opening_of board.now) ≡ 10 }
    ensures { IsBack board.now seat.old seat.new }
{
    turns(board, seat, won);
    if halts {
        board.halt(seat);
    }
}

// Each seat in a thread of its own. The first one sets the halt word.
fn work_of_each<R: Threads + Sync>(
    rt: &R,
    board: &Board<Value>,
    seats: &mut [BoardSeat<Value>],
    won: &AtomicU64,
)
    requires places { length (opening_of board.now) ≡ 10 }
    requires seats { AreAll board.now seats.old × AllHoldNone seats.old }
    ensures { (i : ℕ) (d : _) → i < length seats.old → IsBack board.now (slice_index_or seats.old i d) (slice_index_or seats.new i d) }
{
    thread::for_each_mut(
        rt,
        seats,
        2,
        &|index: usize, seat: &mut BoardSeat<Value>|
            requires { (IsSeatOf board.now seat.old × HoldsNone seat.old) × (length (opening_of board.now) ≡ 10) }
            ensures { IsBack board.entry.now seat.old seat.new }
        { work(board, seat, won, index == 0) },
    );
}

// The same, of all seats of the board.
fn work_of_all<R: Threads + Sync>(
    rt: &R,
    board: &Board<Value>,
    seats: &mut Vec<BoardSeat<Value>>,
    won: &AtomicU64,
)
    requires places { length (opening_of board.now) ≡ 10 }
    requires seats { AreAll board.now seats.old.items × AllHoldNone seats.old.items }
    ensures { AreAll board.now seats.new.items × AllHoldNone seats.new.items }
{
    work_of_each(rt, board, seats.as_mut_slice(), won);
}

// Whether both seats see that the halt word is set.
fn both_see(
    board: &Board<Value>,
    first: &mut BoardSeat<Value>,
    second: &mut BoardSeat<Value>,
) -> bool
    requires { AreAll board.now (first.old ∷ second.old ∷ []) × AllHoldNone (first.old ∷ second.old ∷ []) }
    ensures { AreAll board.now (first.new ∷ second.new ∷ []) × AllHoldNone (first.new ∷ second.new ∷ []) }
{
    let second_sees = board.halted(second);
    let first_sees = board.halted(first);
    second_sees & first_sees
}

// The one value of a board, which has had one turn.
fn had_one_turn(back: &[Value]) -> bool {
    match back {
        [value] => value.number == 0 && value.turns == 1,
        _ => false,
    }
}

#[test]
fn one_seat_after_the_other(rt: HostRuntime) -> Result<(), Fail> {
    let (board, seats) = Board::new(rt.alloc(), values(rt.alloc(), 1)?, 2)?;
    let (mut first, mut second) = pair(&board, seats).expect(&rt, "two seats");
    let taken = hand_over(&board, &mut first, &mut second).expect(&rt, "as told");
    let halted = both_see(&board, &mut first, &mut second);
    let back = board.close(vec![in rt.alloc(); first, second]?);
    assert!(rt; taken.owner == 1 && !halted);
    assert!(rt; had_one_turn(&back));
    each_is_once::<Value>();
    all_joined_is_alone::<Value>();
    Ok(())
}

// All turns of the ten values of a board, if each has its number, and if its link is full where it told of so many turns.
fn turns_of_ten(back: &mut [Value]) -> Option<u64> {
    let mut turns = 0u64;
    if back.len() != 10 {
        return None;
    }
    for (number, value) in back.iter_mut().enumerate() {
        let is_full = value.outlet.send(packet(0)).is_err();
        if value.number != number as u64 || is_full != (value.turns >= 128) {
            return None;
        }
        turns = turns.wrapping_add(value.turns);
    }
    Some(turns)
}

#[test]
fn two_threads_give_all_back(rt: HostRuntime) -> Result<(), Fail> {
    let (board, mut seats) = Board::new(rt.alloc(), values(rt.alloc(), 10)?, 2)?;
    let won = AtomicU64::new(0);
    work_of_all(&rt, &board, &mut seats, &won);
    let (mut first, mut second) = pair(&board, seats).expect(&rt, "two seats");
    let halted = both_see(&board, &mut first, &mut second);
    let mut back = board.close(vec![in rt.alloc(); first, second]?);
    let won = won.load(Ordering::SeqCst);
    assert!(rt; halted && won > 0);
    assert!(rt; turns_of_ten(&mut back) == Some(won));
    Ok(())
}

fn want_of_memory(alloc: Global) -> Result<String, OutOfMemory> {
    let error = OutOfMemory;
    Ok(format!(in alloc; "{error}")?)
}

#[test]
fn want_of_memory_says_so(rt: HostRuntime) -> Result<(), Fail> {
    assert!(rt; want_of_memory(rt.alloc())?.as_str() == "out of memory");
    Ok(())
}
