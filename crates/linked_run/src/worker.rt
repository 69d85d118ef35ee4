// A worker: it tries the places of the board one after another, and turns the nodes that it gets.
ghost use Rattle.claim_board.specs.Board.{HoldsNone, IsBack, IsSeatOf, opening_of};
ghost use Rattle.std.specs.Prelude.{◌≡◌, ◌<◌, length};

use crate::gate::Gate;
use claim_board::{Board, BoardSeat};
use crossbeam_utils::CachePadded;
use event_log::Keeps;
use failure_script::Script;
use node_tasks::Acts;
use plan_reader::Plan;
use run_node::{Draws, Links, Node, RunNames};
use std::hint::spin_loop;
use std::sync::atomic::AtomicBool;
use std::sync::atomic::Ordering::SeqCst;

// What came of a turn.
enum Turned {
    // The node did something.
    Did,
    // The place was taken, or the node did nothing.
    Idle,
    // The run is over: a node says so, or there was no memory.
    Over,
}

// The number of a worker's turn, and how many turns in a row were idle.
#[derive(Drop)]
struct Counts {
    turns: u64,
    idle: u64,
}

/// What all workers of a run share, beside the board.
#[derive(Drop)]
pub struct Shared<'a, G: Gate> {
    pub plan: &'a Plan,
    pub script: &'a Script,
    pub gate: &'a G,
    /// How many turns each worker has at most.
    pub turns: u64,
    /// Whether a worker found no memory.
    pub failed: AtomicBool,
}

// Takes a node, where no other worker has it, gives it a turn and puts it back.
fn turn_at<N: RunNames, A: Acts + Send, K: Keeps + Send, M: Links, T: Draws + Send, G: Gate>(
    board: &Board<Node<N, A, K, M, T>>,
    seat: &mut BoardSeat<Node<N, A, K, M, T>>,
    place: usize,
    shared: &Shared<'_, G>,
) -> Turned
    requires seat { IsSeatOf board.now seat.old × HoldsNone seat.old }
    requires place { place < length (opening_of board.now) }
    requires script { shared.now.script.now ≡ N.script }
    ensures { IsBack board.now seat.old seat.new }
{
    let Ok(mut node) = board.take(seat, place) else {
        return Turned::Idle;
    };
    let result = node.turn(shared.plan, shared.script);
    let done = node.is_done();
    board.give(seat, place, node);
    match result {
        Err(_) => {
            shared.failed.store(true, SeqCst);
            Turned::Over
        }
        Ok(_) if done => Turned::Over,
        Ok(true) => Turned::Did,
        Ok(false) => Turned::Idle,
    }
}

// Looks at the halt word, the more often the longer there was nothing to do. Whether it is set.
fn look<N: RunNames, A: Acts + Send, K: Keeps + Send, M: Links, T: Draws + Send>(
    board: &Board<Node<N, A, K, M, T>>,
    seat: &mut BoardSeat<Node<N, A, K, M, T>>,
    idle: u64,
) -> bool
    requires { IsSeatOf board.now seat.old × HoldsNone seat.old }
    ensures { IsBack board.now seat.old seat.new }
{
    let looks = 1u64 << idle.min(8);
    for _ in 0..looks {
        if board.halted(seat) {
            return true;
        }
        spin_loop();
    }
    false
}

/// The turns of one worker: in turn number k it tries the place of its own number and k. It ends after
/// its turns, or where the halt word is set. Once it found nothing to do at any place it rests after each
/// idle turn, since another thread may have to run before there is, and it ends where it isn't to go on then.
pub(crate) fn work<
    N: RunNames,
    A: Acts + Send,
    K: Keeps + Send,
    M: Links,
    T: Draws + Send,
    G: Gate,
>(
    board: &Board<Node<N, A, K, M, T>>,
    seat: &mut BoardSeat<Node<N, A, K, M, T>>,
    worker: u32,
    nodes: usize,
    shared: &Shared<'_, G>,
)
    requires seat { IsSeatOf board.now seat.old × HoldsNone seat.old }
    requires places { (0 < nodes) × (length (opening_of board.now) ≡ nodes) }
    requires script { shared.now.script.now ≡ N.script }
    ensures { IsBack board.now seat.old seat.new }
{
    let mut padded = CachePadded::new(Counts { turns: 0, idle: 0 });
    let counts: &mut Counts = &mut padded;
    for number in 0..shared.turns {
        counts.turns = number;
        shared.gate.turn(worker, counts.turns);
        let place = (worker as usize).wrapping_add(number as usize) % nodes;
        match turn_at(board, seat, place, shared) {
            Turned::Did => counts.idle = 0,
            Turned::Idle => {
                counts.idle = counts.idle.saturating_add(1);
                if counts.idle >= nodes as u64 && !shared.gate.rest() {
                    board.halt(seat);
                    return;
                }
                if look(board, seat, counts.idle) {
                    return;
                }
            }
            Turned::Over => {
                board.halt(seat);
                return;
            }
        }
    }
}
