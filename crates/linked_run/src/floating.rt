// The fork of the workers, and what comes back.
ghost use Rattle.claim_board.specs.Board.{AllHoldNone, AreAll, HoldsNone, IsBack, IsSeatOf, opening_of};
ghost use Rattle.run_node.specs.NodeView.{name_of};
ghost use Rattle.std.specs.Prelude.{◌≡◌, ◌<◌, ℕ, All, length, map, slice_index_or};

use crate::gate::Gate;
use crate::worker::{Shared, work};
use claim_board::{Board, BoardSeat};
use event_log::Keeps;
use node_tasks::Acts;
use run_node::{Draws, Links, Node, RunNames};
use std::thread;
use std::thread::Threads;
use tuple_edge::MAX_THREADS;

// Each seat in a thread of its own.
fn work_each<
    N: RunNames,
    A: Acts + Send,
    K: Keeps + Send,
    M: Links,
    T: Draws + Send,
    R: Threads + Sync,
    G: Gate,
>(
    rt: &R,
    board: &Board<Node<N, A, K, M, T>>,
    seats: &mut [BoardSeat<Node<N, A, K, M, T>>],
    nodes: usize,
    shared: &Shared<'_, G>,
)
    requires places { (0 < nodes) × (length (opening_of board.now) ≡ nodes) }
    requires seats { All (λ s. IsSeatOf board.now s × HoldsNone s) seats.old }
    requires script { shared.now.script.now ≡ N.script }
    ensures { (i : ℕ) (d : _) → i < length seats.old → IsBack board.now (slice_index_or seats.old i d) (slice_index_or seats.new i d) }
{
    let threads = seats.len();
    if threads == 0 {
        return;
    }
    thread::for_each_mut(
        rt,
        seats,
        threads,
        &|index: usize, seat: &mut BoardSeat<Node<N, A, K, M, T>>|
            requires { (IsSeatOf board.now seat.old × HoldsNone seat.old) × ((0 < nodes) × (length (opening_of board.now) ≡ nodes)) × (shared.now.script.now ≡ N.script) }
            ensures { IsBack board.entry.now seat.old seat.new }
        {
            // The remainder is the index itself. It shows that the cast loses nothing.
            let worker = (index % MAX_THREADS as usize) as u32;
            work(board, seat, worker, nodes, shared)
        },
    );
}

// The same, of all seats of the board.
fn work_all<
    N: RunNames,
    A: Acts + Send,
    K: Keeps + Send,
    M: Links,
    T: Draws + Send,
    R: Threads + Sync,
    G: Gate,
>(
    rt: &R,
    board: &Board<Node<N, A, K, M, T>>,
    seats: &mut Vec<BoardSeat<Node<N, A, K, M, T>>>,
    nodes: usize,
    shared: &Shared<'_, G>,
)
    requires places { (0 < nodes) × (length (opening_of board.now) ≡ nodes) }
    requires seats { AreAll board.now seats.old.items × AllHoldNone seats.old.items }
    requires script { shared.now.script.now ≡ N.script }
    ensures { AreAll board.now seats.new.items × AllHoldNone seats.new.items }
{
    work_each(rt, board, seats.as_mut_slice(), nodes, shared);
}

/// Turns the nodes of a board, each seat in a thread, and gives them back in their order with their names.
pub(crate) fn float<
    N: RunNames,
    A: Acts + Send,
    K: Keeps + Send,
    M: Links,
    T: Draws + Send,
    R: Threads + Sync,
    G: Gate,
>(
    rt: &R,
    board: Board<Node<N, A, K, M, T>>,
    seats: Vec<BoardSeat<Node<N, A, K, M, T>>>,
    nodes: usize,
    shared: &Shared<'_, G>,
) -> Vec<Node<N, A, K, M, T>>
    requires places { (0 < nodes) × (length (opening_of board) ≡ nodes) }
    requires seats { AreAll board seats.items × AllHoldNone seats.items }
    requires script { shared.now.script.now ≡ N.script }
    ensures { map (name_of A.id) result.items ≡ map (name_of A.id) (opening_of board) }
{
    let mut seats = seats;
    work_all(rt, &board, &mut seats, nodes, shared);
    board.close(seats)
}
