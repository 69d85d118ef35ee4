// A run of nodes that are linked: the fork, and what its histories come to.
ghost use Rattle.claim_board.specs.Board.{AllHoldNone, AreAll, opening_of};
ghost use Rattle.linked_run.specs.Linked.{AreDistinct, AreLinked, ids_of};
ghost use Rattle.linked_run.specs.Runs.{AllAdmit, AreSettled, FitTheirTaps, IsRun, TapOfSome, any_tapped, ids_in, parts_in, taps_of};
ghost use Rattle.node_tasks.specs.Timely.{AreTimely};
ghost use Rattle.pair_machine.specs.Lists.{Each};
ghost use Rattle.plan_reader.specs.PlanView.{IsPlan};
ghost use Rattle.run_node.specs.NodeView.{name_of};
ghost use Rattle.run_node.specs.SoundNode.{TapFits};
ghost use Rattle.tuple_edge.specs.Input.{Input};
ghost use Rattle.std.specs.Prelude.{◌≡◌, ◌<◌, ◌≤◌, List, [], false, is_some, length, map, vec_capacity, vec_len};

use crate::floating::float;
use crate::gate::Gate;
use crate::settling::settle_all;
use crate::worker::Shared;
use claim_board::{Board, BoardSeat};
use event_log::Keeps;
use node_tasks::Acts;
use run_node::{Draws, Links, Node, Part, RunNames};
use std::thread::Threads;

// What is left of the nodes, in their order, and the tap of the last one that has one.
fn into_parts<N: RunNames, A: Acts, K: Keeps, M: Links, T: Draws>(
    nodes: Vec<Node<N, A, K, M, T>>,
    parts: Vec<Part<A, K>>,
) -> (Vec<Part<A, K>>, Option<T>)
    requires planned { IsPlan N.plan }
    requires room { (vec_len parts ≡ 0) × (vec_len nodes ≤ vec_capacity parts) }
    requires distinct { AreDistinct (map (name_of A.id) nodes.items) }
    requires settled { AreSettled A.id nodes.items nodes.items }
    ensures run { (inputs : List Input) → AllAdmit A.admits inputs (parts_in K.kept result.0.items) → AreTimely inputs
        → IsRun A.id A.stands N.plan inputs N.script (ids_of (map (name_of A.id) nodes.items)) (parts_in K.kept result.0.items) }
    ensures ids { ids_in A.id (parts_in K.kept result.0.items) ≡ ids_of (map (name_of A.id) nodes.items) }
    ensures tap { TapOfSome T.given A.rows result.1 (parts_in K.kept result.0.items) }
    ensures named { Each (λ p. (K.kept p.history).node ≡ A.id p.state) result.0.items }
    ensures tapped { is_some result.1 ≡ any_tapped (map (name_of A.id) nodes.items) }
    // Each node fits its own tap, and of the taps the last one is left. Where a tap lets no rows go, each node holds all of them.
    ensures taps { FitTheirTaps (TapFits T.lets_go T.given A.rows A.gone) (taps_of (map (name_of A.id) nodes.items)) result.1 (parts_in K.kept result.0.items) }
    ensures held { T.lets_go ≡ false → Each (λ p. A.gone p.0 ≡ []) (parts_in K.kept result.0.items) }
{
    let mut parts = parts;
    let mut tap = None;
    for node in nodes {
        let (part, its) = node.into_part();
        tap = its.or(tap);
        parts.push_reserved(part);
    }
    (parts, tap)
}

/// Runs nodes that are linked: each seat in a thread turns them, and with all of them in one hand the
/// links are settled. The joint course of the histories that this gives is legal and within the script,
/// and each node stands for its numbers in the state that it reaches. With them comes the tap.
pub fn run_linked<
    N: RunNames,
    A: Acts + Send,
    K: Keeps + Send,
    M: Links,
    T: Draws + Send,
    R: Threads + Sync,
    G: Gate,
>(
    rt: &R,
    board: Board<Node<N, A, K, M, T>>,
    seats: Vec<BoardSeat<Node<N, A, K, M, T>>>,
    parts: Vec<Part<A, K>>,
    nodes: usize,
    shared: &Shared<'_, G>,
    links: &mut M,
) -> (Vec<Part<A, K>>, Option<T>)
    requires planned { IsPlan N.plan }
    requires script { shared.now.script.now ≡ N.script }
    requires places { (0 < nodes) × (length (opening_of board) ≡ nodes) }
    requires seats { AreAll board seats.items × AllHoldNone seats.items }
    requires room { (vec_len parts ≡ 0) × (nodes ≤ vec_capacity parts) }
    requires distinct { AreDistinct (map (name_of A.id) (opening_of board)) }
    requires linked { AreLinked (map (name_of A.id) (opening_of board)) (map (name_of A.id) (opening_of board)) }
    ensures run { (inputs : List Input) → AllAdmit A.admits inputs (parts_in K.kept result.0.items) → AreTimely inputs
        → IsRun A.id A.stands N.plan inputs N.script (ids_of (map (name_of A.id) (opening_of board))) (parts_in K.kept result.0.items) }
    ensures ids { ids_in A.id (parts_in K.kept result.0.items) ≡ ids_of (map (name_of A.id) (opening_of board)) }
    ensures tap { TapOfSome T.given A.rows result.1 (parts_in K.kept result.0.items) }
    ensures named { Each (λ p. (K.kept p.history).node ≡ A.id p.state) result.0.items }
    ensures tapped { is_some result.1 ≡ any_tapped (map (name_of A.id) (opening_of board)) }
    // Each node fits its own tap, and of the taps the last one is left. Where a tap lets no rows go, each node holds all of them.
    ensures taps { FitTheirTaps (TapFits T.lets_go T.given A.rows A.gone) (taps_of (map (name_of A.id) (opening_of board))) result.1 (parts_in K.kept result.0.items) }
    ensures held { T.lets_go ≡ false → Each (λ p. A.gone p.0 ≡ []) (parts_in K.kept result.0.items) }
{
    let mut back = float(rt, board, seats, nodes, shared);
    settle_all(links, &mut back);
    into_parts(back, parts)
}
