// The two replicas at the other end of an edge, by the numbers that producers know them by.
ghost use Rattle.node_edges.specs.OutEdges.{copy_of, which_at};
ghost use Rattle.pair_machine.specs.Replicas.{which_of};
ghost use Rattle.std.specs.Prelude.{◌≡◌, ◌<◌};

use tuple_edge::{NodeId, Which};

/// The number of the replica that a node is, at the other end of an edge: 1 of a replica B, else 0.
pub fn copy_of(node: NodeId) -> u32
    ensures value { result ≡ copy_of (which_of node) }
    ensures few { result < 2 }
{
    match node {
        NodeId::Replica {
            which: Which::B,
            ..
        } => 1,
        _ => 0,
    }
}

/// The replica of a number: A of 0, else B.
pub fn which_at(copy: u32) -> Which
    ensures { result ≡ which_at copy }
{
    match copy {
        0 => Which::A,
        _ => Which::B,
    }
}
