// The names of nodes and edges.
ghost use Rattle.std.specs.Prelude.{◌≡◌};
ghost use Rattle.tuple_edge.specs.declared.node.NodeId.TheVariants as node;

use tuple_edge::{EdgeId, NodeId, Which};

/// Replica A of the first partition of the first stage.
pub const A: NodeId = NodeId::Replica {
    stage: 1,
    part: 0,
    which: Which::A,
};

/// Replica B beside it.
pub const B: NodeId = NodeId::Replica {
    stage: 1,
    part: 0,
    which: Which::B,
};

/// Their controller.
pub const CONTROL: NodeId = NodeId::Control { stage: 1, part: 0 };

/// The edge from the first source to their partition.
pub const FIRST_EDGE: EdgeId = EdgeId {
    stage: 0,
    from: 0,
    to: 0,
};

/// A replica of a partition.
pub fn replica(stage: u32, part: u32, which: Which) -> NodeId
    ensures { result ≡ node.Replica stage part which }
{
    NodeId::Replica { stage, part, which }
}

/// The controller of a partition.
pub fn control(stage: u32, part: u32) -> NodeId
    ensures { result ≡ node.Control stage part }
{
    NodeId::Control { stage, part }
}
