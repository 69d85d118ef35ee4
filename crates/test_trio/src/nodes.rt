// The nodes of the run.
ghost use Rattle.std.specs.Prelude.{◌≤◌, IfSome, IsTrue, length};
ghost use Rattle.trio_core.specs.CoreView.{flow_in};
ghost use Rattle.trio_machine.specs.Links.{HasNode};

use trio_core::TrioCore;
use trio_nodes::{GROUP_SIZE, TrioControl, TrioNode, TrioReplica};
use trio_text::nodes_are_the_plans;
use tuple_edge::{NodeId, Which};

/// All of them.
pub(crate) const NODES: [TrioNode; 6] = [
    TrioNode::Ingress,
    TrioNode::Replica {
        stage: 1,
        part: 0,
        copy: 0,
    },
    TrioNode::Replica {
        stage: 1,
        part: 0,
        copy: 1,
    },
    TrioNode::Replica {
        stage: 1,
        part: 0,
        copy: 2,
    },
    TrioNode::Control { stage: 1, part: 0 },
    TrioNode::Egress,
];

/// Whether the plan has a node.
pub(crate) fn has(core: &TrioCore, node: TrioNode) -> bool
    ensures { IsTrue result → HasNode (flow_in core.now) node }
{
    nodes_are_the_plans();
    match node {
        TrioNode::Replica { stage, part, copy } => {
            let which = Which::A;
            copy < GROUP_SIZE && core.plan().has(NodeId::Replica { stage, part, which })
        }
        TrioNode::Control { stage, part } => core.plan().has(NodeId::Control { stage, part }),
        TrioNode::Ingress | TrioNode::Egress => true,
    }
}

/// A replica of the group.
pub(crate) fn replica_of(core: &TrioCore, copy: u32) -> Option<&TrioReplica> {
    let (stage, part) = (1, 0);
    if copy >= GROUP_SIZE || !core.plan().has(NodeId::Control { stage, part }) {
        return None;
    }
    Some(core.replica(stage, part, copy))
}

/// The controller of the group.
pub(crate) fn control_of(core: &TrioCore) -> Option<&TrioControl>
    ensures { IfSome result (λ c. 1 ≤ length c.now.acked) }
{
    let (stage, part) = (1, 0);
    if !core.plan().has(NodeId::Control { stage, part }) {
        return None;
    }
    core.known();
    Some(core.control(stage, part))
}
