// What a plan has where its partitions run as groups.
ghost use Rattle.std.specs.Prelude.{◌≡◌};
ghost use Rattle.plan_reader.specs.Nodes.{has_node};
ghost use Rattle.trio_text.specs.Nodes.{carries_some, has_trio_edge, has_trio_link, has_trio_node, has_trio_replica, place_of};

use plan_reader::Plan;
use trio_machine::TrioNode;
use tuple_edge::{NodeId, Which};

// How many replicas a partition has.
const GROUP_SIZE: u32 = 3;

// The node of pairs in whose place a node of groups stands.
fn place_of(node: TrioNode) -> NodeId
    ensures { result ≡ place_of node }
{
    match node {
        TrioNode::Ingress => NodeId::Ingress,
        TrioNode::Replica { stage, part, .. } => NodeId::Replica {
            stage,
            part,
            which: Which::A,
        },
        TrioNode::Control { stage, part } => NodeId::Control { stage, part },
        TrioNode::Egress => NodeId::Egress,
    }
}

// Whether a plan has this node.
pub(crate) fn has_node(plan: &Plan, node: TrioNode) -> bool
    ensures { result ≡ has_trio_node plan.now node }
{
    match node {
        TrioNode::Replica { copy, .. } => copy < GROUP_SIZE && plan.has(place_of(node)),
        TrioNode::Ingress | TrioNode::Control { .. } | TrioNode::Egress => plan.has(place_of(node)),
    }
}

// Whether a plan has this node, and it is a replica.
pub(crate) fn has_replica(plan: &Plan, node: TrioNode) -> bool
    ensures { result ≡ has_trio_replica plan.now node }
{
    match node {
        TrioNode::Replica { .. } => has_node(plan, node),
        TrioNode::Ingress | TrioNode::Control { .. } | TrioNode::Egress => false,
    }
}

// Whether an edge leads from one node to another.
pub(crate) fn has_edge(plan: &Plan, from: TrioNode, to: TrioNode) -> bool
    ensures { result ≡ has_trio_edge plan.now from to }
{
    has_node(plan, from) && has_node(plan, to) && plan.has_edge(place_of(from), place_of(to))
}

// Whether something goes between the places of two nodes.
fn carries_some(plan: &Plan, from: NodeId, to: NodeId) -> bool
    ensures { result ≡ carries_some plan.now from to }
{
    let last = plan.stages().len();
    match (from, to) {
        (NodeId::Ingress, NodeId::Replica { stage, .. }) => stage == 1,
        (NodeId::Replica { stage, .. }, NodeId::Replica { stage: next, .. }) => {
            u64::from(next) == u64::from(stage) + 1
        }
        (
            NodeId::Replica { stage, part, .. },
            NodeId::Control {
                stage: of,
                part: by,
            },
        ) => { stage == of && part == by }
        (NodeId::Replica { stage, .. }, NodeId::Egress) => stage as usize == last,
        (NodeId::Control { stage, .. }, NodeId::Ingress) => stage == 1,
        (
            NodeId::Control { stage, part },
            NodeId::Replica {
                stage: of,
                part: by,
                ..
            },
        ) => { u64::from(stage) == u64::from(of) + 1 || stage == of && part == by }
        (NodeId::Egress, NodeId::Replica { stage, .. }) => stage as usize == last,
        _ => false,
    }
}

// Whether a plan has a link between two nodes.
pub(crate) fn has_link(plan: &Plan, from: TrioNode, to: TrioNode) -> bool
    ensures { result ≡ has_trio_link plan.now from to }
{
    has_node(plan, from) && has_node(plan, to) && carries_some(plan, place_of(from), place_of(to))
}
