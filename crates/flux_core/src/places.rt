// Where a node stands among those of its plan.
ghost use Rattle.plan_nodes.specs.NodeOrder.{nodes_of};
ghost use Rattle.plan_reader.specs.Nodes.{has_node, has_pair};
ghost use Rattle.std.specs.Prelude.{◌≡◌, ◌<◌, ◌+◌, ◌*◌, ◌-◌, ◌^◌, IsTrue, Some, length, map, slice_get, sum, take};

use plan_reader::Plan;
use tuple_edge::{NodeId, Which};

// Where the nodes of a pair begin: behind ingress, and behind the three of each pair before it.
fn pair_place(plan: &Plan, stage: u32, part: u32) -> usize
    requires { IsTrue (has_pair plan.now stage part) }
    ensures value { result ≡ 1 + 3 * (sum (map (λ s. s.parts) (take (stage - 1) plan.now.stages)) + part) }
    ensures small { result < 2 ^ 40 }
{
    let mut before = 0;
    let earlier = &plan.stages()[..stage as usize - 1];
    for one in earlier {
        before += one.parts as usize;
    }
    1 + 3 * (before + part as usize)
}

// The place of a node of the plan, of so many nodes.
pub(crate) fn place_of(plan: &Plan, count: usize, node: NodeId) -> usize
    requires there { IsTrue (has_node plan.now node) }
    requires count { count ≡ length (nodes_of plan.now) }
    ensures { slice_get (nodes_of plan.now) result ≡ Some node }
{
    match node {
        NodeId::Ingress => 0,
        NodeId::Replica { stage, part, which } => {
            let first = pair_place(plan, stage, part);
            match which {
                Which::A => first,
                Which::B => first + 1,
            }
        }
        NodeId::Control { stage, part } => pair_place(plan, stage, part) + 2,
        // Egress stands last.
        NodeId::Egress => count - 1,
    }
}
