// Nodes as they open.
ghost use Rattle.pair_control.specs.StandsFor as control;
ghost use Rattle.pair_machine.specs.Counts.{flow_of};
ghost use Rattle.pair_machine.specs.Machine.{new_node};
ghost use Rattle.plan_reader.specs.Nodes.{has_node};
ghost use Rattle.plan_nodes.specs.States.{Admits, AllCame, IsOfPlan, StandsFor, gone_of, id_of, inputs_in};
ghost use Rattle.std.specs.Prelude.{◌≡◌, [], IfOk, IsTrue, List};
ghost use Rattle.trade_text.specs.TradesView.{inputs_in as trades_inputs};
ghost use Rattle.tuple_edge.specs.Input.{Input};
ghost use Rattle.tuple_edge.specs.declared.node.NodeId.TheVariants as node;

use crate::state::NodeState;
use ingress_egress::{Egress, Ingress};
use pair_control::PairControl;
use plan_reader::Plan;
use replica_node::Replica;
use std::alloc::Global;
use trade_text::Trades;
use tuple_edge::{NodeId, OutOfMemory};

/// A node of the plan, as it opens, of a run with these trades: all of them came to ingress.
pub fn opening_state(
    alloc: Global,
    plan: &Plan,
    trades: &Trades,
    id: NodeId,
) -> Result<NodeState, OutOfMemory>
    requires { IsTrue (has_node plan.now id) }
    ensures id { IfOk result (λ s. id_of s ≡ id) }
    ensures of_plan { IfOk result (λ s. IsOfPlan plan.now s) }
    ensures stands { IfOk result (λ s. StandsFor plan.now (trades_inputs trades.now) s (new_node id)) }
    // These may be the inputs, and of ingress no others: they came, and are all.
    ensures admits { IfOk result (λ s. Admits s (trades_inputs trades.now)) }
    ensures only { IfOk result (λ s. id ≡ node.Ingress → (inputs : List Input) → Admits s inputs → inputs ≡ trades_inputs trades.now) }
    ensures inputs { IfOk result (λ s. id ≡ node.Ingress → inputs_in s ≡ trades_inputs trades.now) }
    ensures ended { IfOk result (λ s. AllCame s) }
    // No row was handed on.
    ensures gone { IfOk result (λ s. gone_of s ≡ []) }
{
    match id {
        NodeId::Ingress => Ok(NodeState::Ingress(Ingress::new(alloc, plan, trades)?)),
        NodeId::Replica { .. } | NodeId::Control { .. } | NodeId::Egress => {
            streamed_state(alloc, plan, id)
        }
    }
}

/// A node of the plan, as it opens, of a run to whose ingress inputs come one by one: nothing came yet. So it stands for the
/// opening of every list of inputs.
pub fn streamed_state(alloc: Global, plan: &Plan, id: NodeId) -> Result<NodeState, OutOfMemory>
    requires { IsTrue (has_node plan.now id) }
    ensures id { IfOk result (λ s. id_of s ≡ id) }
    ensures of_plan { IfOk result (λ s. IsOfPlan plan.now s) }
    ensures stands { IfOk result (λ s. (inputs : List Input) → StandsFor plan.now inputs s (new_node id)) }
    ensures admits { IfOk result (λ s. (inputs : List Input) → Admits s inputs) }
    ensures gone { IfOk result (λ s. gone_of s ≡ []) }
{
    match id {
        NodeId::Ingress => Ok(NodeState::Ingress(Ingress::streamed(alloc, plan)?)),
        NodeId::Replica { stage, part, which } => Ok(NodeState::Replica(Replica::new(
            alloc, plan, stage, part, which,
        )?)),
        NodeId::Control { stage, part } => {
            Ok(NodeState::Control(control_of(alloc, plan, stage, part)?))
        }
        NodeId::Egress => Ok(NodeState::Egress(Egress::new(alloc, plan)?)),
    }
}

// The controller of a pair of the plan.
fn control_of(alloc: Global, plan: &Plan, stage: u32, part: u32) -> Result<PairControl, OutOfMemory>
    requires { IsTrue (has_node plan.now (node.Control stage part)) }
    ensures id { IfOk result (λ c. control.node_of c ≡ node.Control stage part) }
    ensures of_plan { IfOk result (λ c. control.IsOfPlan plan.now c) }
    ensures stands { IfOk result (λ c. (inputs : List Input) → control.StandsFor (flow_of plan.now inputs) c (new_node (node.Control stage part))) }
{
    // This call's clause says that a plan is within the limits.
    let _stages = plan.stages();
    let edges = plan.sources(stage);
    PairControl::new(alloc, stage, part, edges)
}
