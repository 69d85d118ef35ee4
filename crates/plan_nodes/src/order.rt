// The nodes of a plan, in their order.
ghost use Rattle.plan_nodes.specs.NodeOrder.{nodes_before_egress, nodes_in, nodes_of, pair_nodes, stage_nodes};
ghost use Rattle.pair_machine.specs.Counts.{flow_of};
ghost use Rattle.plan_reader.specs.Nodes.{has_node};
ghost use Rattle.std.specs.Prelude.{◌≡◌, ◌++◌, ◌∷◌, [], All, IfOk, IsTrue, List, OnOk};
ghost use Rattle.tuple_edge.specs.Input.{Input};

use plan_reader::Plan;
use std::alloc::Global;
use tuple_edge::{NodeId, OutOfMemory, Which};

/// The nodes of a plan in their order, without egress, which is the last one.
pub fn nodes_before_egress(alloc: Global, plan: &Plan) -> Result<Vec<NodeId>, OutOfMemory>
    ensures { IfOk result (λ ids. ids.items ≡ nodes_before_egress plan.now) }
{
    let mut ids = Vec::new(alloc);
    ids.push(NodeId::Ingress)?;
    let stages = plan.stages();
    for place in 0..stages.len() {
        push_stage(&mut ids, place as u32 + 1, stages[place].parts)?;
    }
    Ok(ids)
}

/// All nodes of a plan, in their order.
pub fn nodes_of(alloc: Global, plan: &Plan) -> Result<Vec<NodeId>, OutOfMemory>
    ensures value { IfOk result (λ ids. ids.items ≡ nodes_of plan.now) }
    ensures machine { IfOk result (λ ids. (inputs : List Input) → ids.items ≡ nodes_in (flow_of plan.now inputs)) }
    ensures there { IfOk result (λ ids. All (λ n. IsTrue (has_node plan.now n)) ids.items) }
{
    let mut ids = nodes_before_egress(alloc, plan)?;
    ids.push(NodeId::Egress)?;
    Ok(ids)
}

// Appends the nodes of a stage.
fn push_stage(ids: &mut Vec<NodeId>, stage: u32, parts: u32) -> Result<(), OutOfMemory>
    ensures { OnOk result (ids.new.items ≡ ids.old.items ++ stage_nodes stage parts) }
{
    for part in 0..parts {
        push_pair(ids, stage, part)?;
    }
    Ok(())
}

// Appends the nodes of a pair.
fn push_pair(ids: &mut Vec<NodeId>, stage: u32, part: u32) -> Result<(), OutOfMemory>
    ensures { OnOk result (ids.new.items ≡ ids.old.items ++ pair_nodes stage part) }
{
    ids.push(NodeId::Replica {
        stage,
        part,
        which: Which::A,
    })?;
    ids.push(NodeId::Replica {
        stage,
        part,
        which: Which::B,
    })?;
    ids.push(NodeId::Control { stage, part })?;
    Ok(())
}
