// The replicas of a plan, in node order.
ghost use Rattle.pair_machine.specs.Drain.{partition};
ghost use Rattle.run_timeline.specs.Nodes.{pair_replicas, replicas_of, stage_replicas};
ghost use Rattle.std.specs.Prelude.{◌≡◌, ◌<◌, ◌^◌, ◌++◌, IfOk, OnOk};

use plan_reader::{Plan, Stage};
use std::alloc::Global;
use tuple_edge::{NodeId, OutOfMemory, Which};

// Appends the replicas of a pair.
fn push_pair(nodes: &mut Vec<NodeId>, stage: u32, part: u32) -> Result<(), OutOfMemory>
    ensures { OnOk result (nodes.new.items ≡ nodes.old.items ++ pair_replicas (partition stage part)) }
{
    let which = Which::A;
    nodes.push(NodeId::Replica { stage, part, which })?;
    let which = Which::B;
    nodes.push(NodeId::Replica { stage, part, which })?;
    Ok(())
}

// Appends the replicas of a stage, by its place among the stages.
#[tactic(auto, using(pair_machine::proofs::EachPair::parts_next))]
fn push_stage(nodes: &mut Vec<NodeId>, place: u32, stage: &Stage) -> Result<(), OutOfMemory>
    requires { place < 2 ^ 31 }
    ensures { OnOk result (nodes.new.items ≡ nodes.old.items ++ stage_replicas place stage.now) }
{
    for part in 0..stage.parts {
        push_pair(nodes, place + 1, part)?;
    }
    Ok(())
}

// The replicas of a plan, stage by stage.
pub(crate) fn replicas_of(alloc: Global, plan: &Plan) -> Result<Vec<NodeId>, OutOfMemory>
    ensures { IfOk result (λ nodes. nodes.items ≡ replicas_of plan.now) }
{
    let stages = plan.stages();
    let mut nodes = Vec::new(alloc);
    for (place, stage) in stages.iter().enumerate() {
        push_stage(&mut nodes, place as u32, stage)?;
    }
    Ok(nodes)
}
