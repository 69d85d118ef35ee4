// What a partition does with its items.
ghost use Rattle.pair_machine.specs.Drain.{partition};
ghost use Rattle.partition_step.specs.Merging.{IsPartition};
ghost use Rattle.partition_step.specs.Places.{IsPlace};
ghost use Rattle.plan_reader.specs.Nodes.{has_pair, sources_of};
ghost use Rattle.plan_reader.specs.PlanView.{IsPlan};
ghost use Rattle.std.specs.Prelude.{IsTrue};

use plan_reader::{Plan, Stage};
use stream_ops::OpSpec;

/// What a partition does with its items: its operator, and the stage that what it sends goes to, if there
/// is one; after the last one comes egress.
#[derive(Clone, Copy, Debug, PartialEq, Eq)]
pub struct PartitionTask {
    pub op: OpSpec,
    pub next: Option<Stage>,
}

/// What a partition of a plan does.
pub fn task_in(plan: &Plan, stage: u32, part: u32) -> PartitionTask
    requires { IsTrue (has_pair plan.now stage part) }
    ensures of_plan { IsPartition plan.now (partition stage part) result }
    ensures sound { IsPlace (partition stage part) (sources_of plan.now stage) result }
    ensures limits { IsPlan plan.now }
{
    let stages = plan.stages();
    PartitionTask {
        op: stages[stage as usize - 1].op,
        next: stages.get(stage as usize).copied(),
    }
}
