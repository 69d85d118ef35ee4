// Which replica of which group it is, and what its partition does.
ghost use Rattle.partition_step.specs.Answering.{targets_of};
ghost use Rattle.std.specs.Prelude.{◌≡◌};
ghost use Rattle.trio_nodes.specs.ReplicaView.{copies_of, node_of, partition_of};
ghost use Rattle.trio_machine.specs.Numbers.{control_at};

use crate::GROUP_SIZE;
use partition_step::PartitionTask;
use trio_machine::TrioNode;

/// Which replica of which partition it is, from how many sources the partition takes, and what it does
/// with its items.
#[derive(Clone, Copy, Debug, PartialEq, Eq)]
pub struct TrioRole {
    pub stage: u32,
    pub part: u32,
    pub copy: u32,
    pub sources: u32,
    pub task: PartitionTask,
}

impl TrioRole {
    // Its name in the plan.
    pub(crate) fn id(&self) -> TrioNode
        ensures { result ≡ node_of self.now }
    {
        TrioNode::Replica {
            stage: self.stage,
            part: self.part,
            copy: self.copy,
        }
    }

    // The controller of the group.
    pub(crate) fn controller(&self) -> TrioNode
        ensures { result ≡ control_at (partition_of self.now) }
    {
        TrioNode::Control {
            stage: self.stage,
            part: self.part,
        }
    }

    // The number of out-edges: one to each partition of the next stage, or to egress.
    pub(crate) fn targets(&self) -> u32
        ensures { result ≡ targets_of self.now.task.next }
    {
        match self.task.next {
            None => 1,
            Some(next) => next.parts,
        }
    }

    // How many replicas there are at the other end of an out-edge; egress counts as one.
    pub(crate) fn copies(&self) -> u32
        ensures { result ≡ copies_of self.now.task.next }
    {
        match self.task.next {
            None => 1,
            Some(_) => GROUP_SIZE,
        }
    }
}
