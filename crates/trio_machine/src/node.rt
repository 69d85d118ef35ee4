// The names of the nodes of a dataflow whose partitions run as groups of three.

/// A node of a running dataflow whose partitions are groups of three replicas. Stages count from 1,
/// partitions and the replicas of a group from 0.
#[derive(Clone, Copy, Debug, PartialEq, Eq)]
pub enum TrioNode {
    /// Where the inputs come in.
    Ingress,
    /// A replica of the group that runs this partition of this stage.
    Replica { stage: u32, part: u32, copy: u32 },
    /// The controller of that group.
    Control { stage: u32, part: u32 },
    /// Where the rows go out.
    Egress,
}
