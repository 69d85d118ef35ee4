// A node, whichever kind it is.
use trio_nodes::{TrioControl, TrioEgress, TrioIngress, TrioReplica};

/// A node of a plan, whichever kind it is.
#[derive(Drop)]
pub enum Member {
    /// Where the inputs come in.
    Ingress(TrioIngress),
    /// One of the three replicas of a group.
    Replica(TrioReplica),
    /// The controller of a group.
    Control(TrioControl),
    /// Where the rows go out.
    Egress(TrioEgress),
}
