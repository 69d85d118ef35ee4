// The names of nodes, edges and links.
ghost use Rattle.std.specs.Prelude.{◌≡◌};
ghost use Rattle.tuple_edge.specs.Node.{other, partner_node};

/// One of the two replicas of a pair.
#[derive(Clone, Copy, Debug, PartialEq, Eq, PartialOrd, Ord)]
pub enum Which {
    A,
    B,
}

impl Which {
    /// The other replica of the pair.
    pub fn other(self) -> Which
        ensures { result ≡ other self }
    {
        match self {
            Which::A => Which::B,
            Which::B => Which::A,
        }
    }
}

/// A node of a running dataflow. Stages count from 1, partitions from 0.
///
/// Nodes are ordered: ingress, then the pairs by stage and partition, in each pair replica A, replica
/// B and the controller, and last egress.
#[derive(Clone, Copy, Debug, PartialEq, Eq)]
pub enum NodeId {
    /// Where the inputs come in.
    Ingress,
    /// A replica of the pair that runs this partition of this stage.
    Replica { stage: u32, part: u32, which: Which },
    /// The controller of that pair.
    Control { stage: u32, part: u32 },
    /// Where the rows go out.
    Egress,
}

impl NodeId {
    /// The other replica of a replica's pair. Another node is its own partner.
    pub fn partner(self) -> NodeId
        ensures { result ≡ partner_node self }
    {
        match self {
            NodeId::Replica { stage, part, which } => NodeId::Replica {
                stage,
                part,
                which: which.other(),
            },
            NodeId::Ingress | NodeId::Control { .. } | NodeId::Egress => self,
        }
    }
}

/// An edge of the dataflow. Its stage is its producer's: 0 is ingress, whose partitions are its sources,
/// and an edge of the last stage goes to egress, whose partition is 0.
#[derive(Clone, Copy, Debug, PartialEq, Eq)]
pub struct EdgeId {
    pub stage: u32,
    /// The producer's partition.
    pub from: u32,
    /// The consumer's partition.
    pub to: u32,
}

/// A link: packets go over it from one node to another, in order.
#[derive(Clone, Copy, Debug, PartialEq, Eq)]
pub struct LinkId {
    pub from: NodeId,
    pub to: NodeId,
}
