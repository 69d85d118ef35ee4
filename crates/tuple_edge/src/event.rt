// What happens at the nodes of a run.
ghost use Rattle.std.specs.Prelude.{◌≡◌};
ghost use Rattle.tuple_edge.specs.Node.{at_node};

use crate::{LinkId, NodeId};

/// One step at one node.
#[derive(Clone, Copy, Debug, PartialEq, Eq)]
pub enum Event {
    /// The receiver of a link takes the packet that was sent there at this place, from 1.
    Take { link: LinkId, index: u64 },
    /// A node does the first piece of work that is due.
    Work { node: NodeId },
    /// Ingress makes the next input, or the end, into items.
    Make,
    /// A replica fails.
    Kill { node: NodeId },
    /// A replica asks its controller to be stopped.
    AskStop { node: NodeId },
    /// The partner of this replica asks that it be restarted.
    AskBack { node: NodeId },
    /// The next item of an edge goes straight from one node's buffer to another node.
    Pull { from: NodeId, to: NodeId },
}

impl Event {
    /// The node at which it is: the one that it changes.
    pub fn node(&self) -> NodeId
        ensures { result ≡ at_node self.now }
    {
        match *self {
            Event::Take { link, .. } => link.to,
            Event::Work { node } | Event::Kill { node } | Event::AskStop { node } => node,
            Event::Make => NodeId::Ingress,
            Event::AskBack { node } => node.partner(),
            Event::Pull { to, .. } => to,
        }
    }
}

/// An event with its node's clock.
#[derive(Clone, Copy, Debug, PartialEq, Eq)]
pub struct Stamped {
    pub clock: u64,
    pub event: Event,
}

/// Whether a node had work to do.
#[derive(Clone, Copy, Debug, PartialEq, Eq)]
pub enum Worked {
    Did,
    Idle,
}

/// How a drain ended.
#[derive(Clone, Copy, Debug, PartialEq, Eq)]
pub enum Drained {
    /// Egress has emitted the whole output.
    Whole,
    /// No replica of this pair can go on.
    Lost { stage: u32, part: u32 },
}

/// What happened at one node, in order.
#[derive(Debug, Drop)]
pub struct History {
    pub node: NodeId,
    pub entries: Vec<Stamped>,
}
