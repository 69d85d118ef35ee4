// What happens at the nodes of groups of three.
ghost use Rattle.std.specs.Prelude.{◌≡◌};
ghost use Rattle.trio_machine.specs.Machine.{at_node};

use crate::node::TrioNode;

/// One step at one node.
#[derive(Clone, Copy, Debug, PartialEq, Eq)]
pub enum TrioEvent {
    /// A node takes the packet that another one sent to it at this place, from 1.
    Take {
        from: TrioNode,
        to: TrioNode,
        index: u64,
    },
    /// A node does the first piece of work that is due.
    Work {
        node: TrioNode,
    },
    /// Ingress makes the next input, or the end, into items.
    Make,
    /// A replica fails.
    Kill {
        node: TrioNode,
    },
    /// The next item of an edge goes straight from one node's buffer to another node.
    Pull {
        from: TrioNode,
        to: TrioNode,
    },
}

impl TrioEvent {
    /// The node at which it is: the one that it changes.
    pub fn node(&self) -> TrioNode
        ensures { result ≡ at_node self.now }
    {
        match *self {
            TrioEvent::Take { to, .. } | TrioEvent::Pull { to, .. } => to,
            TrioEvent::Work { node } | TrioEvent::Kill { node } => node,
            TrioEvent::Make => TrioNode::Ingress,
        }
    }
}
