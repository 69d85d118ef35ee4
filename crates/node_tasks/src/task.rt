// What a node is to do, and which event that is.
ghost use Rattle.node_tasks.specs.Tasks.{event_of};
ghost use Rattle.std.specs.Prelude.{◌≡◌};

use tuple_edge::{Event, LinkId, NodeId, Packet};

/// What a node is to do in one event.
#[derive(Clone, Copy, Debug, PartialEq, Eq)]
pub enum Task {
    /// To take the packet that a node sent to it at this index.
    Take {
        from: NodeId,
        index: u64,
        packet: Packet,
    },
    /// To do the first piece of work that is due.
    Work,
    /// To make the next input into items.
    Make,
    /// To fail.
    Kill,
    /// To ask to be stopped.
    AskStop,
    /// To ask for its partner.
    AskBack,
}

impl Task {
    /// The event that it is at a node.
    pub fn event_at(&self, node: NodeId) -> Event
        ensures { result ≡ event_of node self.now }
    {
        match *self {
            Task::Take { from, index, .. } => Event::Take {
                link: LinkId { from, to: node },
                index,
            },
            Task::Work => Event::Work { node },
            Task::Make => Event::Make,
            Task::Kill => Event::Kill { node },
            Task::AskStop => Event::AskStop { node },
            Task::AskBack => Event::AskBack {
                node: node.partner(),
            },
        }
    }
}
