// What an event asks of its node.
use trio_nodes::{TrioBody, TrioNode};
use tuple_edge::Item;

/// What an event asks of its node.
#[derive(Clone, Copy, Debug, PartialEq, Eq)]
pub enum TrioTask {
    /// To take a packet from a node.
    Take { from: TrioNode, body: TrioBody },
    /// To do the first piece of work that is due.
    Work,
    /// To make the next input into items.
    Make,
    /// To fail.
    Kill,
    /// To take the next item of an in-edge, straight from its producer.
    Pull { edge: u32, item: Item },
}
