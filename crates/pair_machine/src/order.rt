// What a failure script asks for.
use tuple_edge::NodeId;

/// One line of a failure script: a replica is to stop, or to fail, and its partner may ask for it back.
#[derive(Clone, Copy, Debug, PartialEq, Eq)]
pub struct Order {
    /// The replica that stops or fails.
    pub node: NodeId,
    /// Whether it fails at once; else it asks its controller to be stopped.
    pub kill: bool,
    /// How many items the replica itself has merged, at least, when that happens; from 1.
    pub at: u64,
    /// How many items its partner has merged, at least, when it asks for the replica back; from 1. None: it never does.
    pub back: Option<u64>,
}
