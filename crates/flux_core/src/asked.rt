// What an event asks of its node.
use node_tasks::Task;
use tuple_edge::Item;

/// What an event asks of its node.
#[derive(Clone, Copy, Debug, PartialEq, Eq)]
pub enum Asked {
    /// A task, as a node of a run is given it too.
    Task(Task),
    /// To take the next item of an in-edge, straight from its producer. No node of a run is asked for that.
    Pull { edge: u32, item: Item },
}
