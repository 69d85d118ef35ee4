// What the orders of a script have made a node do.
ghost use Rattle.run_node.specs.Fired.{fired_after, is_recall, is_stop, repeats};
ghost use Rattle.std.specs.Prelude.{◌≡◌, false};

use node_tasks::Task;

/// What a script's orders have made a node do: each of it happens once in a run.
#[derive(Clone, Copy, Debug, PartialEq, Eq)]
pub struct Fired {
    /// It has failed, or asked to be stopped.
    pub stopped: bool,
    /// It has asked for its partner.
    pub recalled: bool,
}

impl Fired {
    /// Nothing has happened yet.
    pub(crate) fn nothing() -> Fired
        ensures stopped { result.stopped ≡ false }
        ensures recalled { result.recalled ≡ false }
    {
        Fired {
            stopped: false,
            recalled: false,
        }
    }

    /// Whether nothing is left that could happen.
    pub(crate) fn is_all(&self) -> bool {
        self.stopped && self.recalled
    }

    /// Whether the task would happen a second time.
    pub(crate) fn repeats(&self, task: &Task) -> bool
        ensures { result ≡ repeats self.now task.now }
    {
        match task {
            Task::Kill | Task::AskStop => self.stopped,
            Task::AskBack => self.recalled,
            Task::Take { .. } | Task::Work | Task::Make => false,
        }
    }

    /// What has happened once the task has.
    pub(crate) fn after(&self, task: &Task) -> Fired
        ensures { result ≡ fired_after self.now task.now }
    {
        Fired {
            stopped: self.stopped || is_stop(task),
            recalled: self.recalled || is_recall(task),
        }
    }
}

// Whether a task stops the node, or asks for that.
fn is_stop(task: &Task) -> bool
    ensures { result ≡ is_stop task.now }
{
    match task {
        Task::Kill | Task::AskStop => true,
        Task::Take { .. } | Task::Work | Task::Make | Task::AskBack => false,
    }
}

// Whether a task asks for the partner.
fn is_recall(task: &Task) -> bool
    ensures { result ≡ is_recall task.now }
{
    match task {
        Task::AskBack => true,
        Task::Take { .. } | Task::Work | Task::Make | Task::Kill | Task::AskStop => false,
    }
}
