// What an event asks of its node, done by whichever it is, with an answer where the machine refuses it.
ghost use Rattle.flux_core.specs.Acts.{HasAnswered, IsTimelyTask, answer_at, no_inputs_at, reason_at};
ghost use Rattle.flux_core.specs.declared.asked.Asked.TheVariants as asked;
ghost use Rattle.plan_nodes.specs.States.{HasActedBehind, IsIdle};
ghost use Rattle.plan_nodes.specs.declared.state.NodeState.TheVariants as state;
ghost use Rattle.std.specs.Prelude.{◌≡◌, ◌≤◌, [], Ok};
ghost use Rattle.stream_ops.specs.Times.{IsTimely};
ghost use Rattle.tuple_edge.specs.Limits.{most_packets};
ghost use Rattle.tuple_edge.specs.declared.event.Worked.TheVariants.{Idle};

use crate::asked::Asked;
use crate::error::ApplyError;
use ingress_egress::Egress;
use node_tasks::{Acts, Task};
use plan_nodes::{
    NodeState, control_acts, egress_acts, egress_may, ingress_acts, replica_acts, replica_may,
};
use replica_node::{Mode, Replica};
use tuple_edge::{Item, NodeId, OutOfMemory, Outbox, Worked};

// Why a node makes no more.
fn no_inputs_at(node: NodeId) -> ApplyError
    ensures { result ≡ no_inputs_at node }
{
    match node {
        NodeId::Ingress => ApplyError::NoMoreRows,
        NodeId::Replica { .. } | NodeId::Control { .. } | NodeId::Egress => ApplyError::NothingDue,
    }
}

// Why a node that did nothing at a task gives no more.
fn reason_at(node: NodeId, task: &Task) -> ApplyError
    ensures { result ≡ reason_at node task.now }
{
    match task {
        Task::Take { .. } => ApplyError::OutOfMemory,
        Task::Work => ApplyError::NothingDue,
        Task::Make => no_inputs_at(node),
        Task::Kill | Task::AskStop | Task::AskBack => ApplyError::NotRunning,
    }
}

// What came of a task at a node, as an answer.
fn answer_at(node: NodeId, task: &Task, came: Result<Worked, OutOfMemory>) -> Result<(), ApplyError>
    ensures { result ≡ answer_at node task.now came }
{
    match came {
        Ok(Worked::Did) => Ok(()),
        Ok(Worked::Idle) => Err(reason_at(node, task)),
        Err(_) => Err(ApplyError::OutOfMemory),
    }
}

// A node does what is asked of it, where no number would pass its limit.
pub(crate) fn node_acts(
    node: &mut NodeState,
    task: &Asked,
    out: &mut Outbox,
) -> Result<(), ApplyError>
    requires room { most_packets ≤ out.old.spare }
    requires timely { IsTimelyTask task.now }
    ensures { HasAnswered node.old node.new task.now result out.old.packets out.new.packets }
{
    match task {
        Asked::Task(task) => node_does(node, task, out),
        Asked::Pull { edge, item } => node_pulls(node, *edge, *item),
    }
}

// A node does a task.
fn node_does(node: &mut NodeState, task: &Task, out: &mut Outbox) -> Result<(), ApplyError>
    requires room { most_packets ≤ out.old.spare }
    ensures { HasAnswered node.old node.new (asked.Task task.now) result out.old.packets out.new.packets }
{
    let id = node.id();
    let came = came_of(node, task, out);
    answer_at(id, task, came)
}

// What comes of a task. Marks are reported by however little they rose.
fn came_of(node: &mut NodeState, task: &Task, out: &mut Outbox) -> Result<Worked, OutOfMemory>
    requires room { most_packets ≤ out.old.spare }
    ensures acted { HasActedBehind node.old node.new task.now result out.old.packets out.new.packets }
    ensures idle { result ≡ Ok Idle → IsIdle 1 node.old task.now }
{
    match node {
        NodeState::Ingress(node) => ingress_acts(node, task, out),
        NodeState::Replica(node) => came_of_replica(node, task, out),
        NodeState::Control(node) => control_acts(node, task, out),
        NodeState::Egress(node) => came_of_egress(node, task, out),
    }
}

// What comes of a task at a replica: want of memory where a number would pass its limit.
fn came_of_replica(node: &mut Replica, task: &Task, out: &mut Outbox) -> Result<Worked, OutOfMemory>
    requires room { most_packets ≤ out.old.spare }
    ensures acted { HasActedBehind (state.Replica node.old) (state.Replica node.new) task.now result out.old.packets out.new.packets }
    ensures idle { result ≡ Ok Idle → IsIdle 1 (state.Replica node.old) task.now }
{
    if !replica_may(node, task) {
        return Err(OutOfMemory);
    }
    replica_acts(node, task, 1, out)
}

// The same at egress.
fn came_of_egress(node: &mut Egress, task: &Task, out: &mut Outbox) -> Result<Worked, OutOfMemory>
    requires room { most_packets ≤ out.old.spare }
    ensures acted { HasActedBehind (state.Egress node.old) (state.Egress node.new) task.now result out.old.packets out.new.packets }
    ensures idle { result ≡ Ok Idle → IsIdle 1 (state.Egress node.old) task.now }
{
    if !egress_may(node, task) {
        return Err(OutOfMemory);
    }
    egress_acts(node, task, out)
}

// A node takes the next item of an in-edge. It sends nothing.
fn node_pulls(node: &mut NodeState, edge: u32, item: Item) -> Result<(), ApplyError>
    requires { IsTimely item }
    ensures { HasAnswered node.old node.new (asked.Pull edge item) result [] [] }
{
    match node {
        NodeState::Replica(node) => replica_pulls(node, edge, item),
        NodeState::Egress(node) => egress_pulls(node, edge, item),
        NodeState::Ingress(_) | NodeState::Control(_) => Err(ApplyError::NotRunning),
    }
}

// A replica takes the next item of an in-edge, where it runs and no number would pass its limit.
fn replica_pulls(node: &mut Replica, edge: u32, item: Item) -> Result<(), ApplyError>
    requires { IsTimely item }
    ensures { HasAnswered (state.Replica node.old) (state.Replica node.new) (asked.Pull edge item) result [] [] }
{
    if node.mode() != Mode::Running {
        return Err(ApplyError::NotRunning);
    }
    if !node.may_pull(edge) {
        return Err(ApplyError::OutOfMemory);
    }
    node.pull(edge, item)?;
    Ok(())
}

// Egress takes the next item of an edge, where no number would pass its limit.
fn egress_pulls(node: &mut Egress, edge: u32, item: Item) -> Result<(), ApplyError>
    ensures { HasAnswered (state.Egress node.old) (state.Egress node.new) (asked.Pull edge item) result [] [] }
{
    if edge >= node.consumer().merge().edges() || !node.may_pull(edge) {
        return Err(ApplyError::OutOfMemory);
    }
    node.pull(edge, item)?;
    Ok(())
}
