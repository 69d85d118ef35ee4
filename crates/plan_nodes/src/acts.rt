// What a node is asked, done by each kind of node. Packets that lie in the outbox stay, and what it sends lies behind them.
ghost use Rattle.pair_machine.specs.Messages.{AsksBack, AsksStop, Dies, NotRunning};
ghost use Rattle.plan_nodes.specs.States.{EgressMay, HasActedBehind, IsIdle, Refuses, ReplicaMay};
ghost use Rattle.plan_nodes.specs.declared.state.NodeState.TheVariants as state;
ghost use Rattle.node_tasks.specs.declared.task.Task.TheVariants as task;
ghost use Rattle.std.specs.Prelude.{◌≡◌, ◌≤◌, ℕ, Ok};
ghost use Rattle.tuple_edge.specs.Limits.{most_packets};
ghost use Rattle.tuple_edge.specs.declared.event.Worked.TheVariants.{Idle};

use crate::taking::{control_takes, egress_takes, ingress_takes, replica_takes};
use crate::working::{egress_works, ingress_works, replica_works};
use ingress_egress::{Egress, Ingress};
use node_tasks::Task;
use pair_control::PairControl;
use replica_node::{Mode, Replica};
use tuple_edge::{OutOfMemory, Outbox, Worked};

/// Ingress takes a packet, works or makes.
#[tactic(auto, using(crate::proofs::Acting::nothing_done))]
pub fn ingress_acts(
    node: &mut Ingress,
    task: &Task,
    out: &mut Outbox,
) -> Result<Worked, OutOfMemory>
    ensures acted { HasActedBehind (state.Ingress node.old) (state.Ingress node.new) task.now result out.old.packets out.new.packets }
    ensures idle { result ≡ Ok Idle → (rise : ℕ) → IsIdle rise (state.Ingress node.old) task.now }
{
    match task {
        Task::Take { from, packet, .. } => ingress_takes(node, *from, packet),
        Task::Work => ingress_works(node, out),
        Task::Make => node.make(),
        Task::Kill | Task::AskStop | Task::AskBack => Ok(Worked::Idle),
    }
}

/// A replica takes a packet, works, fails or asks. Work that is nothing but to report marks waits until one of them rose by
/// `rise`.
#[tactic(auto, using(crate::proofs::Acting::nothing_done))]
pub fn replica_acts(
    node: &mut Replica,
    task: &Task,
    rise: u64,
    out: &mut Outbox,
) -> Result<Worked, OutOfMemory>
    requires may { ReplicaMay node.old task.now }
    requires room { most_packets ≤ out.old.spare }
    ensures acted { HasActedBehind (state.Replica node.old) (state.Replica node.new) task.now result out.old.packets out.new.packets }
    ensures idle { result ≡ Ok Idle → IsIdle rise (state.Replica node.old) task.now }
{
    match task {
        Task::Take { from, packet, .. } => replica_takes(node, *from, packet, out),
        Task::Work => replica_works(node, rise, out),
        Task::Make => Ok(Worked::Idle),
        Task::Kill => Ok(replica_dies(node, out)),
        Task::AskStop => Ok(replica_asks_stop(node, out)),
        Task::AskBack => Ok(replica_asks_back(node, out)),
    }
}

// A replica fails, unless it is gone.
#[tactic(auto, using(crate::proofs::Refusing::gone_refuses, crate::proofs::Acting::nothing_done))]
fn replica_dies(node: &mut Replica, out: &mut Outbox) -> Worked
    requires room { 1 ≤ out.old.spare }
    ensures acted { HasActedBehind (state.Replica node.old) (state.Replica node.new) task.Kill (Ok result) out.old.packets out.new.packets }
    ensures idle { result ≡ Idle → Refuses (state.Replica node.old) Dies NotRunning }
{
    if node.mode() == Mode::Gone {
        return Worked::Idle;
    }
    node.kill(out);
    Worked::Did
}

// A replica that runs asks to be stopped.
#[tactic(auto, using(crate::proofs::Refusing::idle_refuses_stop, crate::proofs::Acting::nothing_done))]
fn replica_asks_stop(node: &mut Replica, out: &mut Outbox) -> Worked
    requires room { 1 ≤ out.old.spare }
    ensures acted { HasActedBehind (state.Replica node.old) (state.Replica node.new) task.AskStop (Ok result) out.old.packets out.new.packets }
    ensures idle { result ≡ Idle → Refuses (state.Replica node.old) AsksStop NotRunning }
{
    if node.mode() != Mode::Running {
        return Worked::Idle;
    }
    node.ask_stop(out);
    Worked::Did
}

// A replica that runs asks for its partner.
#[tactic(auto, using(crate::proofs::Refusing::idle_refuses_back, crate::proofs::Acting::nothing_done))]
fn replica_asks_back(node: &mut Replica, out: &mut Outbox) -> Worked
    requires room { 1 ≤ out.old.spare }
    ensures acted { HasActedBehind (state.Replica node.old) (state.Replica node.new) task.AskBack (Ok result) out.old.packets out.new.packets }
    ensures idle { result ≡ Idle → Refuses (state.Replica node.old) AsksBack NotRunning }
{
    if node.mode() != Mode::Running {
        return Worked::Idle;
    }
    node.ask_back(out);
    Worked::Did
}

/// A controller takes a packet; it has no work.
#[tactic(auto, using(crate::proofs::Acting::nothing_done, crate::proofs::Refusing::control_refuses))]
pub fn control_acts(
    node: &mut PairControl,
    task: &Task,
    out: &mut Outbox,
) -> Result<Worked, OutOfMemory>
    requires room { most_packets ≤ out.old.spare }
    ensures acted { HasActedBehind (state.Control node.old) (state.Control node.new) task.now result out.old.packets out.new.packets }
    ensures idle { result ≡ Ok Idle → (rise : ℕ) → IsIdle rise (state.Control node.old) task.now }
{
    match task {
        Task::Take { from, packet, .. } => control_takes(node, *from, packet, out),
        Task::Work | Task::Make | Task::Kill | Task::AskStop | Task::AskBack => Ok(Worked::Idle),
    }
}

/// Egress takes a packet or works.
#[tactic(auto, using(crate::proofs::Acting::nothing_done))]
pub fn egress_acts(node: &mut Egress, task: &Task, out: &mut Outbox) -> Result<Worked, OutOfMemory>
    requires may { EgressMay node.old task.now }
    ensures acted { HasActedBehind (state.Egress node.old) (state.Egress node.new) task.now result out.old.packets out.new.packets }
    ensures idle { result ≡ Ok Idle → (rise : ℕ) → IsIdle rise (state.Egress node.old) task.now }
{
    match task {
        Task::Take { from, packet, .. } => egress_takes(node, *from, packet),
        Task::Work => egress_works(node, out),
        Task::Make | Task::Kill | Task::AskStop | Task::AskBack => Ok(Worked::Idle),
    }
}
