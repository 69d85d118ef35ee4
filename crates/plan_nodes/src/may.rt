// What a node may do, by each kind of node.
ghost use Rattle.plan_nodes.specs.States.{ControlMay, EgressMay, IngressMay, ReplicaMay};
ghost use Rattle.std.specs.Prelude.{◌↔◌, IsTrue};

use ingress_egress::{Egress, Ingress};
use node_tasks::Task;
use pair_control::PairControl;
use replica_node::Replica;

/// Whether ingress may do it.
pub fn ingress_may(node: &Ingress, task: &Task) -> bool
    ensures { IsTrue result ↔ IngressMay node.now task.now }
{
    match task {
        Task::Take { from, packet, .. } => node.may_take(*from, &packet.body),
        Task::Work | Task::Make => true,
        Task::Kill | Task::AskStop | Task::AskBack => false,
    }
}

/// Whether a replica may do it: no number passes its limit, and a packet is one that it may be given.
pub fn replica_may(node: &Replica, task: &Task) -> bool
    ensures { IsTrue result ↔ ReplicaMay node.now task.now }
{
    match task {
        Task::Take { from, packet, .. } => node.may_take(*from, &packet.body),
        Task::Work => node.may_work(),
        Task::Make | Task::Kill | Task::AskStop | Task::AskBack => true,
    }
}

/// Whether a controller may do it.
pub fn control_may(node: &PairControl, task: &Task) -> bool
    ensures { IsTrue result ↔ ControlMay node.now task.now }
{
    match task {
        Task::Take { from, packet, .. } => node.may_take(*from, &packet.body),
        Task::Work | Task::Make | Task::Kill | Task::AskStop | Task::AskBack => false,
    }
}

/// Whether egress may do it: no number passes its limit, and a packet is one that it may be given.
pub fn egress_may(node: &Egress, task: &Task) -> bool
    ensures { IsTrue result ↔ EgressMay node.now task.now }
{
    match task {
        Task::Take { from, packet, .. } => node.may_take(*from, &packet.body),
        Task::Work => node.may_work(),
        Task::Make | Task::Kill | Task::AskStop | Task::AskBack => true,
    }
}
