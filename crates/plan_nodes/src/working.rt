// One piece of a node's work, and how many packets it sends, which is known before it is done.
ghost use Rattle.merge_order.specs.MergeView.{item_of, least};
ghost use Rattle.pair_machine.specs.Messages.{NothingDue, Works};
ghost use Rattle.plan_nodes.specs.States.{EgressMay, HasWorkedOnce, MayDo, Refuses, ReplicaMay, acks_unless_merged, packets_of_work};
ghost use Rattle.plan_nodes.specs.declared.state.NodeState.TheVariants as state;
ghost use Rattle.replica_node.specs.Rules as rules;
ghost use Rattle.node_tasks.specs.declared.task.Task.TheVariants as task;
ghost use Rattle.std.specs.Prelude.{◌≡◌, ◌≤◌, Ok, is_some};
ghost use Rattle.tuple_edge.specs.declared.event.Worked.TheVariants.{Idle};

use crate::NodeState;
use flux_consumer::Consumer;
use ingress_egress::{Egress, Ingress};
use replica_node::Replica;
use tuple_edge::{OutOfMemory, Outbox, Worked};

impl NodeState {
    // How many packets the next piece of work sends, where there is one. A controller has no work, and 1 is said of it.
    pub(crate) fn packets_of_work(&self) -> usize
        ensures value { result ≡ packets_of_work self.now }
        ensures few { result ≤ 2 }
    {
        match self {
            NodeState::Ingress(_) | NodeState::Control(_) => 1,
            NodeState::Replica(node) => replica_sends(node),
            NodeState::Egress(node) => egress_sends(node),
        }
    }

    // Does the first piece of work that is due, and appends its packets.
    pub(crate) fn work_once(&mut self, rise: u64, out: &mut Outbox) -> Result<Worked, OutOfMemory>
        requires may { MayDo self.old task.Work }
        ensures { HasWorkedOnce self.old self.new result out.old.packets out.new.packets }
    {
        match self {
            NodeState::Ingress(node) => ingress_works(node, out),
            NodeState::Replica(node) => replica_works(node, rise, out),
            NodeState::Control(_) => Ok(Worked::Idle),
            NodeState::Egress(node) => egress_works(node, out),
        }
    }
}

// How many packets the next piece of a replica's work sends.
fn replica_sends(node: &Replica) -> usize
    ensures value { result ≡ rules.packets_of_work node.now.phase }
    ensures few { result ≤ 1 }
{
    match node.consumer() {
        None => 1,
        Some(consumer) => { if has_next(consumer) { 0 } else { 1 } }
    }
}

// How many packets the next piece of egress' work sends.
fn egress_sends(node: &Egress) -> usize
    ensures value { result ≡ acks_unless_merged (item_of (least node.now.consumer.merge.waiting)) }
    ensures few { result ≤ 2 }
{
    if has_next(node.consumer()) { 0 } else { 2 }
}

// Whether there is an item to merge next. Where nothing waits on the first edge, no other needs to be looked at.
fn has_next(consumer: &Consumer) -> bool
    ensures { result ≡ is_some (item_of (least consumer.now.merge.waiting)) }
{
    let merge = consumer.merge();
    if merge.edges() == 0 || merge.waiting(0) == 0 {
        return false;
    }
    merge.ready()
}

// Ingress sends what is due.
pub(crate) fn ingress_works(node: &mut Ingress, out: &mut Outbox) -> Result<Worked, OutOfMemory>
    ensures worked { HasWorkedOnce (state.Ingress node.old) (state.Ingress node.new) result out.old.packets out.new.packets }
    ensures idle { result ≡ Ok Idle → Refuses (state.Ingress node.old) Works NothingDue }
{
    node.work(out)
}

// A replica merges, or gives a part of a move, or sends, or reports.
pub(crate) fn replica_works(
    node: &mut Replica,
    rise: u64,
    out: &mut Outbox,
) -> Result<Worked, OutOfMemory>
    requires may { ReplicaMay node.old task.Work }
    ensures worked { HasWorkedOnce (state.Replica node.old) (state.Replica node.new) result out.old.packets out.new.packets }
    ensures idle { result ≡ Ok Idle → rise ≤ 1 → Refuses (state.Replica node.old) Works NothingDue }
{
    node.work_or_wait(rise, out)
}

// Egress merges, or acknowledges.
pub(crate) fn egress_works(node: &mut Egress, out: &mut Outbox) -> Result<Worked, OutOfMemory>
    requires may { EgressMay node.old task.Work }
    ensures worked { HasWorkedOnce (state.Egress node.old) (state.Egress node.new) result out.old.packets out.new.packets }
    ensures idle { result ≡ Ok Idle → Refuses (state.Egress node.old) Works NothingDue }
{
    node.work(out)
}
