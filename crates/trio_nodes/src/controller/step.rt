// One packet at the controller, whole: what it says, and then what is acknowledged.
ghost use Rattle.std.specs.Prelude.{◌≡◌, ◌<◌, ◌≤◌, ◌+◌, ◌++◌, ℕ, List, length};
ghost use Rattle.plan_reader.specs.PlanView.{PlanView};
ghost use Rattle.trio_nodes.specs.Contents.{GoOverLinks, appended};
ghost use Rattle.trio_nodes.specs.ControllerPackets.{IsAcknowledged, IsAdmitted, IsDone, IsFromReplica, IsOfPlan, SendsAtMost, StandsFor, packets_of, taking};
ghost use Rattle.trio_nodes.specs.ControllerView.{node_of, numbers_of, partition_of};
ghost use Rattle.trio_nodes.specs.Outbox.{most_acks, most_packets};
ghost use Rattle.trio_nodes.specs.Steps.{IsTaken};
ghost use Rattle.trio_machine.specs.Controllers.{acks};
ghost use Rattle.trio_machine.specs.Flow.{IsTrioPlan, trio_flow};
ghost use Rattle.trio_machine.specs.Numbers.{group_size, replica_at};
ghost use Rattle.tuple_edge.specs.Input.{Input};

use super::acknowledgement::{least_report, raise};
use crate::{TrioControl, TrioOutbox};
use trio_machine::{TrioBody, TrioNode};

impl TrioControl {
    /// Takes a packet from one of the three replicas, and sends what follows from it: at most
    /// [`MOST_PACKETS`](crate::MOST_PACKETS) packets, to the new leader and to the producers of the in-edges. It takes no memory.
    pub fn on(&mut self, from: TrioNode, body: &TrioBody, out: &mut TrioOutbox)
        requires admitted { IsAdmitted self.old from body.now }
        requires room { most_packets ≤ out.old.spare }
        // The machine's own step, and exactly its packets in order.
        ensures numbers { numbers_of self.new ≡ (taking self.old from body.now).0 }
        ensures packets { out.new.packets ≡ out.old.packets ++ packets_of (taking self.old from body.now).1 }
        ensures few { SendsAtMost most_packets out.old out.new }
        ensures linked { (plan : PlanView) → IsTrioPlan plan → IsOfPlan plan self.old
            → GoOverLinks plan (node_of self.old) (appended out.old.packets out.new.packets) }
        // Of each in-edge only what all replicas that are up have reported is acknowledged, and that never falls.
        ensures acked { (q : ℕ) → q < length self.old.acked → IsAcknowledged self.old self.new q }
        // It stays the same node, and a node of the same plans.
        ensures id { node_of self.new ≡ node_of self.old }
        ensures edges { length self.new.acked ≡ length self.old.acked }
        ensures of_plan { (plan : PlanView) → IsOfPlan plan self.old → IsOfPlan plan self.new }
        // In each plan it is the machine's step, whatever message the body stands for.
        ensures step { (plan : PlanView) (inputs : List Input) → IsTaken plan inputs (node_of self.old)
            (StandsFor (trio_flow plan inputs) self.old) (StandsFor (trio_flow plan inputs) self.new) from body.now
            (packets_of (taking self.old from body.now).1) }
    {
        let copy = self.sender(from);
        self.hear(copy, body, out);
        self.acknowledge(out);
    }

    // Which of its replicas the sender of a packet is.
    fn sender(&self, from: TrioNode) -> u32
        requires { IsFromReplica self.now from }
        ensures replica { from ≡ replica_at (partition_of self.now) result }
        ensures there { result < group_size }
    {
        let TrioNode::Replica { copy, .. } = from else {
            unreachable!()
        };
        copy
    }

    // Acknowledges of each in-edge what every replica that is up has reported.
    fn acknowledge(&mut self, out: &mut TrioOutbox)
        requires room { most_acks ≤ out.old.spare }
        ensures does { IsDone self.old self.new out.old out.new
            (acks (length self.old.acked) (partition_of self.old) (numbers_of self.old)) }
        ensures watched { self.new.watched ≡ self.old.watched }
        ensures three { length self.new.watched ≡ group_size }
        ensures sends { SendsAtMost most_acks out.old out.new }
    {
        for edge in 0..self.acked.len() {
            let known = self.acked[edge];
            let least = least_report(&self.watched, edge).unwrap_or(known);
            raise(&mut self.acked, edge, least, self.stage, self.part, out);
        }
    }
}
