// One packet at the controller, whole: what it says, and then what follows after each packet.
ghost use Rattle.pair_control.specs.Admitted.{AreReportsSmall, AreSmall, IsAdmitted, IsFromReplica};
ghost use Rattle.pair_control.specs.ControllerView.{IsOneAway, IsOneCatching, numbers_of, partition_of, watched_of};
ghost use Rattle.pair_control.specs.Packets.{IsDone, SendsAtMost, packets_of, taking};
ghost use Rattle.pair_control.specs.Raised.{acked_after};
ghost use Rattle.pair_control.specs.StandsFor.{IsMachineStep, IsOfPlan, IsTaken, node_of};
ghost use Rattle.pair_machine.specs.Contents.{BodyStands};
ghost use Rattle.pair_machine.specs.Controllers.{acks, backs, stops};
ghost use Rattle.pair_machine.specs.Counts.{flow_of};
ghost use Rattle.pair_machine.specs.Links.{link};
ghost use Rattle.pair_machine.specs.Messages.{Message};
ghost use Rattle.pair_machine.specs.Numbers.{other, replica_at};
ghost use Rattle.pair_machine.specs.Receivers.{GoOverLinks, appended};
ghost use Rattle.plan_reader.specs.PlanView.{PlanView};
ghost use Rattle.std.specs.Prelude.{◌≡◌, ◌<◌, ◌≤◌, ◌+◌, ◌^◌, ◌++◌, ◌∷◌, ◌⊎◌, ℕ, [], List, length, slice_index};
ghost use Rattle.tuple_edge.specs.Limits.{most_packets};
ghost use Rattle.tuple_edge.specs.declared.packet.Body.TheVariants as body;
ghost use Rattle.tuple_edge.specs.Input.{Input};

use crate::PairControl;
use crate::acknowledgement::raise;
use crate::watched::least_report;
use tuple_edge::{Body, NodeId, Outbox, Status, Which};

impl PairControl {
    /// Takes a packet from one of the two replicas, and sends what follows from it: at most 19 packets, to
    /// the replicas and to the producers of the in-edges. It takes no memory.
    pub fn on(&mut self, from: NodeId, body: &Body, out: &mut Outbox)
        requires admitted { IsAdmitted self.old from body.now }
        requires room { most_packets ≤ out.old.spare }
        // The machine's own step, and exactly its packets in order.
        ensures numbers { numbers_of self.new ≡ (taking self.old from body.now).0 }
        ensures packets { out.new.packets ≡ out.old.packets ++ packets_of (taking self.old from body.now).1 }
        ensures few { SendsAtMost 19 out.old out.new }
        ensures linked { (plan : PlanView) → IsOfPlan plan self.old
            → GoOverLinks plan (node_of self.old) (appended out.old.packets out.new.packets) }
        // Of each in-edge the least report of the replicas that aren't down is acknowledged, and that never falls.
        ensures acked { (q : ℕ) → q < length self.old.acked
            → slice_index self.new.acked q ≡ acked_after self.old self.new q }
        ensures never_falls { (q : ℕ) → q < length self.old.acked
            → slice_index self.old.acked q ≤ slice_index self.new.acked q }
        // It stays the same node, and a node of the same plans.
        ensures id { node_of self.new ≡ node_of self.old }
        ensures of_plan { (plan : PlanView) → IsOfPlan plan self.old → IsOfPlan plan self.new }
        ensures partition { partition_of self.new ≡ partition_of self.old }
        ensures edges { length self.new.acked ≡ length self.old.acked }
        // For the machine's laws: in each plan, whatever message the body stands for.
        ensures step { (plan : PlanView) (inputs : List Input) (m : Message)
            → length self.old.acked ≡ (flow_of plan inputs).sources self.old.stage
            → BodyStands plan inputs (link from (node_of self.old)) body.now m
            → IsMachineStep plan inputs self.old self.new from body.now m }
        ensures course { (plan : PlanView) (inputs : List Input) → IsTaken plan inputs self.old self.new from body.now }
        // No number passes its limit.
        ensures small { AreSmall self.new }
        ensures reports { AreReportsSmall self.old → AreReportsSmall self.new }
    {
        let which = self.sender(from);
        self.hear(which, body, out);
        self.bring_back(Which::A, out);
        self.bring_back(Which::B, out);
        self.grant_stop(Which::A, out);
        self.grant_stop(Which::B, out);
        self.acknowledge(out);
    }

    // Which of its replicas the sender of a packet is.
    fn sender(&self, from: NodeId) -> Which
        requires { IsFromReplica self.now from }
        ensures { from ≡ replica_at (partition_of self.now) result }
    {
        let NodeId::Replica { which, .. } = from else {
            unreachable!()
        };
        which
    }

    // A replica that is to be brought back, is down and stands beside one that is up begins to catch up.
    #[tactic(auto, using(crate::proofs::Due::begun_a, crate::proofs::Due::begun_b))]
    fn bring_back(&mut self, which: Which, out: &mut Outbox)
        requires inc { (watched_of self.old which).inc + 1 < 2 ^ 64 }
        requires room { 2 ≤ out.old.spare }
        ensures does { IsDone self.old self.new out.old out.new
            (backs (partition_of self.old) which (numbers_of self.old)) }
        ensures acked { self.new.acked ≡ self.old.acked }
        ensures sends { SendsAtMost 2 out.old out.new }
        ensures term { self.new.term ≡ self.old.term }
        ensures partner { watched_of self.new (other which) ≡ watched_of self.old (other which) }
        ensures inc { (watched_of self.new which).inc ≤ (watched_of self.old which).inc + 1 }
        ensures away { IsOneAway self.old → IsOneAway self.new }
        // Where a replica is catching up, none is brought back beside it.
        ensures quiet { IsOneCatching self.old → (out.new ≡ out.old) × IsOneCatching self.new }
        ensures back { (out.new ≡ out.old) ⊎ IsOneCatching self.new }
    {
        let partner = which.other();
        let due = self.back_wanted(which) && self.status(which) == Status::Down;
        if due && self.status(partner) == Status::Up {
            match which {
                Which::A => self.a.begin(&self.b),
                Which::B => self.b.begin(&self.a),
            }
            self.send_begin(which, out);
        }
    }

    // Tells a replica to begin in its incarnation, and its partner to serve that.
    fn send_begin(&self, which: Which, out: &mut Outbox)
        requires { 2 ≤ out.old.spare }
        ensures packets { let p = partition_of self.now in let target = (watched_of self.now which).inc in
            out.new.packets ≡ out.old.packets ++ (replica_at p which, body.Begin target)
            ∷ (replica_at p (other which), body.Serve (watched_of self.now (other which)).inc target) ∷ [] }
        ensures sends { SendsAtMost 2 out.old out.new }
    {
        let partner = which.other();
        let target = self.inc(which);
        let inc = self.inc(partner);
        self.send(which, Body::Begin { inc: target }, out);
        self.send(partner, Body::Serve { inc, target }, out);
    }

    // A stop that is wanted for a replica is granted where both are up.
    fn grant_stop(&mut self, which: Which, out: &mut Outbox)
        requires term { self.old.term + 1 < 2 ^ 64 }
        requires room { 2 ≤ out.old.spare }
        ensures does { IsDone self.old self.new out.old out.new
            (stops (partition_of self.old) which (numbers_of self.old)) }
        ensures acked { self.new.acked ≡ self.old.acked }
        ensures sends { SendsAtMost 2 out.old out.new }
        ensures term { self.new.term ≤ self.old.term + 1 }
        ensures incs { (self.new.a.inc ≡ self.old.a.inc) × (self.new.b.inc ≡ self.old.b.inc) }
        // Of two stops one is granted at most, since then one replica isn't up.
        ensures alone { IsOneAway self.old
            → (out.new ≡ out.old) × (self.new.term ≡ self.old.term) × IsOneAway self.new }
        ensures granted { ((out.new ≡ out.old) × (self.new.term ≡ self.old.term)) ⊎ IsOneAway self.new }
    {
        let partner = which.other();
        let wanted = self.stop_wanted(which) && self.status(which) == Status::Up;
        if wanted && self.status(partner) == Status::Up {
            let inc = self.inc(which);
            self.send(which, Body::Stop { inc }, out);
            self.go_down(which, out);
        }
    }

    // Acknowledges of each in-edge what every replica that isn't down has reported: it looks at those
    // alone that may be due.
    fn acknowledge(&mut self, out: &mut Outbox)
        requires room { 16 ≤ out.old.spare }
        ensures does { IsDone self.old self.new out.old out.new
            (acks (length self.old.acked) (partition_of self.old) (numbers_of self.old)) }
        ensures acked { (q : ℕ) → q < length self.old.acked
            → slice_index self.new.acked q ≡ acked_after self.old self.new q }
        ensures incs { (self.new.a.inc ≡ self.old.a.inc) × (self.new.b.inc ≡ self.old.b.inc) }
        ensures term { self.new.term ≡ self.old.term }
        ensures sends { SendsAtMost 16 out.old out.new }
    {
        for edge in self.first_due..self.end_due {
            let known = self.acked[edge];
            let least = least_report(known, &self.a, &self.b, edge);
            raise(&mut self.acked, edge, least, self.stage, self.part, out);
        }
        self.first_due = self.acked.len();
        self.end_due = 0;
    }
}
