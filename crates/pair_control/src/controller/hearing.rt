// What a replica's packet says to the controller, before anything follows from it.
ghost use Rattle.pair_control.specs.Admitted.{IsCarried};
ghost use Rattle.pair_control.specs.ControllerView.{IsOneAway, numbers_of, partition_of, watched_of};
ghost use Rattle.pair_control.specs.Packets.{IsDone, SendsAtMost, message_of};
ghost use Rattle.pair_machine.specs.Controllers.{controller_hears, goes_down};
ghost use Rattle.pair_machine.specs.Messages.{Caught, Report};
ghost use Rattle.pair_machine.specs.Numbers.{replica_at};
ghost use Rattle.std.specs.Prelude.{◌≡◌, ◌<◌, ◌≤◌, ◌+◌, ◌^◌, ◌++◌, ◌∷◌, ◌⊎◌, [], Some, length};
ghost use Rattle.tuple_edge.specs.declared.packet.Body.TheVariants as body;
ghost use Rattle.tuple_edge.specs.declared.status.Status.TheVariants as status;

use crate::PairControl;
use tuple_edge::{Body, EdgeId, NodeId, Outbox, Status, Which};

impl PairControl {
    // What the packet itself changes; what isn't carried to a controller changes nothing.
    pub(crate) fn hear(&mut self, which: Which, body: &Body, out: &mut Outbox)
        requires carried { IsCarried self.old body.now }
        requires term { self.old.term + 1 < 2 ^ 64 }
        requires room { 1 ≤ out.old.spare }
        ensures does { IsDone self.old self.new out.old out.new
            (controller_hears (partition_of self.old) which (message_of body.now) (numbers_of self.old)) }
        ensures acked { self.new.acked ≡ self.old.acked }
        ensures sends { SendsAtMost 1 out.old out.new }
        ensures term { self.new.term ≤ self.old.term + 1 }
        ensures incs { (self.new.a.inc ≡ self.old.a.inc) × (self.new.b.inc ≡ self.old.b.inc) }
        // Who is named leader here stands beside a partner that isn't up.
        ensures alone { (self.new.term ≡ self.old.term) ⊎ IsOneAway self.new }
    {
        match *body {
            Body::Report { inc, edge, upto } => self.hear_report(which, inc, edge, upto),
            Body::Down { inc } => {
                if self.counts(which, inc) {
                    self.go_down(which, out);
                }
            }
            Body::AskStop { inc } => match which {
                Which::A => self.a.want_stop(inc),
                Which::B => self.b.want_stop(inc),
            },
            Body::AskBack => match which {
                Which::A => self.b.want_back(),
                Which::B => self.a.want_back(),
            },
            Body::Caught { inc } => {
                if self.inc(which) == inc && self.status(which) == Status::Catching {
                    self.come_up(which, out);
                }
            }
            _ => {}
        }
    }

    // What a replica reports of an in-edge: of that edge more may be due then.
    fn hear_report(&mut self, which: Which, inc: u64, edge: EdgeId, upto: u64)
        requires { edge.from < length self.old.acked }
        ensures numbers { numbers_of self.new
            ≡ (controller_hears (partition_of self.old) which (Report inc edge upto) (numbers_of self.old)).0 }
        ensures partition { partition_of self.new ≡ partition_of self.old }
        ensures acked { self.new.acked ≡ self.old.acked }
        ensures term { self.new.term ≡ self.old.term }
        ensures incs { (self.new.a.inc ≡ self.old.a.inc) × (self.new.b.inc ≡ self.old.b.inc) }
    {
        let edge = edge.from as usize;
        self.first_due = self.first_due.min(edge);
        self.end_due = self.end_due.max(edge + 1);
        match which {
            Which::A => self.a.hear_report(inc, edge, upto),
            Which::B => self.b.hear_report(inc, edge, upto),
        }
    }

    // A replica goes down, and no stop is wanted for it. Where it led, its partner leads if that is up.
    #[tactic(auto, using(crate::proofs::Due::all_due))]
    pub(crate) fn go_down(&mut self, which: Which, out: &mut Outbox)
        requires term { self.old.term + 1 < 2 ^ 64 }
        requires room { 1 ≤ out.old.spare }
        ensures does { IsDone self.old self.new out.old out.new
            (goes_down (partition_of self.old) which (numbers_of self.old)) }
        ensures acked { self.new.acked ≡ self.old.acked }
        ensures sends { SendsAtMost 1 out.old out.new }
        ensures term { self.new.term ≤ self.old.term + 1 }
        ensures incs { (self.new.a.inc ≡ self.old.a.inc) × (self.new.b.inc ≡ self.old.b.inc) }
        ensures down { (watched_of self.new which).status ≡ status.Down }
    {
        let partner = which.other();
        let led = self.leader == Some(which);
        let is_followed = self.status(partner) == Status::Up;
        // The least report is now the partner's, of each in-edge.
        self.first_due = 0;
        self.end_due = self.acked.len();
        match which {
            Which::A => self.a.go_down(),
            Which::B => self.b.go_down(),
        }
        if led && is_followed {
            self.term += 1;
            self.leader = Some(partner);
            self.tell_leader(partner, out);
        } else if led {
            self.leader = None;
        }
    }

    // A replica that was catching up is up. Where nobody leads, it is named leader.
    #[tactic(auto, using(crate::proofs::Due::up_a, crate::proofs::Due::up_b))]
    fn come_up(&mut self, which: Which, out: &mut Outbox)
        requires term { self.old.term + 1 < 2 ^ 64 }
        requires room { 1 ≤ out.old.spare }
        requires catching { (watched_of self.old which).status ≡ status.Catching }
        ensures does { IsDone self.old self.new out.old out.new
            (controller_hears (partition_of self.old) which (Caught (watched_of self.old which).inc) (numbers_of self.old)) }
        ensures acked { self.new.acked ≡ self.old.acked }
        ensures sends { SendsAtMost 1 out.old out.new }
        ensures term { self.new.term ≤ self.old.term + 1 }
        ensures incs { (self.new.a.inc ≡ self.old.a.inc) × (self.new.b.inc ≡ self.old.b.inc) }
        ensures alone { (self.new.term ≡ self.old.term) ⊎ IsOneAway self.new }
    {
        match which {
            Which::A => self.a.come_up(),
            Which::B => self.b.come_up(),
        }
        if self.leader.is_none() {
            self.term += 1;
            self.leader = Some(which);
            self.tell_leader(which, out);
        }
    }

    // Tells a replica that it leads in this term.
    fn tell_leader(&self, which: Which, out: &mut Outbox)
        requires { 1 ≤ out.old.spare }
        ensures packets { out.new.packets ≡ out.old.packets
            ++ (replica_at (partition_of self.now) which, body.Lead (watched_of self.now which).inc self.now.term) ∷ [] }
        ensures sends { SendsAtMost 1 out.old out.new }
    {
        let (inc, term) = (self.inc(which), self.term);
        self.send(which, Body::Lead { inc, term }, out);
    }

    // Sends a packet to one of the two replicas.
    pub(crate) fn send(&self, which: Which, body: Body, out: &mut Outbox)
        requires { 1 ≤ out.old.spare }
        ensures packets { out.new.packets ≡ out.old.packets
            ++ (replica_at (partition_of self.now) which, body) ∷ [] }
        ensures sends { SendsAtMost 1 out.old out.new }
    {
        let (stage, part) = (self.stage, self.part);
        out.push(NodeId::Replica { stage, part, which }, body);
    }
}
