// A node's own part, of any of the four kinds.
ghost use Rattle.pair_machine.specs.Machine.{replica_in};
ghost use Rattle.pair_machine.specs.Numbers.{Node};
ghost use Rattle.pair_machine.specs.Scripts.{HasMerged};
ghost use Rattle.plan_reader.specs.PlanView.{PlanView};
ghost use Rattle.replica_node.specs.StandsFor as replica;
ghost use Rattle.plan_nodes.specs.States.{Admits, HasActedBehind, IsIdle, IsOfPlan, MayDo, StandsFor, WantsRows, ended_at, gone_of, has_merged_end, id_of, rows_of, tells_loss};
ghost use Rattle.tuple_edge.specs.Limits.{most_packets};
ghost use Rattle.std.specs.Prelude.{◌≡◌, ◌≤◌, ◌+◌, IfSome, IsNone, List, Ok};
ghost use Rattle.tuple_edge.specs.Input.{Input};
ghost use Rattle.tuple_edge.specs.declared.event.Worked.TheVariants.{Idle};

use crate::acts::{control_acts, egress_acts, ingress_acts, replica_acts};
use crate::making::{ingress_feeds, ingress_makes};
use crate::may::{control_may, egress_may, ingress_may, replica_may};
use ingress_egress::{Egress, Ingress};
use node_tasks::{Acts, Steps, Task};
use pair_control::PairControl;
use plan_reader::Plan;
use replica_node::{Mode, Replica};
use tuple_edge::{
    Input, MOST_PACKETS, NodeId, OutOfMemory, Outbox, Packet, Row, Status, Which, Worked,
};

/// A node's own part: what it is, without its links and its history.
#[derive(Drop)]
pub enum NodeState {
    /// Where the inputs come in.
    Ingress(Ingress),
    /// One of the two replicas of a pair.
    Replica(Replica),
    /// The controller of a pair.
    Control(PairControl),
    /// Where the rows go out.
    Egress(Egress),
}

impl NodeState {
    /// Does what it is asked: the machine's step, whose packets lie behind those that the outbox has. Idle where there is
    /// nothing to do, as the machine says too, but for a packet that it may not be given, and for work that is nothing but to
    /// report marks of which none rose by `rise` since it was told.
    pub fn do_task(
        &mut self,
        task: &Task,
        rise: u64,
        out: &mut Outbox,
    ) -> Result<Worked, OutOfMemory>
        requires may { MayDo self.old task.now }
        requires room { most_packets ≤ out.old.spare }
        ensures acted { HasActedBehind self.old self.new task.now result out.old.packets out.new.packets }
        ensures idle { result ≡ Ok Idle → IsIdle rise self.old task.now }
    {
        match self {
            NodeState::Ingress(node) => ingress_acts(node, task, out),
            NodeState::Replica(node) => replica_acts(node, task, rise, out),
            NodeState::Control(node) => control_acts(node, task, out),
            NodeState::Egress(node) => egress_acts(node, task, out),
        }
    }

    /// No more inputs come to it: of ingress, those that came are all. It is no event of the machine.
    pub fn end(&mut self)
        ensures ended { self.new ≡ ended_at self.old }
        ensures inputs { (inputs : List Input) → Admits self.new inputs → Admits self.old inputs }
        // It stands for the same numbers, of each list of inputs that may be theirs now.
        ensures stands { (plan : PlanView) (inputs : List Input) (x : Node) → Admits self.new inputs → StandsFor plan inputs self.old x → StandsFor plan inputs self.new x }
        ensures of_plan { (plan : PlanView) → IsOfPlan plan self.old → IsOfPlan plan self.new }
    {
        match self {
            NodeState::Ingress(node) => node.end(),
            NodeState::Replica(_) | NodeState::Control(_) | NodeState::Egress(_) => {}
        }
    }

    /// Whether it tells that its pair is lost for good: a controller does, once it holds both replicas down.
    pub fn tells_loss(&self) -> bool
        ensures { result ≡ tells_loss self.now }
    {
        match self {
            NodeState::Control(node) => {
                node.status(Which::A) == Status::Down && node.status(Which::B) == Status::Down
            }
            NodeState::Ingress(_) | NodeState::Replica(_) | NodeState::Egress(_) => false,
        }
    }
}

impl Acts for NodeState {
    ghost id = { λ s. id_of s };

    ghost of_plan = { λ plan s. IsOfPlan plan s };

    ghost stands = { λ plan inputs s x. StandsFor plan inputs s x };

    ghost admits = { λ s inputs. Admits s inputs };

    ghost may = { λ s t. MayDo s t };

    ghost rows = { λ s. rows_of s };

    ghost gone = { λ s. gone_of s };

    ghost done = { λ s. has_merged_end s };

    ghost wants = { λ plan s. WantsRows plan s };

    fn id(&self) -> NodeId {
        match self {
            NodeState::Ingress(node) => node.id(),
            NodeState::Replica(node) => node.id(),
            NodeState::Control(node) => node.id(),
            NodeState::Egress(node) => node.id(),
        }
    }

    fn may(&self, task: &Task) -> bool {
        match self {
            NodeState::Ingress(node) => ingress_may(node, task),
            NodeState::Replica(node) => replica_may(node, task),
            NodeState::Control(node) => control_may(node, task),
            NodeState::Egress(node) => egress_may(node, task),
        }
    }

    fn act(&mut self, task: &Task, rise: u64, out: &mut Outbox) -> Result<Worked, OutOfMemory> {
        self.do_task(task, rise, out)
    }

    fn take(
        &mut self,
        from: NodeId,
        _index: u64,
        packet: &Packet,
        out: &mut Outbox,
    ) -> Result<Worked, OutOfMemory> {
        self.take_packet(from, packet, out)
    }

    fn work(&mut self, most: usize, rise: u64, out: &mut Outbox) -> Result<Steps, OutOfMemory> {
        let each = self.packets_of_work();
        for count in 0..most {
            let done = Steps { count, each };
            let fits = out.len() + each <= MOST_PACKETS;
            if !fits || self.packets_of_work() != each || !self.may(&Task::Work) {
                return Ok(done);
            }
            match self.work_once(rise, out) {
                Ok(Worked::Did) => {}
                Ok(Worked::Idle) => return Ok(done),
                // What was done before memory lacked stays done.
                Err(lack) => return if count == 0 { Err(lack) } else { Ok(done) },
            }
        }
        Ok(Steps { count: most, each })
    }

    fn make(&mut self, most: usize, plan: &Plan) -> Result<usize, OutOfMemory> {
        match self {
            NodeState::Ingress(node) => ingress_makes(node, most, plan),
            NodeState::Replica(_) | NodeState::Control(_) | NodeState::Egress(_) => Ok(0),
        }
    }

    fn feed(&mut self, input: Input) -> Result<bool, OutOfMemory> {
        match self {
            NodeState::Ingress(node) => ingress_feeds(node, input),
            NodeState::Replica(_) | NodeState::Control(_) | NodeState::Egress(_) => Ok(false),
        }
    }

    fn refill(&mut self, _most: usize) -> Result<(), OutOfMemory> {
        Ok(())
    }

    fn merged(&self) -> Option<u64> {
        match self {
            NodeState::Replica(node) => merged_by(node),
            NodeState::Ingress(_) | NodeState::Control(_) | NodeState::Egress(_) => None,
        }
    }

    fn is_done(&self) -> bool {
        match self {
            NodeState::Egress(node) => node.done(),
            NodeState::Ingress(_) | NodeState::Replica(_) | NodeState::Control(_) => false,
        }
    }

    fn emitted(&self) -> &[Row] {
        match self {
            NodeState::Egress(node) => node.emitted(),
            NodeState::Ingress(_) | NodeState::Replica(_) | NodeState::Control(_) => &[],
        }
    }

    fn first(&self) -> Option<Row> {
        match self {
            NodeState::Egress(node) => node.first(),
            NodeState::Ingress(_) | NodeState::Replica(_) | NodeState::Control(_) => None,
        }
    }

    fn let_go(&mut self) -> Option<Row> {
        match self {
            NodeState::Egress(node) => node.let_go(),
            NodeState::Ingress(_) | NodeState::Replica(_) | NodeState::Control(_) => None,
        }
    }
}

// How many items a replica has merged, where it runs.
fn merged_by(node: &Replica) -> Option<u64>
    ensures merged { IfSome result (λ k. (plan : PlanView) (inputs : List Input) (x : Node) → replica.StandsFor plan inputs node.now x → HasMerged k (replica_in x)) }
    ensures most { IfSome result (λ k. (plan : PlanView) (inputs : List Input) (x : Node) → replica.StandsFor plan inputs node.now x → HasMerged (k + 1) (replica_in x) → ⊥) }
    ensures runs { IsNone result → (plan : PlanView) (inputs : List Input) (x : Node) → replica.StandsFor plan inputs node.now x → HasMerged 0 (replica_in x) → ⊥ }
{
    if node.mode() == Mode::Running {
        Some(node.count())
    } else {
        None
    }
}
