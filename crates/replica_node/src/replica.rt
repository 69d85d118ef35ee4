// The replica: what it is, its events, and what can be read of it.
ghost use Rattle.merge_order.specs.Edges.{item_at};
ghost use Rattle.pair_machine.specs.Consumers.{pulled};
ghost use Rattle.pair_machine.specs.Counts.{items_on};
ghost use Rattle.pair_machine.specs.Machine.{new_node, replica_in};
ghost use Rattle.pair_machine.specs.Numbers.{Node, ReplicaNode, RunningNumbers, in_edge};
ghost use Rattle.pair_machine.specs.Numbers as numbers;
ghost use Rattle.pair_machine.specs.Receivers.{GoOverLinks, appended};
ghost use Rattle.plan_reader.specs.Nodes.{has_node};
ghost use Rattle.plan_reader.specs.PlanView.{IsPlan, PlanView};
ghost use Rattle.replica_node.specs.Admitted.{IsAdmitted, MayPullIn, MayWorkIn};
ghost use Rattle.replica_node.specs.Course.{AreTimely, IsDone, IsTaken, IsWorked};
ghost use Rattle.replica_node.specs.IsReplica.{IsMoving, IsReplica, IsRole};
ghost use Rattle.replica_node.specs.Phases.{count_in, inc_in, item_pulled, mode_in, newcomer_in, opening, running_in, served_in};
ghost use Rattle.replica_node.specs.ReplicaView.{node_of, partition_of, partner_of, with_phase};
ghost use Rattle.replica_node.specs.Rules.{IsSure, IsTakenBy, IsWaiting, IsWorkOf, TakesMemory, back_asked, contents_in, down_sent, dying, packets_of_work, stop_asked};
ghost use Rattle.replica_node.specs.StandsFor.{IsOfPlan, StandsFor};
ghost use Rattle.replica_node.specs.declared.phase.Mode.TheVariants as mode;
ghost use Rattle.replica_node.specs.declared.phase.Running.{Running as RunningPart};
ghost use Rattle.std.specs.Option.{option_and_then, option_map};
ghost use Rattle.std.specs.Prelude.{◌≡◌, ◌≢◌, ◌<◌, ◌≤◌, ◌+◌, ◌++◌, ◌↔◌, IfOk, IsTrue, List, None, OnErr, OnOk, Some, length};
ghost use Rattle.op_spec.specs.Times.{IsTimely};
ghost use Rattle.tuple_edge.specs.Input.{Input};
ghost use Rattle.tuple_edge.specs.declared.event.Event.TheVariants as event;
ghost use Rattle.tuple_edge.specs.declared.event.Worked.TheVariants.{Did, Idle};
ghost use Rattle.tuple_edge.specs.declared.node.NodeId.TheVariants as node;

use crate::phase::{Mode, Phase, Running};
use crate::role::Role;
use catch_up::Newcomer;
use flux_consumer::Consumer;
use flux_producer::Producer;
use node_edges::copy_of;
use partition_step::task_in;
use plan_reader::Plan;
use state_mover::Mover;
use std::alloc::Global;
use std::marker::Model;
use stream_ops::OpState;
use tuple_edge::{Body, Item, NUMBER_LIMIT, NodeId, OutOfMemory, Outbox, Row, Which, Worked};

/// One of the two replicas that run a partition.
#[derive(Drop)]
pub struct Replica {
    alloc: Global,
    role: Role,
    phase: Phase,
    // What the operator answered last: kept for its room alone.
    rows: Vec<Row>,
}

impl Model for Replica {
    ghost use Rattle.replica_node.specs.IsReplica.{IsPhase, IsRole};
    ghost use Rattle.replica_node.specs.ReplicaView.{ReplicaView};

    ghost Value = { ReplicaView };

    ghost view = { λ r. record { role = r.role; phase = r.phase } };

    ghost invariant = { λ r. IsRole r.role × IsPhase r.role r.phase };
}

impl Replica {
    /// A replica of a plan's partition, as it opens: it runs in its first incarnation and has taken
    /// nothing; replica A leads. [`Plan::has`] says beforehand whether the plan has it.
    pub fn new(
        alloc: Global,
        plan: &Plan,
        stage: u32,
        part: u32,
        which: Which,
    ) -> Result<Replica, OutOfMemory>
        requires there { IsTrue (has_node plan.now (node.Replica stage part which)) }
        ensures named { IfOk result (λ r. node_of r.role ≡ node.Replica stage part which) }
        ensures of_plan { IfOk result (λ r. IsOfPlan plan.now r.role) }
        ensures stands { IfOk result (λ r. (inputs : List Input) → StandsFor plan.now inputs r (new_node (node_of r.role))) }
    {
        let role = role_in(plan, stage, part, which);
        let running = Running::opening(alloc, &role)?;
        Ok(Replica {
            alloc,
            role,
            phase: Phase::Running(running),
            rows: Vec::new(alloc),
        })
    }

    /// Its name in the plan.
    pub fn id(&self) -> NodeId
        ensures { result ≡ node_of self.now.role }
    {
        self.role.id()
    }

    /// Takes a packet from a node. [`Replica::admits`] says beforehand whether it may be given. After want
    /// of memory only the room of the outbox may have changed.
    pub fn on(&mut self, from: NodeId, body: &Body, out: &mut Outbox) -> Result<(), OutOfMemory>
        requires admitted { IsAdmitted self.old from body.now }
        // What each packet does, by its rule, and what is sent.
        ensures taken { OnOk result (IsTakenBy from body.now self.old self.new (appended out.old.packets out.new.packets)) }
        ensures packets { out.new.packets ≡ out.old.packets ++ appended out.old.packets out.new.packets }
        ensures unchanged { OnErr result ((self.new ≡ self.old) × (out.new.packets ≡ out.old.packets)) }
        // A Lead, an Ack, a Want and a Stop never want memory, and others only for what they take.
        ensures wants { OnErr result (TakesMemory body.now self.old.phase) }
        // It sends over links of its plan alone, and stays the same replica.
        ensures few { length out.new.packets ≤ length out.old.packets + 2 }
        ensures linked { (plan : PlanView) → IsOfPlan plan self.old.role
            → GoOverLinks plan (node_of self.old.role) (appended out.old.packets out.new.packets) }
        ensures role { self.new.role ≡ self.old.role }
        // For the machine's laws: in each plan, whatever message the body stands for.
        ensures course { OnOk result ((plan : PlanView) (inputs : List Input) → IsPlan plan → AreTimely inputs
            → IsTaken plan inputs self.old self.new from body.now (appended out.old.packets out.new.packets)) }
    {
        self.take(from, body, out)
    }

    /// Does the first piece of work that is due of a merge, a part of a move, an item to send and a mark
    /// to report. Idle exactly where none is. [`Replica::may_work`] says beforehand that it may be
    /// called. After want of memory only the room of its edges and of the outbox may have changed.
    pub fn work(&mut self, out: &mut Outbox) -> Result<Worked, OutOfMemory>
        requires fits { MayWorkIn self.old.phase }
        ensures worked { IfOk result (IsWorkOf self.old self.new (appended out.old.packets out.new.packets)) }
        ensures packets { out.new.packets ≡ out.old.packets ++ appended out.old.packets out.new.packets }
        ensures idle { IfOk result (λ w. w ≡ Idle → (self.new ≡ self.old) × (out.new ≡ out.old)) }
        ensures unchanged { OnErr result ((contents_in self.new ≡ contents_in self.old) × (out.new.packets ≡ out.old.packets)) }
        // It sends over links of its plan alone, and stays the same replica.
        ensures few { length out.new.packets ≤ length out.old.packets + 1 }
        ensures linked { (plan : PlanView) → IsOfPlan plan self.old.role
            → GoOverLinks plan (node_of self.old.role) (appended out.old.packets out.new.packets) }
        ensures role { self.new.role ≡ self.old.role }
        // For the machine's laws, in each plan.
        ensures course { IfOk result (λ w. (plan : PlanView) (inputs : List Input) → IsPlan plan
            → IsWorked plan inputs self.old self.new (appended out.old.packets out.new.packets) w) }
    {
        self.do_first(1, out)
    }

    /// Does what [`Replica::work`] does, but where nothing is due except marks to report, it waits until some mark rose by
    /// `rise` since it was told. So marks that rise one by one needn't be reported one by one.
    pub fn work_or_wait(&mut self, rise: u64, out: &mut Outbox) -> Result<Worked, OutOfMemory>
        requires fits { MayWorkIn self.old.phase }
        ensures worked { IfOk result (λ w. w ≡ Did → IsWorkOf self.old self.new (appended out.old.packets out.new.packets) w) }
        ensures waits { IfOk result (λ w. w ≡ Idle → IsWaiting rise self.old.phase) }
        ensures risen { IfOk result (λ w. w ≡ Did → IsWaiting rise self.old.phase → ⊥) }
        ensures packets { out.new.packets ≡ out.old.packets ++ appended out.old.packets out.new.packets }
        ensures as_many { IfOk result (λ w. w ≡ Did → length out.new.packets ≡ length out.old.packets + packets_of_work self.old.phase) }
        ensures idle { IfOk result (λ w. w ≡ Idle → (self.new ≡ self.old) × (out.new ≡ out.old)) }
        ensures unchanged { OnErr result ((contents_in self.new ≡ contents_in self.old) × (out.new.packets ≡ out.old.packets)) }
        // It sends over links of its plan alone, and stays the same replica.
        ensures few { length out.new.packets ≤ length out.old.packets + 1 }
        ensures linked { (plan : PlanView) → IsOfPlan plan self.old.role
            → GoOverLinks plan (node_of self.old.role) (appended out.old.packets out.new.packets) }
        ensures role { self.new.role ≡ self.old.role }
        // For the machine's laws, in each plan.
        ensures course { IfOk result (λ w. IsSure rise w → (plan : PlanView) (inputs : List Input) → IsPlan plan
            → IsWorked plan inputs self.old self.new (appended out.old.packets out.new.packets) w) }
    {
        self.do_first(rise, out)
    }

    /// Whether a piece of work may be done: the count of merged items stays within its limit. It takes
    /// no memory.
    pub fn may_work(&self) -> bool
        ensures { IsTrue result ↔ MayWorkIn self.now.phase }
    {
        match self.phase.running() {
            None => true,
            Some(running) => {
                running.consumer.merge().count() < NUMBER_LIMIT - 1 || !running.consumer.ready()
            }
        }
    }

    /// It fails, and tells its controller. It takes no memory.
    pub fn kill(&mut self, out: &mut Outbox)
        requires there { mode_in self.old.phase ≢ mode.Gone }
        requires room { 1 ≤ out.old.spare }
        ensures gone { self.new ≡ dying self.old }
        ensures packets { out.new.packets ≡ out.old.packets ++ down_sent self.old }
        ensures linked { (plan : PlanView) → IsOfPlan plan self.old.role → GoOverLinks plan (node_of self.old.role) (down_sent self.old) }
        ensures course { (plan : PlanView) (inputs : List Input) → IsDone plan inputs self.old self.new (down_sent self.old) (event.Kill (node_of self.old.role)) }
    {
        let inc = self.phase.inc();
        self.phase.die();
        out.push(self.role.controller(), Body::Down { inc });
    }

    /// It asks its controller to be stopped. It takes no memory.
    pub fn ask_stop(&mut self, out: &mut Outbox)
        requires runs { mode_in self.old.phase ≡ mode.Running }
        requires room { 1 ≤ out.old.spare }
        ensures unchanged { self.new ≡ self.old }
        ensures packets { out.new.packets ≡ out.old.packets ++ stop_asked self.old }
        ensures linked { (plan : PlanView) → IsOfPlan plan self.old.role → GoOverLinks plan (node_of self.old.role) (stop_asked self.old) }
        ensures course { (plan : PlanView) (inputs : List Input) → IsDone plan inputs self.old self.new (stop_asked self.old) (event.AskStop (node_of self.old.role)) }
    {
        let inc = self.phase.inc();
        out.push(self.role.controller(), Body::AskStop { inc });
    }

    /// It asks its controller to bring its partner back. It takes no memory.
    pub fn ask_back(&mut self, out: &mut Outbox)
        requires runs { mode_in self.old.phase ≡ mode.Running }
        requires room { 1 ≤ out.old.spare }
        ensures unchanged { self.new ≡ self.old }
        ensures packets { out.new.packets ≡ out.old.packets ++ back_asked self.old }
        ensures linked { (plan : PlanView) → IsOfPlan plan self.old.role → GoOverLinks plan (node_of self.old.role) (back_asked self.old) }
        ensures course { (plan : PlanView) (inputs : List Input) → IsDone plan inputs self.old self.new (back_asked self.old) (event.AskBack (partner_of self.old.role)) }
    {
        out.push(self.role.controller(), Body::AskBack);
    }

    /// Takes the next item of an in-edge, straight from its producer. [`Replica::may_pull`] says
    /// beforehand that it may be called.
    pub fn pull(&mut self, edge: u32, item: Item) -> Result<(), OutOfMemory>
        requires edge { edge < self.old.role.sources }
        requires fits { MayPullIn edge self.old.phase }
        requires timely { IsTimely item }
        ensures taken { OnOk result (self.new ≡ with_phase self.old (item_pulled edge item self.old.phase)) }
        ensures unchanged { OnErr result (self.new ≡ self.old) }
        ensures role { self.new.role ≡ self.old.role }
        // In each plan where that is the edge's next item, the machine's replica takes it.
        ensures stands { OnOk result ((plan : PlanView) (inputs : List Input) (x : RunningNumbers) (n : Node) → IsPlan plan → StandsFor plan inputs self.old n
            → replica_in n ≡ numbers.Running x → item_at (items_on plan inputs (in_edge (partition_of self.old.role) edge)) (x.consumer.marks edge + 1) ≡ Some item
            → StandsFor plan inputs self.new (ReplicaNode (numbers.Running (record x { consumer = pulled x.consumer edge })))) }
    {
        self.phase.pull(edge, item)
    }

    /// Whether the next item of an in-edge may be pulled: the edge is there, the replica runs, and the
    /// number is within its limit. It takes no memory.
    pub fn may_pull(&self, edge: u32) -> bool
        ensures { IsTrue result ↔ ((edge < self.now.role.sources) × MayPullIn edge self.now.phase) }
    {
        match self.phase.running() {
            None => false,
            Some(running) => {
                edge < self.role.sources && running.consumer.merge().mark(edge) < NUMBER_LIMIT - 1
            }
        }
    }

    // Takes a packet by its rule.
    fn take(&mut self, from: NodeId, body: &Body, out: &mut Outbox) -> Result<(), OutOfMemory>
        requires admitted { IsAdmitted self.old from body.now }
        ensures taken { OnOk result (IsTakenBy from body.now self.old self.new (appended out.old.packets out.new.packets)) }
        ensures packets { out.new.packets ≡ out.old.packets ++ appended out.old.packets out.new.packets }
        ensures unchanged { OnErr result ((self.new ≡ self.old) × (out.new.packets ≡ out.old.packets)) }
        ensures wants { OnErr result (TakesMemory body.now self.old.phase) }
        ensures role { self.new.role ≡ self.old.role }
        ensures sound { IsReplica self.old }
    {
        let (phase, role) = (&mut self.phase, &self.role);
        match *body {
            Body::Tuple { edge, number, item } => phase.take_tuple(edge.from, number, item),
            Body::Ack { edge, upto } => {
                phase.take_ack(edge.to, upto);
                Ok(())
            }
            Body::Want { edge, from: number } => {
                phase.take_want(edge.to, copy_of(from), number);
                Ok(())
            }
            Body::Lead { inc, term } => {
                phase.take_lead(inc, term);
                Ok(())
            }
            Body::Serve { inc, target } => phase.take_serve(self.alloc, inc, target),
            Body::Begin { inc } => phase.take_begin(self.alloc, role.sources, inc),
            Body::Stop { inc } => {
                phase.take_stop(inc);
                Ok(())
            }
            Body::Chunk { inc, number, entry } => phase.take_chunk(role, inc, number, entry, out),
            Body::ChunkEnd { inc, count } => phase.take_end(role, inc, count, out),
            _ => Ok(()),
        }
    }

    // Does the first piece of work that is due, or waits for a mark to rise.
    fn do_first(&mut self, rise: u64, out: &mut Outbox) -> Result<Worked, OutOfMemory>
        requires fits { MayWorkIn self.old.phase }
        ensures worked { IfOk result (λ w. IsSure rise w → IsWorkOf self.old self.new (appended out.old.packets out.new.packets) w) }
        ensures waits { IfOk result (λ w. w ≡ Idle → IsWaiting rise self.old.phase) }
        ensures risen { IfOk result (λ w. w ≡ Did → IsWaiting rise self.old.phase → ⊥) }
        ensures packets { out.new.packets ≡ out.old.packets ++ appended out.old.packets out.new.packets }
        ensures as_many { IfOk result (λ w. w ≡ Did → length out.new.packets ≡ length out.old.packets + packets_of_work self.old.phase) }
        ensures idle { IfOk result (λ w. w ≡ Idle → (self.new ≡ self.old) × (out.new ≡ out.old)) }
        ensures unchanged { OnErr result ((contents_in self.new ≡ contents_in self.old) × (out.new.packets ≡ out.old.packets)) }
        ensures role { self.new.role ≡ self.old.role }
        ensures sound { IsReplica self.old }
    {
        self.phase.work(&self.role, &mut self.rows, rise, out)
    }

    // Which replica it is.
    pub(crate) fn role(&self) -> &Role
        ensures { result.now ≡ self.now.role }
    {
        &self.role
    }

    // Its mode, with what it has in it.
    pub(crate) fn phase(&self) -> &Phase
        ensures { result.now ≡ self.now.phase }
    {
        &self.phase
    }

    /// What it is: it runs, gathers, or is gone.
    pub fn mode(&self) -> Mode
        ensures { result ≡ mode_in self.now.phase }
    {
        self.phase.mode()
    }

    /// The incarnation that it is in.
    pub fn inc(&self) -> u64
        ensures { result ≡ inc_in self.now.phase }
    {
        self.phase.inc()
    }

    /// How many items it has merged; 0 unless it runs.
    pub fn count(&self) -> u64
        ensures { result ≡ count_in self.now.phase }
    {
        match self.phase.running() {
            None => 0,
            Some(running) => running.consumer.merge().count(),
        }
    }

    /// The greatest incarnation of its partner that it has served; 0 unless it runs.
    pub fn served(&self) -> u64
        ensures { result ≡ served_in self.now.phase }
    {
        match self.phase.running() {
            None => 0,
            Some(running) => running.served,
        }
    }

    /// What it takes; None exactly unless it runs.
    pub fn consumer(&self) -> Option<&Consumer>
        ensures { option_map (λ c. c.now) result ≡ option_map (λ r. r.consumer) (running_in self.now.phase) }
    {
        match self.phase.running() {
            None => None,
            Some(running) => Some(&running.consumer),
        }
    }

    /// What it sends; None exactly unless it runs.
    pub fn producer(&self) -> Option<&Producer>
        ensures { option_map (λ p. p.now) result ≡ option_map (λ r. r.producer) (running_in self.now.phase) }
    {
        match self.phase.running() {
            None => None,
            Some(running) => Some(&running.producer),
        }
    }

    /// Its operator; None exactly unless it runs.
    pub fn state(&self) -> Option<&OpState>
        ensures { option_map (λ s. s.now) result ≡ option_map (λ r. r.state) (running_in self.now.phase) }
    {
        match self.phase.running() {
            None => None,
            Some(running) => Some(&running.state),
        }
    }

    /// The move to its partner; None exactly where none is under way.
    pub fn mover(&self) -> Option<&Mover>
        ensures value { option_map (λ m. m.now) result ≡ option_and_then (λ r. r.mover) (running_in self.now.phase) }
        // It gives the entries that the operator had when it began, and has not given all.
        ensures moving { (r : RunningPart) → running_in self.now.phase ≡ Some r → IsMoving r.mover r.state.old }
    {
        match self.phase.running() {
            None => None,
            Some(running) => running.mover.as_ref(),
        }
    }

    /// What it gathers; None exactly unless it gathers.
    pub fn newcomer(&self) -> Option<&Newcomer>
        ensures { option_map (λ g. g.now) result ≡ newcomer_in self.now.phase }
    {
        match &self.phase {
            Phase::Gathering(newcomer) => Some(newcomer),
            Phase::Running(_) | Phase::Gone { .. } => None,
        }
    }
}

// What a partition of a plan does, and which of its replicas this is.
fn role_in(plan: &Plan, stage: u32, part: u32, which: Which) -> Role
    requires { IsTrue (has_node plan.now (node.Replica stage part which)) }
    ensures of_plan { IsOfPlan plan.now result }
    ensures limits { IsPlan plan.now }
    ensures named { node_of result ≡ node.Replica stage part which }
    ensures sound { IsRole result }
{
    let task = task_in(plan, stage, part);
    Role {
        stage,
        part,
        which,
        sources: plan.sources(stage),
        op: task.op,
        next: task.next,
    }
}

impl Running {
    // One that has taken nothing.
    fn opening(alloc: Global, role: &Role) -> Result<Running, OutOfMemory>
        requires role { IsRole role.now }
        ensures { IfOk result (λ r. r ≡ opening role.now) }
    {
        let leads = role.which == Which::A;
        let consumer = Consumer::new(alloc, role.sources)?;
        let producer = Producer::new(
            alloc,
            role.stage,
            role.part,
            role.targets(),
            role.copies(),
            leads,
        )?;
        Ok(Running {
            inc: 1,
            consumer,
            producer,
            state: OpState::new(alloc, role.op),
            served: 0,
            mover: None,
        })
    }
}
