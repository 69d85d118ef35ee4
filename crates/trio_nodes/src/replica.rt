// The replica of a group: what it is, its events, and what can be read of it.
ghost use Rattle.merge_order.specs.Edges.{item_at};
ghost use Rattle.op_spec.specs.Times.{IsTimely};
ghost use Rattle.pair_machine.specs.Consumers.{pulled};
ghost use Rattle.pair_machine.specs.Counts.{items_on};
ghost use Rattle.pair_machine.specs.Numbers.{in_edge};
ghost use Rattle.partition_step.specs.Places.{IsPlace};
ghost use Rattle.plan_reader.specs.Nodes.{has_pair};
ghost use Rattle.plan_reader.specs.PlanView.{IsPlan, PlanView};
ghost use Rattle.std.specs.Option.{option_map};
ghost use Rattle.std.specs.Prelude.{◌≡◌, ◌<◌, ◌≤◌, ◌+◌, ◌++◌, ◌↔◌, [], IfOk, IsSome, IsTrue, List, None, OnErr, OnOk, Some, is_some};
ghost use Rattle.trio_nodes.specs.Contents.{GoOverLinks, appended};
ghost use Rattle.trio_nodes.specs.Replica.{IsOfPlan, IsWorked, StandsFor};
ghost use Rattle.trio_nodes.specs.ReplicaView.{IsAdmitted, IsRunningIf, MayPull, MayWork, Works, contents_if, count_if, down_sent, node_of, partition_of, pulling, taking};
ghost use Rattle.trio_nodes.specs.Steps.{IsStep, IsTaken};
ghost use Rattle.trio_machine.specs.Machine.{new_node, replica_in};
ghost use Rattle.trio_machine.specs.Messages.{Dies};
ghost use Rattle.trio_machine.specs.Numbers.{Node, ReplicaNode, Running, RunningNumbers, group_size};
ghost use Rattle.trio_machine.specs.declared.node.TrioNode.TheVariants as node;
ghost use Rattle.tuple_edge.specs.Input.{Input};
ghost use Rattle.tuple_edge.specs.declared.event.Worked.TheVariants.{Idle};

use crate::TrioOutbox;
use crate::role::TrioRole;
use crate::running::TrioRunning;
use flux_consumer::Consumer;
use flux_producer::Producer;
use partition_step::task_in;
use plan_reader::Plan;
use std::alloc::Global;
use std::marker::Model;
use stream_ops::OpState;
use trio_machine::{TrioBody, TrioNode};
use tuple_edge::{Item, NUMBER_LIMIT, OutOfMemory, Row, Worked};

/// One of the three replicas that run a partition. It runs until it is killed, and is gone then.
#[derive(Drop)]
pub struct TrioReplica {
    role: TrioRole,
    running: Option<TrioRunning>,
    // What the operator answered last: kept for its room alone.
    rows: Vec<Row>,
}

impl Model for TrioReplica {
    ghost use Rattle.partition_step.specs.Places.{IsPlace};
    ghost use Rattle.trio_nodes.specs.ReplicaView.{IsRunningIf, ReplicaView, partition_of};

    ghost Value = { ReplicaView };

    ghost view = { λ r. record { role = r.role; running = r.running } };

    ghost invariant = { λ r. IsPlace (partition_of r.role) r.role.sources r.role.task × IsRunningIf r.role r.running };
}

// What a partition of a plan does, and which of its replicas this is.
fn role_in(plan: &Plan, stage: u32, part: u32, copy: u32) -> TrioRole
    requires { IsTrue (has_pair plan.now stage part) }
    ensures of_plan { IsOfPlan plan.now result }
    ensures place { IsPlace (partition_of result) result.sources result.task }
    ensures named { node_of result ≡ node.Replica stage part copy }
    ensures limits { IsPlan plan.now }
{
    TrioRole {
        stage,
        part,
        copy,
        sources: plan.sources(stage),
        task: task_in(plan, stage, part),
    }
}

impl TrioReplica {
    /// A replica of a plan's partition, as it opens: it runs and has taken nothing; replica 0 leads.
    pub fn new(
        alloc: Global,
        plan: &Plan,
        stage: u32,
        part: u32,
        copy: u32,
    ) -> Result<TrioReplica, OutOfMemory>
        requires there { IsTrue (has_pair plan.now stage part) }
        ensures named { IfOk result (λ r. node_of r.role ≡ node.Replica stage part copy) }
        ensures of_plan { IfOk result (λ r. IsOfPlan plan.now r.role) }
        ensures stands { IfOk result (λ r. (inputs : List Input) → StandsFor plan.now inputs r (new_node (node_of r.role))) }
    {
        let role = role_in(plan, stage, part, copy);
        let running = TrioRunning::opening(alloc, &role)?;
        Ok(TrioReplica {
            role,
            running: Some(running),
            rows: Vec::new(alloc),
        })
    }

    /// Its name in the plan.
    pub fn id(&self) -> TrioNode
        ensures { result ≡ node_of self.now.role }
    {
        self.role.id()
    }

    /// Takes a packet from a node. It sends nothing, and only one that runs takes anything.
    pub fn on(&mut self, from: TrioNode, body: &TrioBody) -> Result<(), OutOfMemory>
        requires admitted { IsAdmitted self.old.role body.now }
        ensures taken { OnOk result (self.new ≡ record self.old { running = taking body.now self.old.running }) }
        ensures unchanged { OnErr result (self.new ≡ self.old) }
        ensures role { self.new.role ≡ self.old.role }
        // In each plan it is the machine's step, whatever message the body stands for.
        ensures step { OnOk result ((plan : PlanView) (inputs : List Input) → IsTaken plan inputs (node_of self.old.role)
            (StandsFor plan inputs self.old) (StandsFor plan inputs self.new) from body.now []) }
    {
        self.take(from, body)
    }

    // Takes a packet by its rule.
    fn take(&mut self, from: TrioNode, body: &TrioBody) -> Result<(), OutOfMemory>
        requires admitted { IsAdmitted self.old.role body.now }
        ensures taken { OnOk result (self.new ≡ record self.old { running = taking body.now self.old.running }) }
        ensures unchanged { OnErr result (self.new ≡ self.old) }
        ensures role { self.new.role ≡ self.old.role }
    {
        // From whomever it comes, it is taken alike. Contracts name the sender.
        let _sender = from;
        match &mut self.running {
            None => Ok(()),
            Some(running) => running.take(&self.role, body),
        }
    }

    /// Does the first piece of work that is due of a merge, an item to send and a mark to report. Idle
    /// exactly where none is. [`TrioReplica::may_work`] says beforehand that it may be called. After want
    /// of memory only the room of its edges and of the outbox may have changed.
    pub fn work(&mut self, out: &mut TrioOutbox) -> Result<Worked, OutOfMemory>
        requires fits { MayWork self.old.running }
        ensures works { IfOk result (Works self.old.role self.old.running self.new.running (appended out.old.packets out.new.packets)) }
        ensures packets { out.new.packets ≡ out.old.packets ++ appended out.old.packets out.new.packets }
        ensures idle { IfOk result (λ w. w ≡ Idle → (self.new ≡ self.old) × (out.new ≡ out.old)) }
        ensures unchanged { OnErr result ((contents_if self.new.running ≡ contents_if self.old.running) × (out.new.packets ≡ out.old.packets)) }
        // It sends over links of its plan alone, and stays the same replica.
        ensures linked { (plan : PlanView) → IsOfPlan plan self.old.role → self.old.role.copy < group_size
            → GoOverLinks plan (node_of self.old.role) (appended out.old.packets out.new.packets) }
        ensures role { self.new.role ≡ self.old.role }
        // In each plan it is the machine's step.
        ensures step { IfOk result (λ w. (plan : PlanView) (inputs : List Input) → IsPlan plan
            → IsWorked plan inputs self.old self.new (appended out.old.packets out.new.packets) w) }
    {
        self.do_first(out)
    }

    // Does the first piece of work that is due.
    fn do_first(&mut self, out: &mut TrioOutbox) -> Result<Worked, OutOfMemory>
        requires fits { MayWork self.old.running }
        ensures works { IfOk result (Works self.old.role self.old.running self.new.running (appended out.old.packets out.new.packets)) }
        ensures packets { out.new.packets ≡ out.old.packets ++ appended out.old.packets out.new.packets }
        ensures idle { IfOk result (λ w. w ≡ Idle → (self.new ≡ self.old) × (out.new ≡ out.old)) }
        ensures unchanged { OnErr result ((contents_if self.new.running ≡ contents_if self.old.running) × (out.new.packets ≡ out.old.packets)) }
        ensures role { self.new.role ≡ self.old.role }
        ensures place { IsPlace (partition_of self.old.role) self.old.role.sources self.old.role.task }
        ensures runs { IsRunningIf self.old.role self.old.running }
    {
        match &mut self.running {
            None => Ok(Worked::Idle),
            Some(running) => running.work(&self.role, &mut self.rows, out),
        }
    }

    /// Whether a piece of work may be done: the count of merged items stays within its limit. It takes
    /// no memory.
    pub fn may_work(&self) -> bool
        ensures { IsTrue result ↔ MayWork self.now.running }
    {
        match &self.running {
            None => true,
            Some(running) => {
                !running.consumer.ready() || running.consumer.merge().count() < NUMBER_LIMIT - 1
            }
        }
    }

    /// It fails, and tells its controller. It takes no memory.
    pub fn kill(&mut self, out: &mut TrioOutbox)
        requires runs { IsSome self.old.running }
        requires room { 1 ≤ out.old.spare }
        ensures gone { self.new ≡ record self.old { running = None } }
        ensures packets { out.new.packets ≡ out.old.packets ++ down_sent self.old.role }
        ensures linked { (plan : PlanView) → IsOfPlan plan self.old.role → self.old.role.copy < group_size
            → GoOverLinks plan (node_of self.old.role) (down_sent self.old.role) }
        // In each plan it is the machine's step.
        ensures step { (plan : PlanView) (inputs : List Input) → IsStep plan inputs (node_of self.old.role)
            (StandsFor plan inputs self.old) (StandsFor plan inputs self.new) Dies (down_sent self.old.role) }
    {
        self.running = None;
        out.push(self.role.controller(), TrioBody::Down);
    }

    /// Takes the next item of an in-edge, straight from its producer. [`TrioReplica::may_pull`] says
    /// beforehand that it may be called.
    pub fn pull(&mut self, edge: u32, item: Item) -> Result<(), OutOfMemory>
        requires edge { edge < self.old.role.sources }
        requires fits { MayPull edge self.old.running }
        requires timely { IsTimely item }
        ensures taken { OnOk result (self.new ≡ record self.old { running = pulling edge item self.old.running }) }
        ensures unchanged { OnErr result (self.new ≡ self.old) }
        ensures role { self.new.role ≡ self.old.role }
        // In each plan where that is the edge's next item, the machine's replica takes it.
        ensures stands { OnOk result ((plan : PlanView) (inputs : List Input) (x : RunningNumbers) (n : Node) → IsPlan plan → StandsFor plan inputs self.old n
            → replica_in n ≡ Running x → item_at (items_on plan inputs (in_edge (partition_of self.old.role) edge)) (x.consumer.marks edge + 1) ≡ Some item
            → StandsFor plan inputs self.new (ReplicaNode (Running (record x { consumer = pulled x.consumer edge })))) }
    {
        self.take_next(edge, item)
    }

    // Takes the next item of an in-edge.
    fn take_next(&mut self, edge: u32, item: Item) -> Result<(), OutOfMemory>
        requires edge { edge < self.old.role.sources }
        requires fits { MayPull edge self.old.running }
        requires timely { IsTimely item }
        ensures taken { OnOk result (self.new ≡ record self.old { running = pulling edge item self.old.running }) }
        ensures unchanged { OnErr result (self.new ≡ self.old) }
        ensures role { self.new.role ≡ self.old.role }
    {
        match &mut self.running {
            None => Ok(()),
            Some(running) => running.pull(&self.role, edge, item),
        }
    }

    /// Whether the next item of an in-edge may be pulled: the edge is there, the replica runs, and the
    /// number is within its limit. It takes no memory.
    pub fn may_pull(&self, edge: u32) -> bool
        ensures { IsTrue result ↔ ((edge < self.now.role.sources) × MayPull edge self.now.running) }
    {
        match &self.running {
            None => false,
            Some(running) => {
                edge < self.role.sources && running.consumer.merge().mark(edge) < NUMBER_LIMIT - 1
            }
        }
    }

    /// Whether it runs.
    pub fn running(&self) -> bool
        ensures { result ≡ is_some self.now.running }
    {
        self.running.is_some()
    }

    /// How many items it has merged; 0 unless it runs.
    pub fn count(&self) -> u64
        ensures { result ≡ count_if self.now.running }
    {
        match &self.running {
            None => 0,
            Some(running) => running.consumer.merge().count(),
        }
    }

    /// What it takes; None exactly unless it runs.
    pub fn consumer(&self) -> Option<&Consumer>
        ensures { option_map (λ c. c.now) result ≡ option_map (λ r. r.consumer) self.now.running }
    {
        match &self.running {
            None => None,
            Some(running) => Some(&running.consumer),
        }
    }

    /// What it sends; None exactly unless it runs.
    pub fn producer(&self) -> Option<&Producer>
        ensures { option_map (λ p. p.now) result ≡ option_map (λ r. r.producer) self.now.running }
    {
        match &self.running {
            None => None,
            Some(running) => Some(&running.producer),
        }
    }

    /// Its operator; None exactly unless it runs.
    pub fn state(&self) -> Option<&OpState>
        ensures { option_map (λ s. s.now) result ≡ option_map (λ r. r.state) self.now.running }
    {
        match &self.running {
            None => None,
            Some(running) => Some(&running.state),
        }
    }
}
