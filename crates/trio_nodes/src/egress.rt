// Egress as a node, where partitions are groups of three.
ghost use Rattle.ingress_egress.specs.EgressStands.{IsOfPlan};
ghost use Rattle.ingress_egress.specs.EgressView.{IsFrontOf, MayPull, MayWork, after_tuple, is_end, pulling};
ghost use Rattle.merge_order.specs.Edges.{item_at};
ghost use Rattle.pair_machine.specs.Boundary.{egress_partition};
ghost use Rattle.pair_machine.specs.Consumers.{pulled};
ghost use Rattle.pair_machine.specs.Counts.{flow_of, items_on};
ghost use Rattle.pair_machine.specs.Numbers.{in_edge};
ghost use Rattle.pair_machine.specs.Output.{output};
ghost use Rattle.plan_reader.specs.PlanView.{IsPlan, PlanView};
ghost use Rattle.std.specs.Prelude.{◌≡◌, ◌<◌, ◌≤◌, ◌+◌, ◌↔◌, ◌++◌, ◌∷◌, [], List, Some, IfOk, OnErr, OnOk, IsTrue, length, vec_capacity, vec_len};
ghost use Rattle.stream_ops.specs.Answers.{rows_of};
ghost use Rattle.trio_nodes.specs.Contents.{GoOverLinks, appended};
ghost use Rattle.trio_nodes.specs.Egress.{IsAdmitted, IsWorked, StandsFor, taking, working};
ghost use Rattle.trio_nodes.specs.Group.{to_three};
ghost use Rattle.trio_nodes.specs.Steps.{IsTaken};
ghost use Rattle.trio_machine.specs.Machine.{egress_in, new_node};
ghost use Rattle.trio_machine.specs.Numbers.{EgressNode, Node};
ghost use Rattle.trio_machine.specs.declared.body.TrioBody.TheVariants as body;
ghost use Rattle.trio_machine.specs.declared.node.TrioNode.TheVariants as node;
ghost use Rattle.tuple_edge.specs.Input.{Input};
ghost use Rattle.tuple_edge.specs.declared.event.Worked.TheVariants.{Idle};

use crate::TrioOutbox;
use crate::group::send_to_group;
use flux_consumer::Consumer;
use plan_reader::Plan;
use std::alloc::Global;
use std::marker::Model;
use trio_machine::{TrioBody, TrioNode};
use tuple_edge::{EdgeId, Item, NUMBER_LIMIT, OutOfMemory, Row, Worked};

/// Egress: it merges what the last stage sends, emits the rows, and acknowledges what it has taken.
#[derive(Drop)]
pub struct TrioEgress {
    stages: u32,
    consumer: Consumer,
    emitted: Vec<Row>,
    done: bool,
}

impl Model for TrioEgress {
    ghost use Rattle.ingress_egress.specs.EgressView.{EgressView};
    ghost use Rattle.std.specs.Prelude.{◌≤◌, []};

    ghost Value = { EgressView };

    ghost view = { λ e. record { stages = e.stages; consumer = e.consumer; emitted = e.emitted.items; gone = []; done = e.done } };

    ghost invariant = { λ e. 1 ≤ e.stages };
}

impl TrioEgress {
    /// Egress of a plan, as it opens: nothing was taken.
    pub fn new(alloc: Global, plan: &Plan) -> Result<TrioEgress, OutOfMemory>
        ensures of_plan { IfOk result (IsOfPlan plan.now) }
        ensures stands { IfOk result (λ e. (inputs : List Input) → StandsFor plan.now inputs e (new_node node.Egress)) }
    {
        let stages = plan.stages().len() as u32;
        let consumer = Consumer::new(alloc, plan.sources(stages + 1))?;
        Ok(TrioEgress {
            stages,
            consumer,
            emitted: Vec::new(alloc),
            done: false,
        })
    }

    /// Its name in every plan.
    pub fn id(&self) -> TrioNode
        ensures { result ≡ node.Egress }
    {
        TrioNode::Egress
    }

    /// Takes a packet from a replica of the last stage. It sends nothing.
    pub fn on(&mut self, from: TrioNode, body: &TrioBody) -> Result<(), OutOfMemory>
        requires admitted { IsAdmitted self.old from body.now }
        ensures taken { OnOk result (self.new ≡ taking self.old body.now) }
        ensures unchanged { OnErr result (self.new ≡ self.old) }
        ensures emitted { self.new.emitted ≡ self.old.emitted }
        ensures of_plan { (plan : PlanView) → IsOfPlan plan self.old → IsOfPlan plan self.new }
        // In each plan it is the machine's step, whatever message the body stands for.
        ensures step { OnOk result ((plan : PlanView) (inputs : List Input) → IsTaken plan inputs node.Egress
            (StandsFor plan inputs self.old) (StandsFor plan inputs self.new) from body.now []) }
    {
        // From whomever it comes, it is taken alike. Contracts name the sender.
        let _sender = from;
        match *body {
            TrioBody::Tuple { edge, number, item } => self.offer(edge.from, number, item),
            _ => Ok(()),
        }
    }

    /// Takes the next item of an edge, straight from its producer. [`TrioEgress::may_pull`] says
    /// beforehand that it may be called.
    pub fn pull(&mut self, edge: u32, item: Item) -> Result<(), OutOfMemory>
        requires edge { edge < length self.old.consumer.merge.marks }
        requires fits { MayPull self.old edge }
        ensures taken { OnOk result (self.new ≡ pulling self.old edge item) }
        ensures unchanged { OnErr result (self.new ≡ self.old) }
        ensures emitted { self.new.emitted ≡ self.old.emitted }
        ensures of_plan { (plan : PlanView) → IsOfPlan plan self.old → IsOfPlan plan self.new }
        // In each plan where that is the edge's next item, the machine's egress takes it.
        ensures stands { OnOk result ((plan : PlanView) (inputs : List Input) (x : Node) → IsPlan plan → StandsFor plan inputs self.old x
            → item_at (items_on plan inputs (in_edge (egress_partition (flow_of plan inputs)) edge)) ((egress_in x).marks edge + 1) ≡ Some item
            → StandsFor plan inputs self.new (EgressNode (pulled (egress_in x) edge))) }
    {
        let mark = self.consumer.merge().mark(edge);
        self.offer(edge, mark + 1, item)
    }

    // Takes an item of an edge where its number follows the edge's mark.
    fn offer(&mut self, edge: u32, number: u64, item: Item) -> Result<(), OutOfMemory>
        requires { edge < length self.old.consumer.merge.marks }
        ensures taken { OnOk result (self.new ≡ after_tuple self.old edge number item) }
        ensures unchanged { OnErr result (self.new ≡ self.old) }
    {
        self.consumer.tuple(edge, number, item)?;
        Ok(())
    }

    /// Does the first piece of work that is due: it merges the next item and emits it where it is a row,
    /// or acknowledges the first edge of which more was taken than acknowledged, to the three replicas
    /// that send it. Idle exactly where neither is due. [`TrioEgress::may_work`] says beforehand that it
    /// may be called.
    pub fn work(&mut self, out: &mut TrioOutbox) -> Result<Worked, OutOfMemory>
        requires fits { MayWork self.old }
        ensures worked { IfOk result (λ w. w ≡ (working self.old).worked) }
        ensures after { OnOk result (self.new ≡ (working self.old).after) }
        ensures packets { OnOk result (out.new.packets ≡ out.old.packets ++ (working self.old).sent) }
        // Where nothing is due, or memory is wanting, nothing changes.
        ensures idle { IfOk result (λ w. w ≡ Idle → (self.new ≡ self.old) × (out.new ≡ out.old)) }
        ensures unchanged { OnErr result ((self.new ≡ self.old) × (out.new ≡ out.old)) }
        // It sends over links of its plan alone, and the rows emitted stay.
        ensures linked { (plan : PlanView) → IsOfPlan plan self.old
            → GoOverLinks plan node.Egress (appended out.old.packets out.new.packets) }
        ensures of_plan { (plan : PlanView) → IsOfPlan plan self.old → IsOfPlan plan self.new }
        ensures emitted { IsFrontOf self.old.emitted self.new.emitted }
        // In each plan it is the machine's step.
        ensures step { IfOk result (λ w. (plan : PlanView) (inputs : List Input) → IsPlan plan
            → IsWorked plan inputs self.old self.new (working self.old).sent w) }
    {
        self.do_first(out)
    }

    // Does the first piece of work that is due.
    fn do_first(&mut self, out: &mut TrioOutbox) -> Result<Worked, OutOfMemory>
        requires fits { MayWork self.old }
        ensures worked { IfOk result (λ w. w ≡ (working self.old).worked) }
        ensures after { OnOk result (self.new ≡ (working self.old).after) }
        ensures packets { OnOk result (out.new.packets ≡ out.old.packets ++ (working self.old).sent) }
        ensures idle { IfOk result (λ w. w ≡ Idle → (self.new ≡ self.old) × (out.new ≡ out.old)) }
        ensures unchanged { OnErr result ((self.new ≡ self.old) × (out.new ≡ out.old)) }
        ensures some { 1 ≤ self.old.stages }
    {
        if let Some(head) = self.consumer.least() {
            self.emitted.reserve(1)?;
            self.consumer.pass(&head);
            let ended = emit(&mut self.emitted, head.item);
            self.done = self.done || ended;
            return Ok(Worked::Did);
        }
        match self.consumer.report_due() {
            None => Ok(Worked::Idle),
            Some((edge, mark)) => {
                out.reserve(3)?;
                self.consumer.tell(edge);
                send_ack(self.stages, edge, mark, out);
                Ok(Worked::Did)
            }
        }
    }

    /// Whether a piece of work may be done: the count of merged items stays within its limit. It takes no
    /// memory.
    pub fn may_work(&self) -> bool
        ensures { IsTrue result ↔ MayWork self.now }
    {
        !self.consumer.ready() || self.consumer.merge().count() < NUMBER_LIMIT - 1
    }

    /// Whether the next item of an edge may be pulled: its number is within the limit. It takes no memory.
    pub fn may_pull(&self, edge: u32) -> bool
        requires { edge < length self.now.consumer.merge.marks }
        ensures { IsTrue result ↔ MayPull self.now edge }
    {
        self.consumer.merge().mark(edge) < NUMBER_LIMIT - 1
    }

    /// The rows that were merged, in order.
    pub fn emitted(&self) -> &[Row]
        ensures { result.now ≡ self.now.emitted }
    {
        &self.emitted
    }

    /// Whether the end was merged.
    pub fn done(&self) -> bool
        ensures value { result ≡ self.now.done }
        // In each plan: the end ends the merged list, so then all of it was merged, and the rows are the output.
        ensures whole { (plan : PlanView) (inputs : List Input) (x : Node) → IsPlan plan → StandsFor plan inputs self.now x
            → IsTrue result ↔ ((egress_in x).count ≡ (flow_of plan inputs).total (egress_partition (flow_of plan inputs))) }
        ensures output { (plan : PlanView) (inputs : List Input) (x : Node) → IsPlan plan → StandsFor plan inputs self.now x
            → IsTrue result → self.now.emitted ≡ output plan inputs }
    {
        self.done
    }

    /// What it takes.
    pub fn consumer(&self) -> &Consumer
        ensures { result.now ≡ self.now.consumer }
    {
        &self.consumer
    }
}

// Acknowledges what was taken of an edge to the three replicas that send it.
fn send_ack(stages: u32, edge: u32, mark: u64, out: &mut TrioOutbox)
    requires { 3 ≤ out.old.spare }
    ensures { out.new.packets ≡ out.old.packets
        ++ to_three stages edge (body.Ack (record { stage = stages; from = edge; to = 0 }) mark) }
{
    let body = TrioBody::Ack {
        edge: EdgeId {
            stage: stages,
            from: edge,
            to: 0,
        },
        upto: mark,
    };
    send_to_group(stages, edge, body, out);
}

// Emits a merged item where it is a row, and says whether it is the end.
fn emit(emitted: &mut Vec<Row>, item: Item) -> bool
    requires room { vec_len emitted.old < vec_capacity emitted.old }
    ensures rows { emitted.new.items ≡ emitted.old.items ++ rows_of (item ∷ []) }
    ensures end { result ≡ is_end item }
{
    match item {
        Item::Row { row, .. } => {
            emitted.push_reserved(row);
            false
        }
        Item::Mark { .. } => false,
        Item::End { .. } => true,
    }
}
