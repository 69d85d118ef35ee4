// Ingress as a node, where partitions are groups of three.
ghost use Rattle.flux_producer.specs.ProducerView.{contents_of};
ghost use Rattle.node_edges.specs.OutEdges.{HasMade};
ghost use Rattle.pair_machine.specs.CountLaws.{made_for};
ghost use Rattle.pair_machine.specs.Edges.{edge_to};
ghost use Rattle.plan_reader.specs.PlanView.{IsPlan, PlanView};
ghost use Rattle.std.specs.Prelude.{◌≡◌, ◌<◌, ◌≤◌, ◌+◌, ◌++◌, [], IfOk, List, OnErr, OnOk, Some, length, slice_get};
ghost use Rattle.trio_nodes.specs.Contents.{GoOverLinks, appended};
ghost use Rattle.trio_nodes.specs.Ingress.{IsMadeIn, IsOfPlan, IsWorked, StandsFor};
ghost use Rattle.trio_nodes.specs.IngressView.{IsAdmitted, IsIngress, IsMade, contents_in, taking, tuples_of, working};
ghost use Rattle.trio_nodes.specs.Steps.{IsTaken};
ghost use Rattle.trio_machine.specs.Flow.{IsTrioPlan};
ghost use Rattle.trio_machine.specs.Machine.{new_node};
ghost use Rattle.trio_machine.specs.declared.node.TrioNode.TheVariants as node;
ghost use Rattle.tuple_edge.specs.Input.{Input, from_first};
ghost use Rattle.tuple_edge.specs.declared.event.Worked.TheVariants.{Idle};

use crate::group::replica;
use crate::{GROUP_SIZE, TrioOutbox};
use flux_producer::{Due, Producer};
use ingress_egress::make_at;
use partition_step::make_room;
use plan_reader::{Plan, Stage};
use std::alloc::Global;
use std::marker::Model;
use trio_machine::{TrioBody, TrioNode};
use tuple_edge::{EdgeId, Input, Item, OutOfMemory, Row, Worked};

/// Ingress: it makes the inputs into items, one after another, and sends them, with the marks and the end,
/// to the first stage. It has one source.
#[derive(Drop)]
pub struct TrioIngress {
    rows: Vec<Row>,
    first: Stage,
    mark: u64,
    makes: u64,
    producer: Producer,
}

impl Model for TrioIngress {
    ghost use Rattle.trio_nodes.specs.IngressView.{IngressView, IsIngress};
    ghost use Rattle.tuple_edge.specs.Input.{from_first};
    ghost use Rattle.std.specs.Prelude.{◌≤◌, ◌+◌, length};

    ghost Value = { IngressView };

    ghost view = { λ i. record { inputs = from_first i.rows.items; first = i.first; mark = i.mark; makes = i.makes; producer = i.producer } };

    ghost invariant = { λ i. (i.makes ≤ length i.rows.items + 1) × IsIngress i.first i.mark i.producer };
}

// The first stage of a plan.
fn first_stage(plan: &Plan) -> Stage
    ensures first { slice_get plan.now.stages 0 ≡ Some result }
    ensures some { 1 ≤ result.parts }
    ensures limits { IsPlan plan.now }
{
    plan.stages()[0]
}

impl TrioIngress {
    /// Ingress of a plan and its rows, as it opens: nothing was made.
    pub fn new(alloc: Global, plan: &Plan, rows: &[Row]) -> Result<TrioIngress, OutOfMemory>
        ensures of_plan { IfOk result (IsOfPlan plan.now) }
        ensures stands { IfOk result (λ i. IsTrioPlan plan.now → StandsFor plan.now (from_first rows.now) i (new_node node.Ingress)) }
    {
        let first = first_stage(plan);
        let mark = plan.mark();
        let rows = Vec::from_slice(alloc, rows)?;
        let producer = Producer::new(alloc, 0, 0, first.parts, GROUP_SIZE, true)?;
        Ok(TrioIngress {
            rows,
            first,
            mark,
            makes: 0,
            producer,
        })
    }

    /// Its name in every plan.
    pub fn id(&self) -> TrioNode
        ensures { result ≡ node.Ingress }
    {
        TrioNode::Ingress
    }

    /// Takes an acknowledgement of a controller of the first stage. It sends nothing, and takes no memory.
    pub fn on(&mut self, from: TrioNode, body: &TrioBody)
        requires admitted { IsAdmitted self.old from body.now }
        ensures taken { self.new ≡ taking self.old body.now }
        ensures inputs { self.new.inputs ≡ self.old.inputs }
        ensures of_plan { (plan : PlanView) → IsOfPlan plan self.old → IsOfPlan plan self.new }
        // In each plan it is the machine's step, whatever message the body stands for.
        ensures step { (plan : PlanView) (inputs : List Input) → IsTaken plan inputs node.Ingress
            (StandsFor plan inputs self.old) (StandsFor plan inputs self.new) from body.now [] }
    {
        self.take(from, body);
    }

    // Takes an acknowledgement.
    fn take(&mut self, from: TrioNode, body: &TrioBody)
        requires admitted { IsAdmitted self.old from body.now }
        ensures { self.new ≡ taking self.old body.now }
    {
        // From whomever it comes, it is taken alike. Contracts name the sender.
        let _sender = from;
        match *body {
            TrioBody::Ack { edge, upto } => self.producer.ack(edge.to, upto),
            _ => {}
        }
    }

    /// Makes the next input into an item on the edge that routing names, and where a mark is due into one
    /// on every edge; after the inputs it makes the end on every edge. Idle exactly where the end was made
    /// before. It sends nothing, and may always be called. After want of memory only the room of the buffers
    /// may have changed.
    pub fn make(&mut self) -> Result<Worked, OutOfMemory>
        ensures made { IfOk result (IsMade self.old self.new) }
        ensures unchanged { OnErr result (contents_in self.new ≡ contents_in self.old) }
        ensures inputs { self.new.inputs ≡ self.old.inputs }
        ensures of_plan { (plan : PlanView) → IsOfPlan plan self.old → IsOfPlan plan self.new }
        // In each plan it is the machine's step.
        ensures step { IfOk result (λ m. (plan : PlanView) (inputs : List Input) → IsTrioPlan plan → IsMadeIn plan inputs self.old self.new m) }
    {
        self.make_next()
    }

    // Makes the next input, or the end, into items.
    fn make_next(&mut self) -> Result<Worked, OutOfMemory>
        ensures made { IfOk result (IsMade self.old self.new) }
        ensures unchanged { OnErr result (contents_in self.new ≡ contents_in self.old) }
    {
        if self.makes > self.rows.len() as u64 {
            return Ok(Worked::Idle);
        }
        let input = input_at(&self.rows, self.makes as usize);
        let stamp = self.makes + 1;
        make_with_room(&mut self.producer, &self.first, self.mark, stamp, input)?;
        self.makes = stamp;
        Ok(Worked::Did)
    }

    /// Sends what is due. Idle exactly where nothing is. It may always be called.
    pub fn work(&mut self, out: &mut TrioOutbox) -> Result<Worked, OutOfMemory>
        ensures worked { IfOk result (λ w. w ≡ (working self.old).worked) }
        ensures after { OnOk result (self.new ≡ (working self.old).after) }
        ensures packets { OnOk result (out.new.packets ≡ out.old.packets ++ (working self.old).sent) }
        // Where nothing is due, or memory is wanting, nothing changes.
        ensures idle { IfOk result (λ w. w ≡ Idle → (self.new ≡ self.old) × (out.new ≡ out.old)) }
        ensures unchanged { OnErr result ((self.new ≡ self.old) × (out.new ≡ out.old)) }
        // It sends over links of its plan alone.
        ensures linked { (plan : PlanView) → IsOfPlan plan self.old
            → GoOverLinks plan node.Ingress (appended out.old.packets out.new.packets) }
        ensures inputs { self.new.inputs ≡ self.old.inputs }
        ensures of_plan { (plan : PlanView) → IsOfPlan plan self.old → IsOfPlan plan self.new }
        // In each plan it is the machine's step.
        ensures step { IfOk result (λ w. (plan : PlanView) (inputs : List Input) → IsTrioPlan plan
            → IsWorked plan inputs self.old self.new (working self.old).sent w) }
    {
        self.send(out)
    }

    // Sends what is due.
    fn send(&mut self, out: &mut TrioOutbox) -> Result<Worked, OutOfMemory>
        ensures worked { IfOk result (λ w. w ≡ (working self.old).worked) }
        ensures after { OnOk result (self.new ≡ (working self.old).after) }
        ensures packets { OnOk result (out.new.packets ≡ out.old.packets ++ (working self.old).sent) }
        ensures idle { IfOk result (λ w. w ≡ Idle → (self.new ≡ self.old) × (out.new ≡ out.old)) }
        ensures unchanged { OnErr result ((self.new ≡ self.old) × (out.new ≡ out.old)) }
        ensures ingress { IsIngress self.old.first self.old.mark self.old.producer }
    {
        if self.producer.due().is_none() {
            return Ok(Worked::Idle);
        }
        out.reserve(1)?;
        if let Some((due, item)) = self.producer.send_due() {
            push_tuple(due, item, out);
        }
        Ok(Worked::Did)
    }

    /// How many inputs, or the end, were made into items.
    pub fn makes(&self) -> u64
        ensures { result ≡ self.now.makes }
    {
        self.makes
    }

    /// What it sends.
    pub fn producer(&self) -> &Producer
        ensures { result.now ≡ self.now.producer }
    {
        &self.producer
    }
}

// The input at a place, from 0, if there is one.
fn input_at(rows: &[Row], nth: usize) -> Option<Input>
    ensures { result ≡ slice_get (from_first rows.now) nth }
{
    match rows.get(nth) {
        None => None,
        Some(row) => Some(Input {
            source: 0,
            row: *row,
        }),
    }
}

// Makes room on every edge for what one make gives, and produces it.
fn make_with_room(
    producer: &mut Producer,
    first: &Stage,
    mark: u64,
    stamp: u64,
    input: Option<Input>,
) -> Result<(), OutOfMemory>
    requires parts { 1 ≤ first.now.parts }
    requires targets { length producer.old.edges ≡ first.now.parts }
    requires mark { 1 ≤ mark }
    ensures made { OnOk result (HasMade (λ t. edge_to (Some first.now) t (made_for 0 mark stamp input)) producer.old producer.new) }
    ensures contents { OnErr result (contents_of producer.new ≡ contents_of producer.old) }
{
    make_room(producer, 2)?;
    make_at(producer, 0, first, mark, stamp, input);
    Ok(())
}

// Sends an item to the replica that it is due to.
fn push_tuple(due: Due, item: Item, out: &mut TrioOutbox)
    requires { 1 ≤ out.old.spare }
    ensures { out.new.packets ≡ out.old.packets ++ tuples_of due (Some item) }
{
    let edge = EdgeId {
        stage: 0,
        from: 0,
        to: due.to,
    };
    let number = due.number;
    let body = TrioBody::Tuple { edge, number, item };
    out.push(replica(1, due.to, due.copy), body);
}
