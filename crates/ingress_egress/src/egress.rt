// Egress as a node: what it is, and what can be read of it.
ghost use Rattle.ingress_egress.specs.EgressStands.{IsAdmitted, IsOfPlan, IsTaken, IsWorked, StandsFor};
ghost use Rattle.ingress_egress.specs.EgressView.{EgressView, IsFrontOf, MayPull, MayWork, acknowledgements, after_tuple, is_end, pulling, taking, working};
ghost use Rattle.merge_order.specs.Edges.{item_at};
ghost use Rattle.pair_machine.specs.Boundary.{egress_partition};
ghost use Rattle.pair_machine.specs.Consumers.{pulled};
ghost use Rattle.pair_machine.specs.Counts.{flow_of, items_on};
ghost use Rattle.pair_machine.specs.Machine.{egress_in, new_node};
ghost use Rattle.pair_machine.specs.Numbers.{EgressNode, Node, in_edge};
ghost use Rattle.pair_machine.specs.Output.{output};
ghost use Rattle.pair_machine.specs.Receivers.{GoOverLinks, appended};
ghost use Rattle.plan_reader.specs.PlanView.{IsPlan, PlanView};
ghost use Rattle.std.specs.Prelude.{◌≡◌, ◌<◌, ◌≤◌, ◌+◌, ◌↔◌, ◌++◌, ◌∷◌, [], List, None, Some, IfOk, OnErr, OnOk, IsTrue, MatchOption, drop, length, slice_get, vec_capacity, vec_len};
ghost use mathlib.Core.List.{IsPrefix};
ghost use Rattle.tuple_edge.specs.declared.row.Row.{Row};
ghost use Rattle.stream_ops.specs.Answers.{rows_of};
ghost use Rattle.tuple_edge.specs.Input.{Input};
ghost use Rattle.tuple_edge.specs.declared.event.Worked.TheVariants.{Idle};
ghost use Rattle.tuple_edge.specs.declared.node.NodeId.TheVariants as node;

use flux_consumer::Consumer;
use past::Past;
use plan_reader::Plan;
use std::alloc::Global;
use std::marker::Model;
use tuple_edge::{
    Body, EdgeId, Item, NUMBER_LIMIT, NodeId, OutOfMemory, Outbox, Row, Which, Worked,
};

/// Egress: it merges what the last stage sends, emits the rows, and acknowledges what it has taken.
#[derive(Drop)]
pub struct Egress {
    stages: u32,
    consumer: Consumer,
    // The rows that were handed on. Proofs alone read them.
    gone: Past<Row>,
    // The rows that were merged behind them, and before these the last `skipped` ones of those that were handed on.
    held: Vec<Row>,
    skipped: usize,
    done: bool,
}

impl Model for Egress {
    ghost use Rattle.ingress_egress.specs.EgressView.{EgressView};
    ghost use Rattle.std.specs.Prelude.{◌≤◌, ◌++◌, drop, length};

    ghost Value = { EgressView };

    ghost view = { λ e. record {
      stages = e.stages;
      consumer = e.consumer;
      emitted = e.gone.items ++ drop e.skipped e.held.items;
      gone = e.gone.items;
      done = e.done;
    } };

    ghost invariant = { λ e. (1 ≤ e.stages) × (e.skipped ≤ length e.held.items) };
}

impl Egress {
    /// Egress of a plan, as it opens: nothing was taken.
    pub fn new(alloc: Global, plan: &Plan) -> Result<Egress, OutOfMemory>
        ensures of_plan { IfOk result (IsOfPlan plan.now) }
        ensures stands { IfOk result (λ e. (inputs : List Input) → StandsFor plan.now inputs e (new_node node.Egress)) }
        // No row was handed on.
        ensures gone { IfOk result (λ e. e.gone ≡ []) }
    {
        let stages = plan.stages().len() as u32;
        let consumer = Consumer::new(alloc, plan.sources(stages + 1))?;
        Ok(Egress {
            stages,
            consumer,
            gone: Past::new(),
            held: Vec::new(alloc),
            skipped: 0,
            done: false,
        })
    }

    /// Its name in every plan.
    pub fn id(&self) -> NodeId
        ensures { result ≡ node.Egress }
    {
        NodeId::Egress
    }

    /// Takes a packet from a replica of the last stage. It sends nothing.
    pub fn on(&mut self, from: NodeId, body: &Body) -> Result<(), OutOfMemory>
        requires admitted { IsAdmitted self.old from body.now }
        ensures taken { OnOk result (self.new ≡ taking self.old body.now) }
        ensures unchanged { OnErr result (self.new ≡ self.old) }
        ensures emitted { self.new.emitted ≡ self.old.emitted }
        ensures gone { self.new.gone ≡ self.old.gone }
        ensures of_plan { (plan : PlanView) → IsOfPlan plan self.old → IsOfPlan plan self.new }
        // For the machine's laws: in each plan, whatever message the body stands for.
        ensures course { OnOk result ((plan : PlanView) (inputs : List Input) → IsPlan plan → IsTaken plan inputs self.old self.new from body.now) }
    {
        // From whichever replica it comes, it is taken alike. Contracts name the sender.
        let _sender = from;
        match *body {
            Body::Tuple { edge, number, item } => self.offer(edge.from, number, item),
            _ => Ok(()),
        }
    }

    /// Takes the next item of an edge, straight from its producer. [`Egress::may_pull`] says beforehand
    /// that it may be called.
    pub fn pull(&mut self, edge: u32, item: Item) -> Result<(), OutOfMemory>
        requires edge { edge < length self.old.consumer.merge.marks }
        requires fits { MayPull self.old edge }
        ensures taken { OnOk result (self.new ≡ pulling self.old edge item) }
        ensures unchanged { OnErr result (self.new ≡ self.old) }
        ensures emitted { self.new.emitted ≡ self.old.emitted }
        ensures gone { self.new.gone ≡ self.old.gone }
        ensures of_plan { (plan : PlanView) → IsOfPlan plan self.old → IsOfPlan plan self.new }
        // In each plan where that is the edge's next item, the machine's egress takes it.
        ensures stands { OnOk result ((plan : PlanView) (inputs : List Input) (n : Node) → IsPlan plan → StandsFor plan inputs self.old n
            → item_at (items_on plan inputs (in_edge (egress_partition (flow_of plan inputs)) edge)) ((egress_in n).marks edge + 1) ≡ Some item
            → StandsFor plan inputs self.new (EgressNode (pulled (egress_in n) edge))) }
    {
        let mark = self.consumer.merge().mark(edge);
        self.offer(edge, mark + 1, item)
    }

    // Takes an item of an edge where its number follows the edge's mark.
    fn offer(&mut self, edge: u32, number: u64, item: Item) -> Result<(), OutOfMemory>
        requires { edge < length self.old.consumer.merge.marks }
        ensures taken { OnOk result (self.new ≡ after_tuple self.old edge number item) }
        ensures unchanged { OnErr result (self.new ≡ self.old) }
    {
        self.consumer.tuple(edge, number, item)?;
        Ok(())
    }

    /// Does the first piece of work that is due: it merges the next item and emits it where it is a row,
    /// or acknowledges the first edge of which more was taken than acknowledged, to both replicas that
    /// send it. Idle exactly where neither is due. [`Egress::may_work`] says beforehand that it may be
    /// called.
    pub fn work(&mut self, out: &mut Outbox) -> Result<Worked, OutOfMemory>
        requires fits { MayWork self.old }
        ensures worked { IfOk result (λ w. w ≡ (working self.old).worked) }
        ensures after { OnOk result (self.new ≡ (working self.old).after) }
        ensures packets { OnOk result (out.new.packets ≡ out.old.packets ++ (working self.old).sent) }
        // Where nothing is due, or memory is wanting, nothing changes.
        ensures idle { IfOk result (λ w. w ≡ Idle → (self.new ≡ self.old) × (out.new ≡ out.old)) }
        ensures unchanged { OnErr result ((self.new ≡ self.old) × (out.new ≡ out.old)) }
        // It sends over links of its plan alone, the rows emitted stay, and none is handed on.
        ensures few { length out.new.packets ≤ length out.old.packets + 2 }
        ensures linked { (plan : PlanView) → IsOfPlan plan self.old
            → GoOverLinks plan node.Egress (appended out.old.packets out.new.packets) }
        ensures of_plan { (plan : PlanView) → IsOfPlan plan self.old → IsOfPlan plan self.new }
        ensures emitted { IsFrontOf self.old.emitted self.new.emitted }
        ensures gone { self.new.gone ≡ self.old.gone }
        // For the machine's laws, in each plan.
        ensures course { IfOk result (λ w. (plan : PlanView) (inputs : List Input) → IsPlan plan
            → IsWorked plan inputs self.old self.new (working self.old).sent w) }
    {
        self.do_first(out)
    }

    // Does the first piece of work that is due.
    #[tactic(auto, using(crate::proofs::Handing::append_held))]
    fn do_first(&mut self, out: &mut Outbox) -> Result<Worked, OutOfMemory>
        requires fits { MayWork self.old }
        ensures worked { IfOk result (λ w. w ≡ (working self.old).worked) }
        ensures after { OnOk result (self.new ≡ (working self.old).after) }
        ensures packets { OnOk result (out.new.packets ≡ out.old.packets ++ (working self.old).sent) }
        ensures idle { IfOk result (λ w. w ≡ Idle → (self.new ≡ self.old) × (out.new ≡ out.old)) }
        ensures unchanged { OnErr result ((self.new ≡ self.old) × (out.new ≡ out.old)) }
        ensures some { 1 ≤ self.old.stages }
    {
        if let Some(head) = self.consumer.least() {
            self.held.reserve(1)?;
            self.consumer.pass(&head);
            let ended = emit(&mut self.held, head.item);
            self.done = self.done || ended;
            return Ok(Worked::Did);
        }
        match self.consumer.report_due() {
            None => Ok(Worked::Idle),
            Some((edge, mark)) => {
                out.reserve(2)?;
                self.consumer.tell(edge);
                send_ack(self.stages, edge, mark, out);
                Ok(Worked::Did)
            }
        }
    }

    /// Whether a piece of work may be done: the count of merged items stays within its limit. It takes no
    /// memory.
    pub fn may_work(&self) -> bool
        ensures { IsTrue result ↔ MayWork self.now }
    {
        self.consumer.merge().count() < NUMBER_LIMIT - 1 || !self.consumer.ready()
    }

    /// Whether the next item of an edge may be pulled: its number is within its limit. It takes no memory.
    pub fn may_pull(&self, edge: u32) -> bool
        requires { edge < length self.now.consumer.merge.marks }
        ensures { IsTrue result ↔ MayPull self.now edge }
    {
        self.consumer.merge().mark(edge) < NUMBER_LIMIT - 1
    }

    // The number of stages.
    pub(crate) fn stages(&self) -> u32
        ensures { result ≡ self.now.stages }
    {
        self.stages
    }

    /// The rows that were merged, in order, where none of them was handed on.
    pub fn emitted(&self) -> &[Row]
        requires { self.now.gone ≡ [] }
        ensures { result.now ≡ self.now.emitted }
    {
        self.held()
    }

    /// The rows that were merged and not handed on, in order.
    pub fn held(&self) -> &[Row]
        ensures { self.now.gone ++ result.now ≡ self.now.emitted }
    {
        &self.held[self.skipped..]
    }

    /// The first row that was merged and not handed on. None where all were handed on.
    pub fn first(&self) -> Option<Row>
        ensures { MatchOption result (self.now.gone ≡ self.now.emitted) (λ row. IsPrefix (self.now.gone ++ row ∷ []) self.now.emitted) }
    {
        row_at(&self.held, self.skipped)
    }

    /// The first row that was merged and not handed on is handed on: it is held no longer. None where all were. It is no event
    /// of the machine, and takes no memory. Each call does a few steps, but for one after many calls.
    pub fn let_go(&mut self) -> Option<Row>
        ensures gone { MatchOption result ((self.new ≡ self.old) × (self.old.gone ≡ self.old.emitted))
            (λ row. self.new ≡ record self.old { gone = self.old.gone ++ row ∷ [] }) }
        // So the row is the first that was not handed on.
        ensures first { IsPrefix self.new.gone self.new.emitted }
        ensures emitted { self.new.emitted ≡ self.old.emitted }
        ensures stands { (plan : PlanView) (inputs : List Input) (n : Node) → StandsFor plan inputs self.old n → StandsFor plan inputs self.new n }
        ensures of_plan { (plan : PlanView) → IsOfPlan plan self.old → IsOfPlan plan self.new }
    {
        let row = row_at(&self.held, self.skipped)?;
        self.gone = self.gone.and(&row);
        self.skipped += 1;
        // Half of them at least are gone, so that each row that is moved pays for one that went.
        if self.held.len() - self.skipped <= self.skipped {
            drop_front(&mut self.held, self.skipped);
            self.skipped = 0;
        }
        Some(row)
    }

    /// Whether the end was merged.
    pub fn done(&self) -> bool
        ensures value { result ≡ self.now.done }
        // In each plan: the end ends the merged list, so then all of it was merged, and the rows are the output.
        ensures whole { (plan : PlanView) (inputs : List Input) (n : Node) → IsPlan plan → StandsFor plan inputs self.now n
            → IsTrue result ↔ ((egress_in n).count ≡ (flow_of plan inputs).total (egress_partition (flow_of plan inputs))) }
        ensures output { (plan : PlanView) (inputs : List Input) (n : Node) → IsPlan plan → StandsFor plan inputs self.now n
            → IsTrue result → self.now.emitted ≡ output plan inputs }
    {
        self.done
    }

    /// What it takes from the last stage.
    pub fn consumer(&self) -> &Consumer
        ensures { result.now ≡ self.now.consumer }
    {
        &self.consumer
    }
}

// The row at a place, from 0, if there is one.
fn row_at(rows: &[Row], nth: usize) -> Option<Row>
    ensures { result ≡ slice_get rows.now nth }
{
    match rows.get(nth) {
        None => None,
        Some(row) => Some(*row),
    }
}

// Drops the first rows. The others take their place.
fn drop_front(rows: &mut Vec<Row>, count: usize)
    requires { count ≤ vec_len rows.old }
    ensures { rows.new.items ≡ drop count rows.old.items }
{
    let _dropped = rows.drain(..count);
}

// Acknowledges what was taken of an edge to both replicas that send it.
fn send_ack(stages: u32, edge: u32, mark: u64, out: &mut Outbox)
    requires { 2 ≤ out.old.spare }
    ensures { out.new.packets ≡ out.old.packets ++ acknowledgements stages edge mark }
{
    let body = Body::Ack {
        edge: EdgeId {
            stage: stages,
            from: edge,
            to: 0,
        },
        upto: mark,
    };
    out.push(sender(stages, edge, Which::A), body);
    out.push(sender(stages, edge, Which::B), body);
}

// A replica of the last stage.
fn sender(stages: u32, part: u32, which: Which) -> NodeId
    ensures { result ≡ node.Replica stages part which }
{
    NodeId::Replica {
        stage: stages,
        part,
        which,
    }
}

// Emits a merged item where it is a row, and says whether it is the end.
fn emit(emitted: &mut Vec<Row>, item: Item) -> bool
    requires room { vec_len emitted.old < vec_capacity emitted.old }
    ensures rows { emitted.new.items ≡ emitted.old.items ++ rows_of (item ∷ []) }
    ensures end { result ≡ is_end item }
{
    match item {
        Item::Row { row, .. } => {
            emitted.push_reserved(row);
            false
        }
        Item::Mark { .. } => false,
        Item::End { .. } => true,
    }
}
