// Ingress as a node: what it is, and what can be read of it.
ghost use Rattle.flux_producer.specs.Due.{due_of};
ghost use Rattle.ingress_egress.specs.IngressStands.{AreCome, IsAdmitted, IsAtHand, IsMade, IsMadeIn, IsOfPlan, IsTaken, IsWorked, StandsFor};
ghost use Rattle.ingress_egress.specs.IngressView.{AreWide, MayFeed, contents_in, ended_at, fed, new_producers, producer_at, source_due, taking, tuple_of, working};
ghost use Rattle.pair_machine.specs.Machine.{new_node};
ghost use Rattle.pair_machine.specs.Numbers.{Node};
ghost use Rattle.pair_machine.specs.Receivers.{GoOverLinks, appended};
ghost use Rattle.plan_reader.specs.PlanView.{IsPlan, PlanView};
ghost use Rattle.stream_ops.specs.Times.{IsTime};
ghost use Rattle.trade_text.specs.TradesView.{inputs_in};
ghost use Rattle.std.specs.Prelude.{◌≡◌, ◌<◌, ◌≤◌, ◌+◌, ◌-◌, ◌++◌, ◌∷◌, [], All, List, None, Some, IfNone, IfOk, IfSome, IsTrue, ◌↔◌, OnErr, OnOk, true, false, length, slice_get};
ghost use Rattle.tuple_edge.specs.Input.{Input};
ghost use Rattle.tuple_edge.specs.declared.event.Worked.TheVariants.{Did, Idle};
ghost use Rattle.tuple_edge.specs.declared.node.NodeId.TheVariants as node;

use crate::making::make_with_room;
use flux_producer::{Due, Producer};
use node_edges::{copy_of, which_at};
use past::Past;
use plan_reader::{Plan, Stage};
use std::alloc::Global;
use std::collections::VecDeque;
use std::marker::Model;
use stream_ops::is_timely;
use trade_text::Trades;
use tuple_edge::{Body, EdgeId, Input, Item, NodeId, OutOfMemory, Outbox, Worked};

// No more inputs come to one ingress, so that the numbers of its items stay small.
const MOST_INPUTS: u64 = 1 << 60;

/// Ingress: it makes the inputs into items, one after another, and each of its sources sends its own
/// rows, with the marks and the end, to the first stage.
#[derive(Drop)]
pub struct Ingress {
    // The inputs that came and weren't made yet, in order.
    waiting: VecDeque<Input>,
    // All that came. Proofs alone read them.
    came: Past<Input>,
    count: u64,
    // Whether no more come.
    ended: bool,
    first: Stage,
    mark: u64,
    makes: u64,
    producers: Vec<Producer>,
}

impl Model for Ingress {
    ghost use Rattle.ingress_egress.specs.IngressView.{IngressView, IsIngress};

    ghost Value = { IngressView };

    ghost view = { λ i. record { inputs = i.came.items; ended = i.ended; first = i.first; mark = i.mark; makes = i.makes; producers = i.producers.items } };

    ghost invariant = { λ i. IsIngress i.came.items i.waiting.items i.count i.ended i.first i.mark i.makes i.producers.items };
}

// The first stage of a plan.
fn first_stage(plan: &Plan) -> Stage
    ensures first { slice_get plan.now.stages 0 ≡ Some result }
    ensures some { 1 ≤ result.parts }
    ensures limits { IsPlan plan.now }
{
    plan.stages()[0]
}

// The producers of so many sources, of which nothing was made.
fn new_producers(alloc: Global, sources: u32, parts: u32) -> Result<Vec<Producer>, OutOfMemory>
    ensures { IfOk result (λ producers. producers.items ≡ new_producers parts sources) }
{
    let mut producers = Vec::with_capacity(alloc, sources as usize)?;
    for source in 0..sources {
        producers.push(Producer::new(alloc, 0, source, parts, 2, true)?)?;
    }
    Ok(producers)
}

impl Ingress {
    /// Ingress of a plan and its trades, as it opens: all of them came, no more come, and nothing was made.
    pub fn new(alloc: Global, plan: &Plan, trades: &Trades) -> Result<Ingress, OutOfMemory>
        ensures of_plan { IfOk result (IsOfPlan plan.now) }
        ensures stands { IfOk result (λ i. StandsFor plan.now (inputs_in trades.now) i (new_node node.Ingress)) }
        ensures inputs { IfOk result (λ i. i.inputs ≡ inputs_in trades.now) }
        ensures ended { IfOk result (λ i. i.ended ≡ true) }
    {
        let mut ingress = Ingress::streamed(alloc, plan)?;
        ingress.feed_all(trades)?;
        ingress.end();
        Ok(ingress)
    }

    /// Ingress of a plan, as it opens, to which inputs come one by one by [`Ingress::feed`] until [`Ingress::end`]: nothing came
    /// yet. So it stands for the opening of every list of inputs.
    pub fn streamed(alloc: Global, plan: &Plan) -> Result<Ingress, OutOfMemory>
        ensures of_plan { IfOk result (IsOfPlan plan.now) }
        ensures stands { IfOk result (λ i. (inputs : List Input) → StandsFor plan.now inputs i (new_node node.Ingress)) }
        ensures inputs { IfOk result (λ i. i.inputs ≡ []) }
        ensures ended { IfOk result (λ i. i.ended ≡ false) }
    {
        let first = first_stage(plan);
        let mark = plan.mark();
        let producers = new_producers(alloc, plan.version(), first.parts)?;
        Ok(Ingress {
            waiting: VecDeque::new(alloc),
            came: Past::new(),
            count: 0,
            ended: false,
            first,
            mark,
            makes: 0,
            producers,
        })
    }

    // Takes all inputs of trades, where nothing came yet.
    fn feed_all(&mut self, trades: &Trades) -> Result<(), OutOfMemory>
        requires none { self.old.inputs ≡ [] }
        requires open { self.old.ended ≡ false }
        ensures { OnOk result (self.new ≡ record self.old { inputs = inputs_in trades.now }) }
    {
        let count = trades.rows().len();
        self.waiting.reserve_exact(count)?;
        for nth in 0..count {
            self.feed(trades.input(nth))?;
        }
        Ok(())
    }

    // Whether one more input may come.
    fn may_feed(&self, input: &Input) -> bool
        ensures { IsTrue result ↔ MayFeed self.now input.now }
    {
        let item = Item::Row {
            stamp: 0,
            row: input.row,
        };
        !self.ended && self.count < MOST_INPUTS && is_timely(&item)
    }

    /// Takes the next input that comes, which waits until it is made, and says whether it did: not after the end, nor where the
    /// input's time is past its limits or no number is left for it. It is no event of the machine: ingress stands for the same
    /// numbers, of each list of inputs with which those that came begin.
    pub fn feed(&mut self, input: Input) -> Result<bool, OutOfMemory>
        ensures takes { IfOk result (λ taken. IsTrue taken ↔ MayFeed self.old input) }
        ensures fed { IfOk result (λ taken. IsTrue taken → self.new ≡ fed self.old input) }
        ensures left { IfOk result (λ taken. taken ≡ false → self.new ≡ self.old) }
        ensures unchanged { OnErr result (self.new ≡ self.old) }
        // What may be the inputs now might have been before.
        ensures admits { (inputs : List Input) → AreCome self.new.ended self.new.inputs inputs → AreCome self.old.ended self.old.inputs inputs }
        ensures stands { (plan : PlanView) (inputs : List Input) (n : Node) → AreCome self.new.ended self.new.inputs inputs
            → StandsFor plan inputs self.old n → StandsFor plan inputs self.new n }
        ensures of_plan { (plan : PlanView) → IsOfPlan plan self.old → IsOfPlan plan self.new }
    {
        if !self.may_feed(&input) {
            return Ok(false);
        }
        self.waiting.push_back(input)?;
        self.came = self.came.and(&input);
        self.count += 1;
        Ok(true)
    }

    /// No more inputs come: those that came are all. It is no event of the machine.
    pub fn end(&mut self)
        ensures ended { self.new ≡ ended_at self.old }
        ensures admits { (inputs : List Input) → AreCome self.new.ended self.new.inputs inputs → AreCome self.old.ended self.old.inputs inputs }
        ensures stands { (plan : PlanView) (inputs : List Input) (n : Node) → AreCome self.new.ended self.new.inputs inputs
            → StandsFor plan inputs self.old n → StandsFor plan inputs self.new n }
        ensures of_plan { (plan : PlanView) → IsOfPlan plan self.old → IsOfPlan plan self.new }
    {
        self.ended = true;
    }

    /// How many inputs came and were not made yet.
    pub fn waiting(&self) -> usize
        ensures { result ≡ length self.now.inputs - self.now.makes }
    {
        self.waiting.len()
    }

    /// Its name in every plan.
    pub fn id(&self) -> NodeId
        ensures { result ≡ node.Ingress }
    {
        NodeId::Ingress
    }

    /// Takes an acknowledgement of a controller of the first stage, or a want of a replica of it. It
    /// sends nothing, and takes no memory.
    pub fn on(&mut self, from: NodeId, body: &Body)
        requires admitted { IsAdmitted self.old from body.now }
        ensures taken { self.new ≡ taking self.old from body.now }
        ensures of_plan { (plan : PlanView) → IsOfPlan plan self.old → IsOfPlan plan self.new }
        // For the machine's laws: in each plan, whatever message the body stands for.
        ensures course { (plan : PlanView) (inputs : List Input) → IsPlan plan → IsTaken plan inputs self.old self.new from body.now }
    {
        self.take(from, body);
    }

    // Takes an acknowledgement or a want.
    fn take(&mut self, from: NodeId, body: &Body)
        requires admitted { IsAdmitted self.old from body.now }
        ensures { self.new ≡ taking self.old from body.now }
    {
        match *body {
            Body::Ack { edge, upto } => self.producers[edge.from as usize].ack(edge.to, upto),
            Body::Want { edge, from: number } => {
                self.producers[edge.from as usize].want(edge.to, copy_of(from), number)
            }
            _ => {}
        }
    }

    /// Makes the next input that came into an item on the edge of its source that routing names, and where a mark
    /// is due into one on every edge of every source; after all inputs it makes the end on every edge. Idle exactly
    /// where the next one hasn't come, or the end was made before. It sends nothing, and may always be called. After want of
    /// memory only the room of the buffers may have changed. A row that no mark follows costs the same however many edges there are.
    pub fn make(&mut self) -> Result<Worked, OutOfMemory>
        ensures made { IfOk result (IsMade self.old self.new) }
        ensures unchanged { OnErr result (contents_in self.new ≡ contents_in self.old) }
        ensures of_plan { (plan : PlanView) → IsOfPlan plan self.old → IsOfPlan plan self.new }
        // For the machine's laws, in each plan.
        ensures course { IfOk result (λ m. (plan : PlanView) (inputs : List Input) → IsPlan plan → IsMadeIn plan inputs self.old self.new m) }
    {
        self.make_next()
    }

    // Whether the next input has come, or the end is to be made.
    fn is_at_hand(&self) -> bool
        ensures { IsTrue result ↔ IsAtHand self.now }
    {
        if self.ended {
            self.makes <= self.count
        } else {
            self.makes < self.count
        }
    }

    // The next input; none where all were made.
    fn next(&self) -> Option<Input>
        ensures { result ≡ slice_get self.now.inputs self.now.makes }
    {
        self.waiting.front().copied()
    }

    // Makes the next input, or the end, into items.
    fn make_next(&mut self) -> Result<Worked, OutOfMemory>
        ensures made { IfOk result (IsMade self.old self.new) }
        ensures unchanged { OnErr result (contents_in self.new ≡ contents_in self.old) }
    {
        if !self.is_at_hand() {
            return Ok(Worked::Idle);
        }
        let input = self.next();
        let stamp = self.makes + 1;
        make_with_room(&mut self.producers, &self.first, self.mark, stamp, input)?;
        self.waiting.pop_front();
        self.makes = stamp;
        Ok(Worked::Did)
    }

    /// Sends what is due of the first source that has something due. Idle exactly where none has. It may
    /// always be called.
    pub fn work(&mut self, out: &mut Outbox) -> Result<Worked, OutOfMemory>
        ensures worked { IfOk result (λ w. w ≡ (working self.old).worked) }
        ensures after { OnOk result (self.new ≡ (working self.old).after) }
        ensures packets { OnOk result (out.new.packets ≡ out.old.packets ++ (working self.old).sent) }
        ensures one { IfOk result (λ w. w ≡ Did → length out.new.packets ≡ length out.old.packets + 1) }
        // Where nothing is due, or memory is wanting, nothing changes.
        ensures idle { IfOk result (λ w. w ≡ Idle → (self.new ≡ self.old) × (out.new ≡ out.old)) }
        ensures unchanged { OnErr result ((self.new ≡ self.old) × (out.new ≡ out.old)) }
        // It sends over links of its plan alone.
        ensures few { length out.new.packets ≤ length out.old.packets + 1 }
        ensures linked { (plan : PlanView) → IsOfPlan plan self.old
            → GoOverLinks plan node.Ingress (appended out.old.packets out.new.packets) }
        ensures of_plan { (plan : PlanView) → IsOfPlan plan self.old → IsOfPlan plan self.new }
        // For the machine's laws, in each plan.
        ensures course { IfOk result (λ w. (plan : PlanView) (inputs : List Input) → IsPlan plan
            → IsWorked plan inputs self.old self.new (working self.old).sent w) }
    {
        self.send_first(out)
    }

    // Sends what is due of the first source that has something due.
    fn send_first(&mut self, out: &mut Outbox) -> Result<Worked, OutOfMemory>
        ensures worked { IfOk result (λ w. w ≡ (working self.old).worked) }
        ensures after { OnOk result (self.new ≡ (working self.old).after) }
        ensures packets { OnOk result (out.new.packets ≡ out.old.packets ++ (working self.old).sent) }
        ensures one { IfOk result (λ w. w ≡ Did → length out.new.packets ≡ length out.old.packets + 1) }
        ensures idle { IfOk result (λ w. w ≡ Idle → (self.new ≡ self.old) × (out.new ≡ out.old)) }
        ensures unchanged { OnErr result ((self.new ≡ self.old) × (out.new ≡ out.old)) }
        ensures wide { AreWide self.old.first.parts self.old.producers }
    {
        let Some((source, due)) = self.source_due() else {
            return Ok(Worked::Idle);
        };
        out.reserve(1)?;
        let item = self.producers[source as usize].send(due);
        push_tuple(source, due, item, out);
        Ok(Worked::Did)
    }

    // The first source that has something due, with what is due of it.
    fn source_due(&self) -> Option<(u32, Due)>
        ensures none { IfNone result (source_due self.now ≡ None) }
        ensures source { IfSome result (λ s. source_due self.now ≡ Some s.0) }
        ensures there { IfSome result (λ s. s.0 < length self.now.producers) }
        ensures due { IfSome result (λ s. due_of (producer_at self.now s.0) ≡ Some s.1) }
    {
        for source in 0..self.producers.len() {
            if let Some(due) = self.producers[source].due() {
                return Some((source as u32, due));
            }
        }
        None
    }

    /// How many sources there are.
    pub fn sources(&self) -> u32
        ensures { result ≡ length self.now.producers }
    {
        self.producers.len() as u32
    }

    // The number of partitions of the first stage.
    pub(crate) fn parts(&self) -> u32
        ensures { result ≡ self.now.first.parts }
    {
        self.first.parts
    }

    /// How many inputs, or the end, were made into items. The time of each input is within its limits.
    pub fn makes(&self) -> u64
        ensures value { result ≡ self.now.makes }
        ensures times { All (λ (input : Input). IsTime input.row.time) self.now.inputs }
    {
        self.makes
    }

    /// The producer of a source.
    pub fn producer(&self, source: u32) -> &Producer
        requires { source < length self.now.producers }
        ensures { result.now ≡ producer_at self.now source }
    {
        &self.producers[source as usize]
    }
}

// Sends an item of a source to the replica that it is due to.
fn push_tuple(source: u32, due: Due, item: Item, out: &mut Outbox)
    requires { 1 ≤ out.old.spare }
    ensures { out.new.packets ≡ out.old.packets ++ tuple_of source due item ∷ [] }
{
    let to = NodeId::Replica {
        stage: 1,
        part: due.to,
        which: which_at(due.copy),
    };
    let edge = EdgeId {
        stage: 0,
        from: source,
        to: due.to,
    };
    let body = Body::Tuple {
        edge,
        number: due.number,
        item,
    };
    out.push(to, body);
}
