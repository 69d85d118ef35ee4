// Ingress and egress of one plan, and the steps of a test: what is done with them, and what has to come of it.
ghost use Rattle.std.specs.Prelude.{◌≡◌, false};

use crate::answer::none_is_wrong;
use ingress_egress::{Egress, Ingress};
use plan_reader::{Plan, read_plan};
use std::alloc::Global;
use std::test::Fail;
use test_kit::replica;
use trade_text::{Trades, read_cash, read_trades};
use tuple_edge::{Body, Item, NodeId, OutOfMemory, Outbox, Row, Which, Worked};

/// A step of a test.
#[derive(Clone, Copy)]
pub(crate) enum Step {
    // Ingress makes so many inputs, or the end, one after another; then it has none left to make.
    Makes(u64),
    MakesNoMore,
    // So many makes were done.
    Made(u64),
    // A source has produced on an edge so many items, and keeps there under a number this one.
    Produced(u32, u32, u64),
    Kept(u32, u32, u64, Option<Item>),
    // Ingress is given a packet, which has to be admitted.
    GiveIngress(NodeId, Body),
    // A piece of ingress' work sends just this packet; so many pieces send something; none is due.
    IngressSends(NodeId, Body),
    IngressSendsSome(u64),
    IngressIsIdle,
    // Egress is given a packet, which has to be admitted; the next item of an edge; all that ingress keeps.
    GiveEgress(NodeId, Body),
    Pull(u32, Item),
    HandOn,
    // A piece of egress' work merges an item and sends nothing; sends just this body to both replicas of a partition of the
    // last stage; none is due.
    EgressMerges,
    EgressSends(u32, u32, Body),
    EgressIsIdle,
    // Egress has emitted these rows, of which it handed none on, and whether it is done.
    Emitted { rows: &'static [Row], done: bool },
}

/// The two nodes of a plan over its inputs, and what the last piece of work sent.
#[derive(Drop)]
pub(crate) struct Boundary {
    pub(crate) plan: Plan,
    pub(crate) ingress: Ingress,
    pub(crate) egress: Egress,
    out: Outbox,
}

// The movements of a text are merged into the trades.
fn merge(alloc: Global, trades: &mut Trades, cash: &[u8]) -> Result<(), OutOfMemory>
    requires { trades.old.merged ≡ false }
{
    let room = 100_000 - trades.rows().len() as u32;
    let Ok(cash) = read_cash(alloc, cash, room) else {
        return Err(OutOfMemory);
    };
    trades.merge_cash(&cash)
}

// The trades of a text, with its movements; without movements where their text is empty.
fn inputs(alloc: Global, trades: &[u8], cash: &[u8]) -> Result<Trades, OutOfMemory> {
    let Ok(mut trades) = read_trades(alloc, trades) else {
        return Err(OutOfMemory);
    };
    if !cash.is_empty() {
        merge(alloc, &mut trades, cash)?;
    }
    Ok(trades)
}

// The nodes as they open.
pub(crate) fn opened(
    alloc: Global,
    plan: &[u8],
    trades: &[u8],
    cash: &[u8],
) -> Result<Boundary, OutOfMemory> {
    let Ok(plan) = read_plan(alloc, plan) else {
        return Err(OutOfMemory);
    };
    let trades = inputs(alloc, trades, cash)?;
    Ok(Boundary {
        ingress: Ingress::new(alloc, &plan, &trades)?,
        egress: Egress::new(alloc, &plan)?,
        out: Outbox::new(alloc),
        plan,
    })
}

// Each of the steps comes to what it has to.
pub(crate) fn check(
    alloc: Global,
    plan: &[u8],
    trades: &[u8],
    cash: &[u8],
    steps: &[Step],
) -> Result<(), Fail> {
    let mut nodes = opened(alloc, plan, trades, cash)?;
    let wrong = nodes.first_wrong(steps);
    drop(nodes);
    none_is_wrong(wrong?)
}

impl Boundary {
    // The first of these steps that doesn't come to what it has to.
    fn first_wrong(&mut self, steps: &[Step]) -> Result<Option<usize>, OutOfMemory> {
        for (place, step) in steps.iter().enumerate() {
            if !self.goes(step)? {
                return Ok(Some(place));
            }
        }
        Ok(None)
    }

    // Whether a step comes to what it has to.
    fn goes(&mut self, step: &Step) -> Result<bool, OutOfMemory> {
        match *step {
            Step::Makes(count) => self.makes(count),
            Step::MakesNoMore => Ok(self.ingress.make()? == Worked::Idle),
            Step::Made(count) => Ok(self.ingress.makes() == count),
            Step::Produced(source, to, count) => Ok(self.produced(source, to) == count),
            Step::Kept(source, to, number, item) => Ok(self.kept(source, to, number) == item),
            Step::GiveIngress(from, body) => Ok(self.give_ingress(from, &body)),
            Step::IngressSends(to, body) => Ok(
                self.ingress_works()? && self.has_sent(&[(to, body)]),
            ),
            Step::IngressSendsSome(count) => self.ingress_sends(count),
            Step::IngressIsIdle => Ok(!self.ingress_works()? && self.out.is_empty()),
            Step::GiveEgress(from, body) => self.give_egress(from, &body),
            Step::Pull(edge, item) => self.pull(edge, item),
            Step::HandOn => self.hand_on(),
            Step::EgressMerges => Ok(self.egress_works()? && self.out.is_empty()),
            Step::EgressSends(stage, part, body) => self.egress_sends(stage, part, body),
            Step::EgressIsIdle => Ok(!self.egress_works()? && self.out.is_empty()),
            Step::Emitted { rows, done } => {
                Ok(self.egress.held() == rows && self.egress.done() == done)
            }
        }
    }

    fn makes(&mut self, count: u64) -> Result<bool, OutOfMemory> {
        let mut all = true;
        for _make in 0..count {
            all = all && self.ingress.make()? == Worked::Did;
        }
        Ok(all)
    }

    fn produced(&self, source: u32, to: u32) -> u64 {
        if source >= self.ingress.sources() {
            return 0;
        }
        let producer = self.ingress.producer(source);
        if to >= producer.edges() {
            return 0;
        }
        producer.buffer(to).produced()
    }

    fn kept(&self, source: u32, to: u32, number: u64) -> Option<Item> {
        if source >= self.ingress.sources() {
            return None;
        }
        let producer = self.ingress.producer(source);
        if to >= producer.edges() {
            return None;
        }
        producer.buffer(to).get(number)
    }

    fn give_ingress(&mut self, from: NodeId, body: &Body) -> bool {
        let admitted = self.ingress.admits(&self.plan, from, body);
        if admitted {
            self.ingress.on(from, body);
        }
        admitted
    }

    fn ingress_works(&mut self) -> Result<bool, OutOfMemory> {
        self.out.clear();
        Ok(self.ingress.work(&mut self.out)? == Worked::Did)
    }

    fn ingress_sends(&mut self, count: u64) -> Result<bool, OutOfMemory> {
        let mut all = true;
        for _piece in 0..count {
            all = all && self.ingress_works()?;
        }
        Ok(all)
    }

    fn give_egress(&mut self, from: NodeId, body: &Body) -> Result<bool, OutOfMemory> {
        let admitted = self.egress.admits(&self.plan, from, body);
        if admitted {
            self.egress.on(from, body)?;
        }
        Ok(admitted)
    }

    fn pull(&mut self, edge: u32, item: Item) -> Result<bool, OutOfMemory> {
        if edge >= self.egress.consumer().merge().edges() || !self.egress.may_pull(edge) {
            return Ok(false);
        }
        self.egress.pull(edge, item)?;
        Ok(true)
    }

    // What ingress keeps for a partition is handed to egress, as if each stage had passed it on.
    fn hand_on_to(&mut self, part: u32) -> Result<bool, OutOfMemory> {
        let mut all = true;
        for number in 1..=self.produced(0, part) {
            let Some(item) = self.kept(0, part, number) else {
                return Ok(false);
            };
            all = all && self.pull(part, item)?;
        }
        Ok(all)
    }

    fn hand_on(&mut self) -> Result<bool, OutOfMemory> {
        Ok(self.hand_on_to(0)? && self.hand_on_to(1)?)
    }

    fn egress_works(&mut self) -> Result<bool, OutOfMemory> {
        if !self.egress.may_work() {
            return Ok(false);
        }
        self.out.clear();
        Ok(self.egress.work(&mut self.out)? == Worked::Did)
    }

    fn egress_sends(&mut self, stage: u32, part: u32, body: Body) -> Result<bool, OutOfMemory> {
        let (a, b) = (
            replica(stage, part, Which::A),
            replica(stage, part, Which::B),
        );
        Ok(self.egress_works()? && self.has_sent(&[(a, body), (b, body)]))
    }

    // Whether the last piece of work sent these packets, and no others.
    fn has_sent(&self, packets: &[(NodeId, Body)]) -> bool {
        let mut sent = packets.iter().enumerate();
        self.out.len() == packets.len()
            && sent.all(|(nth, packet)| self.out.get(nth) == Some(*packet))
    }
}
