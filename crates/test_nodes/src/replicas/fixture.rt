// One replica of a plan, and the steps of a test: what happens to it, and what has to come of it.
ghost use Rattle.stream_ops.specs.Times.{IsTimely};

use plan_reader::{Plan, read_plan};
use replica_node::{Mode, Replica};
use std::alloc::Global;
use std::test::Fail;
use test_kit::{A, FIRST_EDGE};
use tuple_edge::{Body, EdgeId, Entry, Item, NodeId, OutOfMemory, Outbox, Row, Which, Worked};

// Two stages of one partition each.
pub(crate) const TWO: &[u8] =
    b"flux 1\nstage 1 parts 1 by account total account\nstage 2 parts 1 by account total account\n";

// The edge from the first stage on.
pub(crate) const OUT_EDGE: EdgeId = EdgeId {
    stage: 1,
    from: 0,
    to: 0,
};

// A row of account 7 that buys one share for a dollar.
pub(crate) const ROW: Row = Row {
    time: 34_200,
    account: 7,
    symbol: 1,
    qty: 1,
    value: 100,
};

// Such a row as the item of a stamp.
fn bought(stamp: u64) -> Item
    ensures { IsTimely result }
{
    Item::Row { stamp, row: ROW }
}

fn tuple(edge: EdgeId, number: u64, item: Item) -> Body {
    Body::Tuple { edge, number, item }
}

// An entry of a move to a second incarnation.
fn chunk(number: u64, entry: Entry) -> Body {
    let inc = 2;
    Body::Chunk { inc, number, entry }
}

// The item of the first stage that is a total of account 7 after so many such rows, fewer than a million.
fn total(rows: u64) -> Body {
    let stamp = rows;
    let qty = (rows % 1_000_000) as i64;
    let row = Row {
        symbol: 0,
        qty,
        value: qty.saturating_mul(100),
        ..ROW
    };
    tuple(OUT_EDGE, stamp, Item::Row { stamp, row })
}

// What happens to a replica.
#[derive(Clone, Copy)]
pub(crate) enum Event {
    // It is given a packet, the item of this number by ingress, or the entry of this number of a move to its second
    // incarnation by replica A. That has to be admitted.
    Give(NodeId, Body),
    Item(u64),
    Entry(u64, Entry),
    // It is given the items from this number to that one by ingress, and merges each.
    Merge(u64, u64),
    // It takes the item of this number straight from the producer of its in-edge.
    Pull(u64),
    // It does a piece of work, or has none to do.
    Work,
    Rest,
    // It fails, asks to be stopped, or asks for its partner.
    Fail,
    AskStop,
    AskBack,
}

// A step of a test.
#[derive(Clone, Copy)]
pub(crate) enum Step {
    // An event sends nothing, or this packet and no other.
    Does(Event),
    Sends(Event, NodeId, Body),
    // A piece of work sends a node the total of so many rows, and nothing else.
    SendsTotal(NodeId, u64),
    // It is in this mode and this incarnation.
    Is(Mode, u64),
    // Whether it has a consumer, a producer, an operator, a move, and a newcomer.
    Has([bool; 5]),
    // So many items were merged; this is the greatest incarnation of its partner that it has served.
    Count(u64),
    Served(u64),
    // The mark of its first in-edge; what is acknowledged of its first out-edge, and how much was produced on it.
    Mark(u64),
    Buffered(u64, u64),
    // So many entries of a move were taken.
    Taken(u64),
    // Its operator keeps these entries.
    Keeps(&'static [Entry]),
    // Whether it would admit a packet, an item of an edge with this number by ingress, and the first entry of such a move
    // by a node; and whether an item of this in-edge may be pulled.
    Admits(NodeId, Body, bool),
    AdmitsItem(EdgeId, u64, Item, bool),
    AdmitsEntry(NodeId, Entry, bool),
    MayPull(u32, bool),
}

// A plan, which replica of its first stage is tried, and the steps.
pub(crate) type Case = (&'static [u8], Which, &'static [Step]);

// A replica of a plan, and what its last event sent.
#[derive(Drop)]
pub(crate) struct Node {
    plan: Plan,
    pub(crate) replica: Replica,
    pub(crate) out: Outbox,
}

// Each step of these cases comes to what it has to.
pub(crate) fn check(alloc: Global, cases: &[Case]) -> Result<(), Fail> {
    for (nth, (plan, which, steps)) in cases.iter().enumerate() {
        if let Some(place) = first_wrong(alloc, plan, *which, steps)? {
            return Err(Fail::new(format_args!("not so in case {nth} at step {place}")));
        }
    }
    Ok(())
}

// The first of these steps of a replica that doesn't come to what it has to.
pub(crate) fn first_wrong(
    alloc: Global,
    plan: &[u8],
    which: Which,
    steps: &[Step],
) -> Result<Option<usize>, Fail> {
    let mut node = opened(alloc, plan, which)?;
    let wrong = node.first_wrong(alloc, steps);
    drop(node);
    Ok(wrong?)
}

// A replica of the first stage, as it opens. Who has it lets it go by one `drop`, and not at each `?`: each place where it
// is let go is dear to prove.
pub(crate) fn opened(alloc: Global, plan: &[u8], which: Which) -> Result<Node, Fail> {
    let plan = read_plan(alloc, plan)?;
    let (stage, part) = (1, 0);
    if !plan.has(NodeId::Replica { stage, part, which }) {
        return Err(Fail::new("the plan has no such replica"));
    }
    let replica = Replica::new(alloc, &plan, stage, part, which)?;
    let out = Outbox::new(alloc);
    Ok(Node { plan, replica, out })
}

impl Node {
    // Whether each of these steps comes to what it has to.
    pub(crate) fn goes(&mut self, alloc: Global, steps: &[Step]) -> Result<bool, OutOfMemory> {
        Ok(self.first_wrong(alloc, steps)?.is_none())
    }

    fn first_wrong(&mut self, alloc: Global, steps: &[Step]) -> Result<Option<usize>, OutOfMemory> {
        for (place, step) in steps.iter().enumerate() {
            if !self.comes(alloc, step)? {
                return Ok(Some(place));
            }
        }
        Ok(None)
    }

    // Whether a step comes to what it has to.
    fn comes(&mut self, alloc: Global, step: &Step) -> Result<bool, OutOfMemory> {
        match *step {
            Step::Does(event) => Ok(self.does(event)? && self.out.is_empty()),
            Step::Sends(event, to, body) => self.sends(event, to, body),
            Step::SendsTotal(to, rows) => self.sends(Event::Work, to, total(rows)),
            Step::Is(mode, inc) => Ok(self.replica.mode() == mode && self.replica.inc() == inc),
            Step::Has(parts) => Ok(self.parts() == parts),
            Step::Count(count) => Ok(self.replica.count() == count),
            Step::Served(inc) => Ok(self.replica.served() == inc),
            Step::Mark(mark) => Ok(self.mark() == Some(mark)),
            Step::Buffered(low, produced) => Ok(self.buffered() == Some((low, produced))),
            Step::Taken(entries) => Ok(self.taken() == Some(entries)),
            Step::Keeps(entries) => self.keeps(alloc, entries),
            Step::Admits(from, body, may) => Ok(self.admits(from, &body) == may),
            Step::AdmitsItem(edge, number, item, may) => {
                Ok(self.admits(NodeId::Ingress, &tuple(edge, number, item)) == may)
            }
            Step::AdmitsEntry(from, entry, may) => Ok(self.admits(from, &chunk(1, entry)) == may),
            Step::MayPull(edge, may) => Ok(self.replica.may_pull(edge) == may),
        }
    }

    // Whether an event may happen, which it does then.
    pub(crate) fn does(&mut self, event: Event) -> Result<bool, OutOfMemory> {
        self.out.clear();
        match event {
            Event::Give(from, body) => self.gives(from, &body),
            Event::Item(number) => self.gives_item(number),
            Event::Entry(number, entry) => self.gives(A, &chunk(number, entry)),
            Event::Merge(first, last) => self.merges(first, last),
            Event::Pull(number) => self.pulls(number),
            Event::Work => self.works(Worked::Did),
            Event::Rest => self.works(Worked::Idle),
            Event::Fail => self.fails(),
            Event::AskStop => self.asks(true),
            Event::AskBack => self.asks(false),
        }
    }

    fn sends(&mut self, event: Event, to: NodeId, body: Body) -> Result<bool, OutOfMemory> {
        Ok(self.does(event)? && self.out.len() == 1 && self.out.get(0) == Some((to, body)))
    }

    fn admits(&self, from: NodeId, body: &Body) -> bool {
        self.replica.admits(&self.plan, from, body)
    }

    fn gives_item(&mut self, number: u64) -> Result<bool, OutOfMemory> {
        self.gives(NodeId::Ingress, &tuple(FIRST_EDGE, number, bought(number)))
    }

    fn gives(&mut self, from: NodeId, body: &Body) -> Result<bool, OutOfMemory> {
        if !self.replica.admits(&self.plan, from, body) {
            return Ok(false);
        }
        self.replica.on(from, body, &mut self.out)?;
        Ok(true)
    }

    fn works(&mut self, worked: Worked) -> Result<bool, OutOfMemory> {
        if !self.replica.may_work() {
            return Ok(false);
        }
        Ok(self.replica.work(&mut self.out)? == worked)
    }

    fn merges(&mut self, first: u64, last: u64) -> Result<bool, OutOfMemory> {
        let mut all = true;
        for number in first..=last {
            all = all && self.merges_one(number)?;
        }
        Ok(all)
    }

    fn merges_one(&mut self, number: u64) -> Result<bool, OutOfMemory> {
        Ok(self.gives_item(number)? && self.works(Worked::Did)?)
    }

    fn pulls(&mut self, number: u64) -> Result<bool, OutOfMemory> {
        if !self.replica.may_pull(0) {
            return Ok(false);
        }
        self.replica.pull(0, bought(number))?;
        Ok(true)
    }

    fn fails(&mut self) -> Result<bool, OutOfMemory> {
        if self.replica.mode() == Mode::Gone {
            return Ok(false);
        }
        self.out.reserve(1)?;
        self.replica.kill(&mut self.out);
        Ok(true)
    }

    // Asks to be stopped, or for its partner.
    fn asks(&mut self, stop: bool) -> Result<bool, OutOfMemory> {
        if self.replica.mode() != Mode::Running {
            return Ok(false);
        }
        self.out.reserve(1)?;
        if stop {
            self.replica.ask_stop(&mut self.out);
        } else {
            self.replica.ask_back(&mut self.out);
        }
        Ok(true)
    }

    fn parts(&self) -> [bool; 5] {
        [
            self.replica.consumer().is_some(),
            self.replica.producer().is_some(),
            self.replica.state().is_some(),
            self.replica.mover().is_some(),
            self.replica.newcomer().is_some(),
        ]
    }

    fn mark(&self) -> Option<u64> {
        let merge = self.replica.consumer()?.merge();
        if merge.edges() == 0 {
            return None;
        }
        Some(merge.mark(0))
    }

    fn buffered(&self) -> Option<(u64, u64)> {
        let producer = self.replica.producer()?;
        if producer.edges() == 0 {
            return None;
        }
        let buffer = producer.buffer(0);
        Some((buffer.low(), buffer.produced()))
    }

    fn taken(&self) -> Option<u64> {
        Some(self.replica.newcomer()?.taken())
    }

    fn keeps(&self, alloc: Global, entries: &[Entry]) -> Result<bool, OutOfMemory> {
        match self.replica.state() {
            Some(state) => Ok(state.entries(alloc)?.as_slice() == entries),
            None => Ok(false),
        }
    }
}
