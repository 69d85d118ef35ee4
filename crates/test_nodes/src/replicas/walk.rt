// A long walk of mixed calls beside a plain program on numbers.
use crate::answer::is_so;
use crate::replicas::fixture::{Event, Node, OUT_EDGE, Step, opened};
use std::alloc::Global;
use std::test::Fail;
use test_kit::{CONTROL, FIRST_EDGE, ONE};
use tuple_edge::{Body, NodeId, Which};

// What a leader of one stage has come to: the number of the last item taken, how many it merged, up to which
// number its own items were sent and are acknowledged, and what it reported.
#[derive(Clone, Copy)]
struct Plain {
    mark: u64,
    count: u64,
    sent: u64,
    low: u64,
    told: u64,
}

impl Plain {
    // An item of this number is offered.
    fn offered(&mut self, number: u64) {
        if number == self.mark.saturating_add(1) {
            self.mark = number;
        }
    }

    // Items up to this number are acknowledged, and are sent no more.
    fn acknowledged(&mut self, upto: u64) {
        self.low = self.low.max(upto);
        self.sent = self.sent.max(upto);
    }

    // The next piece of work, if any, and the packet that it sends.
    fn works(&mut self) -> Step {
        if self.count < self.mark {
            self.count = self.count.saturating_add(1);
            return Step::Does(Event::Work);
        }
        if self.sent < self.count {
            self.sent = self.sent.saturating_add(1);
            return Step::SendsTotal(NodeId::Egress, self.sent);
        }
        if self.told < self.mark {
            self.told = self.mark;
            return Step::Sends(Event::Work, CONTROL, report(self.told));
        }
        Step::Does(Event::Rest)
    }
}

// What it reports to its controller once it took items up to this number.
fn report(upto: u64) -> Body {
    let (inc, edge) = (1, FIRST_EDGE);
    Body::Report { inc, edge, upto }
}

// An event of the walk, by a number drawn at random, and the packet that it has to send.
fn drawn_event(plain: &mut Plain, nth: u64, drawn: u64) -> Step {
    let near = drawn / 16;
    match drawn % 16 {
        0..=5 => {
            let number = (near % 4).saturating_add(plain.mark.saturating_sub(1));
            plain.offered(number);
            Step::Does(Event::Item(number))
        }
        6 => {
            let upto = plain.sent.saturating_sub(near % 4);
            let edge = OUT_EDGE;
            plain.acknowledged(upto);
            Step::Does(Event::Give(NodeId::Egress, Body::Ack { edge, upto }))
        }
        7 if near % 8 == 0 => {
            plain.sent = plain.low;
            let (inc, term) = (1, nth);
            Step::Does(Event::Give(CONTROL, Body::Lead { inc, term }))
        }
        _ => plain.works(),
    }
}

// One step of the walk: it stands where the plain program does.
fn step(plain: &mut Plain, nth: u64, drawn: u64) -> [Step; 4] {
    let event = drawn_event(plain, nth, drawn);
    [
        event,
        Step::Mark(plain.mark),
        Step::Count(plain.count),
        Step::Buffered(plain.low, plain.count),
    ]
}

// What the plain program has come to after the walk.
fn walk(alloc: Global, node: &mut Node) -> Result<Plain, Fail> {
    let mut plain = Plain {
        mark: 0,
        count: 0,
        sent: 0,
        low: 0,
        told: 0,
    };
    let mut drawn: u64 = 7;
    for nth in 2..2002u64 {
        drawn = (drawn % 2_147_483_648 * 1_103_515_245 + 12_345) % 2_147_483_648;
        if !node.goes(alloc, &step(&mut plain, nth, drawn / 65_536))? {
            return Err(Fail::new(format_args!("not so at {nth}")));
        }
    }
    Ok(plain)
}

fn walked(alloc: Global) -> Result<Plain, Fail> {
    let mut node = opened(alloc, ONE, Which::A)?;
    let plain = walk(alloc, &mut node);
    drop(node);
    plain
}

#[test]
fn a_leader_does_as_a_plain_program(rt: HostRuntime) -> Result<(), Fail> {
    let plain = walked(rt.alloc())?;
    is_so(plain.count > 150 && plain.low > 100)
}
