// Worked stories of a pair, as far as its controller sees them.
ghost use Rattle.std.specs.Prelude.{◌≡◌, ◌≤◌, IfOk, length};

use crate::answer::none_is_wrong;
use pair_control::PairControl;
use plan_reader::{Plan, read_plan};
use std::alloc::Global;
use std::test::Fail;
use test_kit::{A, B, FIRST_EDGE, ONE};
use tuple_edge::{Body, EdgeId, NodeId, OutOfMemory, Outbox, Status, Which};

fn report(edge: EdgeId, upto: u64) -> Body {
    Body::Report { inc: 1, edge, upto }
}

// What happens to a controller, and what has to come of it.
#[derive(Clone, Copy)]
enum Step {
    // It is given a packet, which has to be admitted; a report of its one in-edge by an incarnation of a replica; a report
    // by a replica of the second stage of each of its eight in-edges. What it sends joins what was sent before.
    Give(NodeId, Body),
    Report(NodeId, u64, u64),
    ReportAll(NodeId, u64),
    // What was sent is let go.
    Clear,
    // These packets were sent, and no others; so many were; this one is at a place.
    Sent(&'static [(NodeId, Body)]),
    SentMany(usize),
    SentAt(usize, NodeId, Body),
    // What it knows of a replica: the status, the incarnation, whether a report of an incarnation counts, what was reported
    // of the first in-edge, and whether the replica is wanted back or is to stop.
    Is(Which, Status),
    Inc(Which, u64),
    Counts(Which, u64, bool),
    Reported(Which, u64),
    BackWanted(Which, bool),
    StopWanted(Which, bool),
    // Up to where the first in-edge is acknowledged; who leads, and under which term.
    Acked(u64),
    Leader(Option<Which>),
    Term(u64),
    // Whether it would admit a packet.
    Admits(NodeId, Body, bool),
}

// A controller with all that it sends.
#[derive(Drop)]
struct Story {
    plan: Plan,
    control: PairControl,
    out: Outbox,
}

fn opened(alloc: Global, text: &[u8], stage: u32, edges: u32) -> Result<Story, OutOfMemory>
    requires stage { 1 ≤ stage }
    requires some { 1 ≤ edges }
    requires few { edges ≤ 8 }
    ensures { IfOk result (λ story. length story.control.acked ≡ edges) }
{
    let Ok(plan) = read_plan(alloc, text) else {
        return Err(OutOfMemory);
    };
    let control = PairControl::new(alloc, stage, 0, edges)?;
    let out = Outbox::new(alloc);
    Ok(Story { plan, control, out })
}

impl Story {
    // The first of these steps that doesn't come to what it has to.
    fn first_wrong(&mut self, steps: &[Step]) -> Result<Option<usize>, OutOfMemory>
        requires { 1 ≤ length self.old.control.acked }
    {
        for (place, step) in steps.iter().enumerate() {
            if !self.comes(step)? {
                return Ok(Some(place));
            }
        }
        Ok(None)
    }

    // Whether a step comes to what it has to.
    fn comes(&mut self, step: &Step) -> Result<bool, OutOfMemory>
        requires { 1 ≤ length self.old.control.acked }
        ensures { length self.new.control.acked ≡ length self.old.control.acked }
    {
        match *step {
            Step::Give(from, body) => self.gives(from, &body),
            Step::Report(from, inc, upto) => {
                let edge = FIRST_EDGE;
                self.gives(from, &Body::Report { inc, edge, upto })
            }
            Step::ReportAll(from, upto) => self.gives_all(from, upto),
            Step::Clear => {
                self.out.clear();
                Ok(true)
            }
            _ => Ok(self.holds(step)),
        }
    }

    // Gives a packet, where it is admitted.
    fn gives(&mut self, from: NodeId, body: &Body) -> Result<bool, OutOfMemory>
        ensures { length self.new.control.acked ≡ length self.old.control.acked }
    {
        self.out.reserve(24)?;
        if !self.control.admits(&self.plan, from, body) {
            return Ok(false);
        }
        self.control.on(from, body, &mut self.out);
        Ok(true)
    }

    fn gives_all(&mut self, from: NodeId, upto: u64) -> Result<bool, OutOfMemory>
        ensures { length self.new.control.acked ≡ length self.old.control.acked }
    {
        let mut all = true;
        for producer in 0..8 {
            all = all && self.gives(from, &report(edge_of(producer), upto))?;
        }
        Ok(all)
    }

    // Whether this holds; of a step that does something nothing is said.
    fn holds(&self, step: &Step) -> bool
        requires { 1 ≤ length self.now.control.acked }
    {
        match *step {
            Step::Sent(packets) => has_sent(&self.out, packets),
            Step::SentMany(packets) => self.out.len() == packets,
            Step::SentAt(place, to, body) => self.out.get(place) == Some((to, body)),
            Step::Acked(upto) => self.control.acked(0) == upto,
            Step::Reported(which, upto) => self.control.report(which, 0) == upto,
            Step::Leader(leader) => self.control.leader() == leader,
            Step::Term(term) => self.control.term() == term,
            Step::Admits(from, body, may) => self.control.admits(&self.plan, from, &body) == may,
            _ => self.knows(step),
        }
    }

    // Whether this is known of a replica.
    fn knows(&self, step: &Step) -> bool {
        match *step {
            Step::Is(which, status) => self.control.status(which) == status,
            Step::Inc(which, inc) => self.control.inc(which) == inc,
            Step::Counts(which, inc, counts) => self.control.counts(which, inc) == counts,
            Step::BackWanted(which, wanted) => self.control.back_wanted(which) == wanted,
            Step::StopWanted(which, wanted) => self.control.stop_wanted(which) == wanted,
            _ => false,
        }
    }
}

// Whether these packets were sent, and no others.
fn has_sent(out: &Outbox, packets: &[(NodeId, Body)]) -> bool {
    let mut sent = packets.iter().enumerate();
    out.len() == packets.len() && sent.all(|(nth, packet)| out.get(nth) == Some(*packet))
}

// The first of these steps of the controller of the one stage that doesn't come to what it has to.
fn wrong_of_one(alloc: Global, steps: &[Step]) -> Result<Option<usize>, OutOfMemory> {
    let mut story = opened(alloc, ONE, 1, 1)?;
    let wrong = story.first_wrong(steps);
    drop(story);
    wrong
}

// Replica B dies and comes back. Its old report comes only after that, and counts for nothing.
const OLD_REPORT: &[Step] = &[
    Step::Report(A, 1, 7),
    Step::Give(B, Body::Down { inc: 1 }),
    Step::Give(A, Body::AskBack),
    Step::Report(B, 1, 10),
    Step::Report(A, 1, 10),
    Step::Is(Which::B, Status::Catching),
    Step::Counts(Which::B, 2, true),
    Step::Counts(Which::B, 1, false),
    Step::Acked(7),
    Step::Reported(Which::A, 10),
    Step::Reported(Which::B, 7),
    Step::Sent(&[
        (
            NodeId::Ingress,
            Body::Ack {
                edge: FIRST_EDGE,
                upto: 7,
            },
        ),
        (B, Body::Begin { inc: 2 }),
        (A, Body::Serve { inc: 1, target: 2 }),
    ]),
];

#[test]
fn counts_no_report_of_an_earlier_incarnation(rt: HostRuntime) -> Result<(), Fail> {
    none_is_wrong(wrong_of_one(rt.alloc(), OLD_REPORT)?)
}

// Replica B asks for its stop and comes back: Stop goes to it before Begin.
const STOPPED: &[Step] = &[
    Step::Give(B, Body::AskStop { inc: 1 }),
    Step::Is(Which::B, Status::Down),
    Step::Give(A, Body::AskBack),
    Step::Give(B, Body::Caught { inc: 2 }),
    Step::Is(Which::B, Status::Up),
    Step::Inc(Which::B, 2),
    Step::BackWanted(Which::B, false),
    Step::StopWanted(Which::B, false),
    Step::Sent(&[
        (B, Body::Stop { inc: 1 }),
        (B, Body::Begin { inc: 2 }),
        (A, Body::Serve { inc: 1, target: 2 }),
    ]),
];

#[test]
fn stops_and_brings_back(rt: HostRuntime) -> Result<(), Fail> {
    none_is_wrong(wrong_of_one(rt.alloc(), STOPPED)?)
}

// The leader dies while its partner catches up: nobody leads until that has caught up.
const NO_LEADER: &[Step] = &[
    Step::Give(B, Body::Down { inc: 1 }),
    Step::Give(A, Body::AskBack),
    Step::Give(A, Body::Down { inc: 1 }),
    Step::Leader(None),
    Step::Clear,
    Step::Give(B, Body::Caught { inc: 2 }),
    Step::Leader(Some(Which::B)),
    Step::Term(2),
    Step::Sent(&[(B, Body::Lead { inc: 2, term: 2 })]),
];

#[test]
fn names_a_leader_once_one_is_up(rt: HostRuntime) -> Result<(), Fail> {
    none_is_wrong(wrong_of_one(rt.alloc(), NO_LEADER)?)
}

const EIGHT: &[u8] =
    b"flux 1\nstage 1 parts 8 by account keep qty > 0\nstage 2 parts 1 by account total account\n";

// The two replicas of the second stage there, a replica of the last partition before it, and the edge from there.
const A_OF_TWO: NodeId = NodeId::Replica {
    stage: 2,
    part: 0,
    which: Which::A,
};

const B_OF_TWO: NodeId = NodeId::Replica {
    stage: 2,
    part: 0,
    which: Which::B,
};

const LAST_PRODUCER: NodeId = NodeId::Replica {
    stage: 1,
    part: 7,
    which: Which::B,
};

const LAST_EDGE: EdgeId = EdgeId {
    stage: 1,
    from: 7,
    to: 0,
};

fn edge_of(producer: u32) -> EdgeId {
    EdgeId {
        stage: 1,
        from: producer,
        to: 0,
    }
}

// Replica A, which leads and has reported nothing of its eight in-edges, dies while it is wanted back:
// B is named leader, A begins anew from what B reported, and that is acknowledged of each in-edge to
// both of its producers.
const MANY_PACKETS: &[Step] = &[
    Step::ReportAll(B_OF_TWO, 5),
    Step::Give(B_OF_TWO, Body::AskBack),
    Step::SentMany(0),
    Step::Give(A_OF_TWO, Body::Down { inc: 1 }),
    Step::SentMany(19),
    Step::SentAt(0, B_OF_TWO, Body::Lead { inc: 1, term: 2 }),
    Step::SentAt(
        18,
        LAST_PRODUCER,
        Body::Ack {
            edge: LAST_EDGE,
            upto: 5,
        },
    ),
];

fn wrong_of_two(alloc: Global, steps: &[Step]) -> Result<Option<usize>, OutOfMemory> {
    let mut story = opened(alloc, EIGHT, 2, 8)?;
    let wrong = story.first_wrong(steps);
    drop(story);
    wrong
}

#[test]
fn sends_nineteen_packets(rt: HostRuntime) -> Result<(), Fail> {
    none_is_wrong(wrong_of_two(rt.alloc(), MANY_PACKETS)?)
}

// A report of an item of an edge.
const REPORT: Body = Body::Report {
    inc: 1,
    edge: FIRST_EDGE,
    upto: 1,
};

const REPORT_OF_OTHER_SOURCE: Body = Body::Report {
    inc: 1,
    edge: EdgeId {
        from: 1,
        ..FIRST_EDGE
    },
    upto: 1,
};

const REPORT_OF_OTHER_STAGE: Body = Body::Report {
    inc: 1,
    edge: EdgeId {
        stage: 1,
        ..FIRST_EDGE
    },
    upto: 1,
};

const REPORT_AT_LIMIT: Body = Body::Report {
    inc: 1,
    edge: FIRST_EDGE,
    upto: 1 << 62,
};

// What is not of this pair is not admitted.
const PACKETS: &[Step] = &[
    Step::Admits(A, Body::AskBack, true),
    Step::Admits(A_OF_TWO, Body::AskBack, false),
    Step::Admits(NodeId::Ingress, Body::AskBack, false),
    Step::Admits(A, Body::Stop { inc: 1 }, false),
    Step::Admits(B, REPORT, true),
    Step::Admits(B, REPORT_OF_OTHER_SOURCE, false),
    Step::Admits(B, REPORT_OF_OTHER_STAGE, false),
    Step::Admits(B, REPORT_AT_LIMIT, false),
];

#[test]
fn admits_its_own_packets_alone(rt: HostRuntime) -> Result<(), Fail> {
    none_is_wrong(wrong_of_one(rt.alloc(), PACKETS)?)
}
