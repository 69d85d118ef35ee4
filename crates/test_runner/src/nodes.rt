// The nodes that a run gave: its egress, and whether they are those of a core.
use flux_consumer::Consumer;
use flux_core::Core;
use flux_producer::Producer;
use ingress_egress::{Egress, Ingress};
use pair_control::PairControl;
use partition_runner::Ran;
use plan_nodes::NodeState;
use replica_node::Replica;
use tuple_edge::{NodeId, Row, Which};

// No node has more edges on one side.
const EDGES: u32 = 8;

// The numbers of an in-edge: how many items were taken, and how many of them it has told of.
fn in_edge(consumer: &Consumer, from: u32) -> Option<(u64, u64)> {
    if from >= consumer.merge().edges() {
        return None;
    }
    Some((consumer.merge().mark(from), consumer.told(from)))
}

// The numbers of an out-edge: up to where it is acknowledged, how many items were made, and the next one for the first
// copy of the receiver and for the last.
fn out_edge(producer: &Producer, to: u32) -> Option<(u64, u64, u64, u64)> {
    let copies = producer.copies();
    if to >= producer.edges() || copies == 0 {
        return None;
    }
    let (buffer, first) = (producer.buffer(to), producer.cursor(to, 0));
    let last = producer.cursor(to, copies - 1);
    Some((buffer.low(), buffer.produced(), first, last))
}

fn same_consumers(one: &Consumer, other: &Consumer) -> bool {
    if one.merge().count() != other.merge().count() {
        return false;
    }
    for from in 0..EDGES {
        if in_edge(one, from) != in_edge(other, from) {
            return false;
        }
    }
    true
}

fn same_producers(one: &Producer, other: &Producer) -> bool {
    if one.term() != other.term() || one.leads() != other.leads() {
        return false;
    }
    for to in 0..EDGES {
        if out_edge(one, to) != out_edge(other, to) {
            return false;
        }
    }
    true
}

fn same_ingresses(one: &Ingress, other: &Ingress) -> bool {
    if one.sources() == 0 || other.sources() == 0 {
        return false;
    }
    one.makes() == other.makes() && same_producers(one.producer(0), other.producer(0))
}

fn same_in_edges(one: Option<&Consumer>, other: Option<&Consumer>) -> bool {
    match (one, other) {
        (Some(one), Some(other)) => same_consumers(one, other),
        (one, other) => one.is_none() && other.is_none(),
    }
}

fn same_out_edges(one: Option<&Producer>, other: Option<&Producer>) -> bool {
    match (one, other) {
        (Some(one), Some(other)) => same_producers(one, other),
        (one, other) => one.is_none() && other.is_none(),
    }
}

// How many entries a replica took that gathers its partner's state.
fn gathered(replica: &Replica) -> Option<u64> {
    Some(replica.newcomer()?.taken())
}

fn same_replicas(one: &Replica, other: &Replica) -> bool {
    one.mode() == other.mode()
        && one.inc() == other.inc()
        && one.served() == other.served()
        && one.count() == other.count()
        && gathered(one) == gathered(other)
        && same_in_edges(one.consumer(), other.consumer())
        && same_out_edges(one.producer(), other.producer())
}

fn same_watched(one: &PairControl, other: &PairControl, which: Which) -> bool {
    one.status(which) == other.status(which)
        && one.inc(which) == other.inc(which)
        && one.stop_wanted(which) == other.stop_wanted(which)
        && one.back_wanted(which) == other.back_wanted(which)
}

fn same_controls(one: &PairControl, other: &PairControl) -> bool {
    one.term() == other.term()
        && one.leader() == other.leader()
        && same_watched(one, other, Which::A)
        && same_watched(one, other, Which::B)
}

fn same_egresses(one: &Egress, other: &Egress) -> bool {
    one.done() == other.done()
        && one.held() == other.held()
        && same_consumers(one.consumer(), other.consumer())
}

// Whether a core has this replica.
fn has_replica(core: &Core, replica: &Replica) -> bool {
    let NodeId::Replica { stage, part, which } = replica.id() else {
        return false;
    };
    if !core.plan().has(NodeId::Replica { stage, part, which }) {
        return false;
    }
    same_replicas(core.replica(stage, part, which), replica)
}

// Whether a core has this controller.
fn has_control(core: &Core, control: &PairControl) -> bool {
    let NodeId::Control { stage, part } = control.id() else {
        return false;
    };
    if !core.plan().has(NodeId::Control { stage, part }) {
        return false;
    }
    same_controls(core.control(stage, part), control)
}

// Whether a core has this node.
fn has_node(core: &Core, node: &NodeState) -> bool {
    match node {
        NodeState::Ingress(ingress) => same_ingresses(core.ingress(), ingress),
        NodeState::Replica(replica) => has_replica(core, replica),
        NodeState::Control(control) => has_control(core, control),
        NodeState::Egress(egress) => same_egresses(core.egress(), egress),
    }
}

// Whether the nodes of a run are those of a core, each with its history.
pub(crate) fn agrees(core: &Core, ran: &Ran) -> bool {
    ran.histories.len() == ran.nodes.len() && ran.nodes.iter().all(|node| has_node(core, node))
}

// The egress of a run, which is its last node.
pub(crate) fn egress_of(nodes: &[NodeState]) -> Option<&Egress> {
    match nodes.last() {
        Some(NodeState::Egress(egress)) => Some(egress),
        _ => None,
    }
}

// Whether the egress of a run is done.
pub(crate) fn is_done(nodes: &[NodeState]) -> bool {
    match egress_of(nodes) {
        Some(egress) => egress.done(),
        None => false,
    }
}

// The rows that the egress of a run emitted, of which it handed none on.
pub(crate) fn emitted(nodes: &[NodeState]) -> &[Row] {
    match egress_of(nodes) {
        Some(egress) => egress.held(),
        None => &[],
    }
}
