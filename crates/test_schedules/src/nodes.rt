// The nodes of the run, and what can be read of them.
ghost use Rattle.std.specs.Prelude.{◌≤◌, IfSome, length};

use flux_consumer::Consumer;
use flux_core::Core;
use flux_producer::Producer;
use pair_control::PairControl;
use replica_node::{Mode, Replica};
use test_kit::{A, B, CONTROL};
use tuple_edge::{NodeId, Which};

/// All nodes of the run.
pub(crate) const NODES: [NodeId; 5] = [NodeId::Ingress, A, B, CONTROL, NodeId::Egress];

/// A replica of the pair.
pub(crate) fn replica_of(core: &Core, which: Which) -> Option<&Replica> {
    let (stage, part) = (1, 0);
    if !core.plan().has(NodeId::Replica { stage, part, which }) {
        return None;
    }
    Some(core.replica(stage, part, which))
}

/// The controller of the pair.
pub(crate) fn control_of(core: &Core) -> Option<&PairControl>
    ensures { IfSome result (λ c. 1 ≤ length c.now.acked) }
{
    let (stage, part) = (1, 0);
    if !core.plan().has(NodeId::Control { stage, part }) {
        return None;
    }
    Some(core.control(stage, part))
}

/// The consumer of a replica that runs.
pub(crate) fn consumer_of(core: &Core, which: Which) -> Option<&Consumer> {
    replica_of(core, which)?.consumer()
}

/// The producer of a replica that runs.
pub(crate) fn producer_of(core: &Core, which: Which) -> Option<&Producer> {
    replica_of(core, which)?.producer()
}

/// Up to which number a producer has given up the items of its first out-edge.
pub(crate) fn low_of(producer: &Producer) -> Option<u64> {
    if producer.edges() == 0 {
        return None;
    }
    Some(producer.buffer(0).low())
}

/// The same of ingress.
pub(crate) fn low_of_ingress(core: &Core) -> Option<u64> {
    let ingress = core.ingress();
    if ingress.sources() == 0 {
        return None;
    }
    low_of(ingress.producer(0))
}

/// The number of the last item that a consumer has taken of its first in-edge.
pub(crate) fn mark_of(consumer: &Consumer) -> u64 {
    // There is one.
    let _edges = consumer.merge().edges();
    consumer.merge().mark(0)
}

/// The number of the last one of which it has told.
pub(crate) fn told_of(consumer: &Consumer) -> u64 {
    // There is one.
    let _edges = consumer.merge().edges();
    consumer.told(0)
}

/// Whether a replica runs and its controller counts it.
pub(crate) fn serves(core: &Core, which: Which) -> bool {
    match (replica_of(core, which), control_of(core)) {
        (Some(replica), Some(control)) => {
            replica.mode() == Mode::Running && control.counts(which, replica.inc())
        }
        _ => false,
    }
}
