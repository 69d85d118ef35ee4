// The numbers of the nodes. Each edge of the run is its node's first one, so they are of that edge.
ghost use Rattle.std.specs.Prelude.{◌≤◌, length};

use crate::nodes::{control_of, replica_of};
use flux_consumer::Consumer;
use flux_producer::Producer;
use trio_core::TrioCore;
use trio_nodes::TrioControl;

/// What a node has merged, taken and told of.
#[derive(Clone, Copy, Debug)]
pub(crate) struct Taken {
    pub(crate) count: u64,
    pub(crate) mark: u64,
    pub(crate) told: u64,
}

/// What a node was acknowledged and has produced, the next number for each of its receivers, and how it leads.
#[derive(Clone, Copy, Debug)]
pub(crate) struct Given {
    pub(crate) low: u64,
    pub(crate) produced: u64,
    pub(crate) cursors: [u64; 3],
    pub(crate) term: u64,
    pub(crate) leads: bool,
}

/// The numbers of a replica that runs.
#[derive(Clone, Copy, Debug)]
pub(crate) struct Running {
    pub(crate) taken: Taken,
    pub(crate) given: Given,
}

/// What a controller holds of the three replicas, and whom it named.
#[derive(Clone, Copy, Debug)]
pub(crate) struct Held {
    pub(crate) up: [bool; 3],
    pub(crate) reports: [u64; 3],
    pub(crate) acked: u64,
    pub(crate) term: u64,
    pub(crate) leader: Option<u32>,
}

/// The numbers of all nodes; a replica that is gone has none.
#[derive(Clone, Copy, Debug)]
pub(crate) struct Numbers {
    pub(crate) makes: u64,
    pub(crate) ingress: Given,
    pub(crate) replicas: [Option<Running>; 3],
    pub(crate) control: Held,
    pub(crate) egress: Taken,
    pub(crate) emitted: usize,
    pub(crate) done: bool,
}

// What a node takes.
fn taken_by(consumer: &Consumer) -> Taken {
    // There is an edge.
    let _edges = consumer.merge().edges();
    Taken {
        count: consumer.merge().count(),
        mark: consumer.merge().mark(0),
        told: consumer.told(0),
    }
}

// The next number for a receiver; 0 where there is none.
fn cursor(producer: &Producer, copy: u32) -> u64 {
    if producer.edges() == 0 || copy >= producer.copies() {
        return 0;
    }
    producer.cursor(0, copy)
}

// What a node gives; none where it has no edge.
fn given_by(producer: &Producer) -> Option<Given> {
    if producer.edges() == 0 {
        return None;
    }
    Some(Given {
        low: producer.buffer(0).low(),
        produced: producer.buffer(0).produced(),
        cursors: [
            cursor(producer, 0),
            cursor(producer, 1),
            cursor(producer, 2),
        ],
        term: producer.term(),
        leads: producer.leads(),
    })
}

// The numbers of a replica; none where it is gone.
fn running_at(core: &TrioCore, copy: u32) -> Option<Running> {
    let replica = replica_of(core, copy)?;
    Some(Running {
        taken: taken_by(replica.consumer()?),
        given: given_by(replica.producer()?)?,
    })
}

// What a controller holds.
fn held_by(control: &TrioControl) -> Held
    requires { 1 ≤ length control.now.acked }
{
    Held {
        up: [control.up(0), control.up(1), control.up(2)],
        reports: [
            control.report(0, 0),
            control.report(1, 0),
            control.report(2, 0),
        ],
        acked: control.acked(0),
        term: control.term(),
        leader: control.leader(),
    }
}

impl Numbers {
    /// The numbers of a core; none where it is not of the run.
    pub(crate) fn of(core: &TrioCore) -> Option<Numbers> {
        let control = held_by(control_of(core)?);
        Some(Numbers {
            makes: core.ingress().makes(),
            ingress: given_by(core.ingress().producer())?,
            replicas: [
                running_at(core, 0),
                running_at(core, 1),
                running_at(core, 2),
            ],
            control,
            egress: taken_by(core.egress().consumer()),
            emitted: core.emitted().len(),
            done: core.egress().done(),
        })
    }
}
