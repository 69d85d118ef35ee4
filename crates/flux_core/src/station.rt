// The station of a node: the node, and all that it ever sent.
ghost use Rattle.flux_core.specs.Acts.{HasAnswered, IsRefusedSo, IsTimelyTask};
ghost use Rattle.flux_core.specs.CoreView.{StationView, standing_at};
ghost use Rattle.flux_core.specs.Ends.{consumer_in, producer_in};
ghost use Rattle.flux_core.specs.Sent.{bodies_to};
ghost use Rattle.flux_core.specs.Steps.{ActedAt, HasActed};
ghost use Rattle.flux_core.specs.Taken.{IsMissing, IsPacketOf};
ghost use Rattle.flux_producer.specs.ProducerView.{contents_of as producer_contents};
ghost use Rattle.ingress_egress.specs.IngressView.{IngressView};
ghost use Rattle.plan_nodes.specs.declared.state.NodeState.TheVariants as state;
ghost use Rattle.plan_reader.specs.PlanView.{PlanView};
ghost use Rattle.std.specs.Option.{option_map};
ghost use Rattle.std.specs.Prelude.{◌≡◌, ◌<◌, IfErr, IfOk, OnErr, OnOk, Some, length, slice_get};

use crate::acts::node_acts;
use crate::asked::Asked;
use crate::error::ApplyError;
use crate::sent::Sent;
use flux_consumer::Consumer;
use flux_producer::Producer;
use plan_nodes::NodeState;
use std::marker::Model;
use tuple_edge::{LinkId, MOST_PACKETS};

/// A node, and every packet that it ever sent, each with its receiver, in order. Contracts leave the room of edges
/// aside.
#[derive(Drop)]
pub struct Station {
    pub(crate) node: NodeState,
    pub(crate) sent: Sent,
}

impl Model for Station {
    ghost use Rattle.flux_core.specs.CoreView.{StationView};
    ghost use Rattle.plan_nodes.specs.States.{contents_of};

    ghost Value = { StationView };

    ghost view = { λ s. record { node = contents_of s.node; sent = s.sent } };
}

impl Station {
    // The producer of the node, where it runs; of ingress that of a source.
    pub(crate) fn producer(&self, source: u32) -> Option<&Producer>
        requires { (i : IngressView) → self.now.node ≡ state.Ingress i → source < length i.producers }
        ensures { option_map (λ p. producer_contents p.now) result ≡ producer_in (Some self.now.node) source }
    {
        match &self.node {
            NodeState::Ingress(ingress) => Some(ingress.producer(source)),
            NodeState::Replica(replica) => replica.producer(),
            NodeState::Control(_) | NodeState::Egress(_) => None,
        }
    }

    // The consumer of the node, where it runs.
    pub(crate) fn consumer(&self) -> Option<&Consumer>
        ensures { option_map (λ c. c.now) result ≡ consumer_in (Some self.now.node) }
    {
        match &self.node {
            NodeState::Replica(replica) => replica.consumer(),
            NodeState::Egress(egress) => Some(egress.consumer()),
            NodeState::Ingress(_) | NodeState::Control(_) => None,
        }
    }

    // The node does what an event asks of it, and what it sends is noted.
    fn act(&mut self, task: &Asked) -> Result<(), ApplyError>
        requires { IsTimelyTask task.now }
        ensures acted { OnOk result (HasActed task.now self.old self.new) }
        ensures refused { IfErr result (λ e. (plan : PlanView) → IsRefusedSo plan task.now self.old.node e) }
        ensures unchanged { OnErr result (self.new ≡ self.old) }
    {
        node_notes(&mut self.node, &mut self.sent, task)
    }
}

// A node does what an event asks of it, and what it sends is noted.
fn node_notes(node: &mut NodeState, sent: &mut Sent, task: &Asked) -> Result<(), ApplyError>
    requires { IsTimelyTask task.now }
    ensures { HasAnswered node.old node.new task.now result sent.old sent.new }
{
    sent.log.reserve(MOST_PACKETS)?;
    node_acts(node, task, &mut sent.log)
}

// The node at a place does what an event asks of it.
pub(crate) fn act_at(
    stations: &mut Vec<Station>,
    place: usize,
    task: &Asked,
) -> Result<(), ApplyError>
    requires there { place < length stations.old.items }
    requires timely { IsTimelyTask task.now }
    ensures acted { OnOk result (ActedAt task.now place stations.old.items stations.new.items) }
    ensures refused { IfErr result (λ e. (at : StationView) → slice_get stations.old.items place ≡ Some at
        → (plan : PlanView) → IsRefusedSo plan task.now at.node e) }
    ensures unchanged { OnErr result (stations.new.items ≡ stations.old.items) }
{
    stations[place].act(task)
}

// The packet at a place among those that went over a link from the node at a place, as what its receiver is asked to take.
pub(crate) fn taken_at(
    stations: &mut Vec<Station>,
    place: usize,
    link: LinkId,
    index: u64,
) -> Result<Asked, ApplyError>
    requires { place < length stations.old.items }
    ensures unchanged { stations.new.items ≡ stations.old.items }
    ensures found { IfOk result (IsPacketOf (bodies_to link.to (standing_at stations.old.items place).sent) link index) }
    ensures refused { IfErr result (IsMissing (bodies_to link.to (standing_at stations.old.items place).sent) link index) }
{
    stations[place].sent.taken(link, index)
}
