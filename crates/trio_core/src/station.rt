// The station of a node: the node under its name, and all that it ever sent.
ghost use Rattle.flux_producer.specs.ProducerView.{contents_of};
ghost use Rattle.std.specs.Option.{option_map};
ghost use Rattle.std.specs.Prelude.{◌≡◌, ◌<◌, IfErr, IsSome, OnErr, OnOk, Some, length, slice_get};
ghost use Rattle.trio_nodes.specs.IngressView.{contents_in};
ghost use Rattle.trio_core.specs.Acts.{IsRefusedSo, MayBeAsked};
ghost use Rattle.trio_core.specs.CoreView.{StationView, contents_of_replica, found, is_at, place_of};
ghost use Rattle.trio_core.specs.Ends.{consumer_in, control_in, egress_in, ingress_in, producer_in, replica_in};
ghost use Rattle.trio_core.specs.Steps.{ActedAt, HasActed};

use crate::error::TrioError;
use crate::member::Member;
use crate::sent::Sent;
use crate::task::TrioTask;
use flux_consumer::Consumer;
use flux_producer::Producer;
use std::marker::Model;
use trio_nodes::{TrioControl, TrioEgress, TrioIngress, TrioNode, TrioReplica};

/// A node under its name, and every packet that it ever sent, each with its receiver, in order. Contracts leave
/// the room of edges aside.
#[derive(Drop)]
pub struct Station {
    pub(crate) name: TrioNode,
    pub(crate) member: Member,
    pub(crate) sent: Sent,
}

impl Model for Station {
    ghost use Rattle.trio_core.specs.CoreView.{StationView, contents_of};

    ghost Value = { StationView };

    ghost view = { λ s. record { name = s.name; member = contents_of s.member; sent = s.sent } };
}

impl Station {
    // Whether it is the station of this node.
    fn is_named(&self, name: TrioNode) -> bool
        ensures { result ≡ is_at name (Some self.now) }
    {
        self.name == name
    }

    // Ingress, where it is this node.
    pub(crate) fn ingress(&self) -> Option<&TrioIngress>
        ensures { option_map (λ i. contents_in i.now) result ≡ ingress_in self.now.member }
    {
        match &self.member {
            Member::Ingress(ingress) => Some(ingress),
            _ => None,
        }
    }

    // One of the replicas of a group, where it is this node.
    pub(crate) fn replica(&self) -> Option<&TrioReplica>
        ensures { option_map (λ r. contents_of_replica r.now) result ≡ replica_in self.now.member }
    {
        match &self.member {
            Member::Replica(replica) => Some(replica),
            _ => None,
        }
    }

    // The controller of a group, where it is this node.
    pub(crate) fn control(&self) -> Option<&TrioControl>
        ensures { option_map (λ c. c.now) result ≡ control_in self.now.member }
    {
        match &self.member {
            Member::Control(control) => Some(control),
            _ => None,
        }
    }

    // Egress, where it is this node.
    pub(crate) fn egress(&self) -> Option<&TrioEgress>
        ensures { option_map (λ e. e.now) result ≡ egress_in self.now.member }
    {
        match &self.member {
            Member::Egress(egress) => Some(egress),
            _ => None,
        }
    }

    // What the node sends, where it runs.
    pub(crate) fn producer(&self) -> Option<&Producer>
        ensures { option_map (λ p. contents_of p.now) result ≡ producer_in self.now.member }
    {
        match &self.member {
            Member::Ingress(ingress) => Some(ingress.producer()),
            Member::Replica(replica) => replica.producer(),
            _ => None,
        }
    }

    // What the node takes, where it runs.
    pub(crate) fn consumer(&self) -> Option<&Consumer>
        ensures { option_map (λ c. c.now) result ≡ consumer_in self.now.member }
    {
        match &self.member {
            Member::Replica(replica) => replica.consumer(),
            Member::Egress(egress) => Some(egress.consumer()),
            _ => None,
        }
    }

    // The node does what an event asks of it, and what it sends is noted.
    pub(crate) fn act(&mut self, task: &TrioTask) -> Result<(), TrioError>
        requires asked { MayBeAsked task.now self.old.member }
        ensures acted { OnOk result (HasActed task.now self.old self.new) }
        ensures refused { IfErr result (IsRefusedSo task.now self.old.member) }
        ensures unchanged { OnErr result (self.new ≡ self.old) }
    {
        self.sent.note(&mut self.member, task)
    }
}

// The place of a node that is there: where its station stands first.
pub(crate) fn place_of(stations: &[Station], name: TrioNode) -> usize
    requires { IsSome (found name stations.now) }
    ensures { place_of name stations.now ≡ Some result }
{
    for place in 0..stations.len() {
        if stations[place].is_named(name) {
            return place;
        }
    }
    unreachable!()
}

// The node at a place does what an event asks.
pub(crate) fn acts_at(
    stations: &mut Vec<Station>,
    place: usize,
    task: &TrioTask,
) -> Result<(), TrioError>
    requires there { place < length stations.old.items }
    requires asked { (at : StationView) → slice_get stations.old.items place ≡ Some at → MayBeAsked task.now at.member }
    ensures acted { OnOk result (ActedAt task.now place stations.old.items stations.new.items) }
    ensures refused { IfErr result (λ e. (at : StationView) → slice_get stations.old.items place ≡ Some at → IsRefusedSo task.now at.member e) }
    ensures unchanged { OnErr result (stations.new.items ≡ stations.old.items) }
{
    stations[place].act(task)
}
