// The core: all nodes of a plan, and all that they ever sent.
ghost use Rattle.ingress_egress.specs.EgressView.{IsFrontOf};
ghost use Rattle.pair_machine.specs.Output.{output};
ghost use Rattle.plan_reader.specs.Nodes.{has_pair};
ghost use Rattle.std.specs.Option.{option_and_then};
ghost use Rattle.std.specs.Prelude.{◌≡◌, ◌<◌, IsTrue, Some};
ghost use Rattle.trio_nodes.specs.ControllerPackets as of_control;
ghost use Rattle.trio_nodes.specs.ControllerView.{node_of};
ghost use Rattle.trio_nodes.specs.Egress as of_egress;
ghost use Rattle.trio_nodes.specs.Ingress as of_ingress;
ghost use Rattle.trio_nodes.specs.IngressView.{contents_in};
ghost use Rattle.trio_nodes.specs.Replica as of_replica;
ghost use Rattle.trio_nodes.specs.ReplicaView as replica_view;
ghost use Rattle.trio_core.specs.CoreView.{StationView, contents_of_replica, flow_in, found, inputs_of};
ghost use Rattle.trio_core.specs.Ends.{control_in, egress_in, ingress_in, replica_in};
ghost use Rattle.trio_core.specs.Promises.{emitted_by};
ghost use Rattle.trio_core.specs.Stands.{IsCore, StandsFor};
ghost use Rattle.trio_machine.specs.Links.{HasNode};
ghost use Rattle.trio_machine.specs.Machine.{State};
ghost use Rattle.trio_machine.specs.Numbers.{group_size};
ghost use Rattle.trio_machine.specs.declared.node.TrioNode.TheVariants as node;

use crate::station::{Station, place_of};
use plan_reader::Plan;
use std::marker::Model;
use trio_nodes::{TrioControl, TrioEgress, TrioIngress, TrioNode, TrioReplica};
use tuple_edge::Row;

/// All nodes of a plan of one source, each partition as a group of three, and every packet that any of them
/// ever sent.
///
/// A core always stands for a state of the machine of groups that a legal list of events reaches.
#[derive(Drop)]
pub struct TrioCore {
    pub(crate) plan: Plan,
    pub(crate) stations: Vec<Station>,
}

impl Model for TrioCore {
    ghost use Rattle.trio_core.specs.CoreView.{CoreView, core_of};
    ghost use Rattle.trio_core.specs.Stands.{IsCore};

    ghost Value = { CoreView };

    ghost view = { λ c. core_of c.plan c.stations.items };

    ghost invariant = { λ c. IsCore (core_of c.plan c.stations.items) };
}

impl TrioCore {
    /// The plan.
    pub fn plan(&self) -> &Plan
        ensures { result.now ≡ self.now.plan }
    {
        &self.plan
    }

    /// What is always true of a core: it stands for a state that a legal list of events reaches.
    pub fn known(&self)
        ensures { IsCore self.now }
    {
        let _plan = &self.plan;
    }

    // The station of a node of the plan.
    pub(crate) fn station(&self, name: TrioNode) -> &Station
        requires there { HasNode (flow_in self.now) name }
        ensures { found name self.now.stations ≡ Some result.now }
    {
        let place = place_of(&self.stations, name);
        &self.stations[place]
    }

    /// Ingress.
    pub fn ingress(&self) -> &TrioIngress
        ensures value { option_and_then (λ (at : StationView). ingress_in at.member) (found node.Ingress self.now.stations) ≡ Some (contents_in result.now) }
        // Whatever state the core stands for, it stands for the numbers of that.
        ensures stands { (s : State) → StandsFor self.now s → of_ingress.StandsFor self.now.plan (inputs_of self.now) result.now (s.nodes node.Ingress) }
    {
        self.known();
        match self.station(TrioNode::Ingress).ingress() {
            Some(ingress) => ingress,
            None => unreachable!(),
        }
    }

    /// One of the three replicas of a group of the plan.
    pub fn replica(&self, stage: u32, part: u32, copy: u32) -> &TrioReplica
        requires there { IsTrue (has_pair self.now.plan stage part) }
        requires copy { copy < group_size }
        ensures value { option_and_then (λ (at : StationView). replica_in at.member) (found (node.Replica stage part copy) self.now.stations)
            ≡ Some (contents_of_replica result.now) }
        ensures named { replica_view.node_of result.now.role ≡ node.Replica stage part copy }
        // Whatever state the core stands for, it stands for the numbers of that.
        ensures stands { (s : State) → StandsFor self.now s
            → of_replica.StandsFor self.now.plan (inputs_of self.now) result.now (s.nodes (node.Replica stage part copy)) }
    {
        self.known();
        match self
            .station(TrioNode::Replica { stage, part, copy })
            .replica()
        {
            Some(replica) => replica,
            None => unreachable!(),
        }
    }

    /// The controller of a group of the plan.
    pub fn control(&self, stage: u32, part: u32) -> &TrioControl
        requires there { IsTrue (has_pair self.now.plan stage part) }
        ensures value { option_and_then (λ (at : StationView). control_in at.member) (found (node.Control stage part) self.now.stations) ≡ Some result.now }
        ensures named { node_of result.now ≡ node.Control stage part }
        // Whatever state the core stands for, it stands for the numbers of that.
        ensures stands { (s : State) → StandsFor self.now s → of_control.StandsFor (flow_in self.now) result.now (s.nodes (node.Control stage part)) }
    {
        self.known();
        match self.station(TrioNode::Control { stage, part }).control() {
            Some(control) => control,
            None => unreachable!(),
        }
    }

    /// Egress.
    pub fn egress(&self) -> &TrioEgress
        ensures value { option_and_then (λ (at : StationView). egress_in at.member) (found node.Egress self.now.stations) ≡ Some result.now }
        // Whatever state the core stands for, it stands for the numbers of that.
        ensures stands { (s : State) → StandsFor self.now s → of_egress.StandsFor self.now.plan (inputs_of self.now) result.now (s.nodes node.Egress) }
    {
        self.known();
        match self.station(TrioNode::Egress).egress() {
            Some(egress) => egress,
            None => unreachable!(),
        }
    }

    /// The rows that egress has emitted: a front of the plan's output for the inputs, whatever happened.
    pub fn emitted(&self) -> &[Row]
        ensures value { result.now ≡ emitted_by self.now }
        ensures front { IsFrontOf result.now (output self.now.plan (inputs_of self.now)) }
    {
        self.known();
        self.egress().emitted()
    }
}
