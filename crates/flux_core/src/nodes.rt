// The core: all nodes of a plan, and all that they ever sent.
ghost use Rattle.flux_core.specs.CoreView.{emitted_by, found, gone_by, ingress_contents, inputs_of, replica_contents, station};
ghost use Rattle.flux_core.specs.Stands.{IsCore};
ghost use Rattle.ingress_egress.specs.EgressView.{IsFrontOf};
ghost use Rattle.pair_machine.specs.Output.{output};
ghost use Rattle.plan_nodes.specs.NodeOrder.{nodes_of};
ghost use Rattle.plan_nodes.specs.States.{id_of};
ghost use Rattle.plan_nodes.specs.declared.state.NodeState.TheVariants as state;
ghost use Rattle.plan_reader.specs.Nodes.{has_node, has_pair};
ghost use Rattle.std.specs.Prelude.{◌≡◌, ◌≤◌, ◌<◌, ◌++◌, [], IsTrue, Some, length, slice_get};
ghost use Rattle.tuple_edge.specs.declared.node.NodeId.TheVariants as node;

use crate::places::place_of;
use crate::rows::{AllRows, CoreRows};
use crate::station::Station;
use ingress_egress::{Egress, Ingress};
use pair_control::PairControl;
use plan_nodes::NodeState;
use plan_reader::Plan;
use replica_node::Replica;
use std::marker::{Model, PhantomData};
use tuple_edge::{NodeId, Outbox, Row, Which};

/// All nodes of a plan, and every packet that any of them ever sent.
///
/// Contracts see the nodes in the plan's order, each with what it sent, and leave the room of edges aside. A core
/// always stands for a state of the machine of pairs. Its type says which of the rows that egress emitted it has.
#[derive(Drop)]
pub struct Core<R: CoreRows = AllRows> {
    pub(crate) plan: Plan,
    pub(crate) whole: bool,
    pub(crate) stations: Vec<Station>,
    pub(crate) rows: PhantomData<R>,
}

impl<R: CoreRows> Model for Core<R> {
    ghost use Rattle.flux_core.specs.CoreView.{CoreView, HasItsRows, core_of};
    ghost use Rattle.flux_core.specs.Stands.{IsCore};

    ghost Value = { CoreView };

    ghost view = { λ c. core_of c.plan c.whole c.stations.items };

    ghost invariant = { λ c. IsCore (core_of c.plan c.whole c.stations.items) × HasItsRows R.all (core_of c.plan c.whole c.stations.items) };
}

impl<R: CoreRows> Core<R> {
    /// The plan.
    pub fn plan(&self) -> &Plan
        ensures { result.now ≡ self.now.plan }
    {
        &self.plan
    }

    /// What is always true of a core: it stands for a state of the machine.
    pub fn known(&self)
        ensures { IsCore self.now }
    {
        // To look into it is all that this takes.
        let _plan = &self.plan;
    }

    // The place of a node of the plan.
    pub(crate) fn place_of(&self, node: NodeId) -> usize
        requires { IsTrue (has_node self.now.plan node) }
        ensures place { slice_get (nodes_of self.now.plan) result ≡ Some node }
        ensures there { result < length self.now.stations }
    {
        place_of(&self.plan, self.stations.len(), node)
    }

    // The station of a node of the plan.
    pub(crate) fn station(&self, node: NodeId) -> &Station
        requires { IsTrue (has_node self.now.plan node) }
        ensures value { found node self.now.stations ≡ Some result.now }
        ensures id { id_of result.now.node ≡ node }
    {
        &self.stations[self.place_of(node)]
    }

    /// Ingress.
    pub fn ingress(&self) -> &Ingress
        ensures { Some (state.Ingress (ingress_contents result.now)) ≡ (station self.now node.Ingress).content }
    {
        match &self.station(NodeId::Ingress).node {
            NodeState::Ingress(ingress) => ingress,
            _ => unreachable!(),
        }
    }

    /// A replica of the plan.
    pub fn replica(&self, stage: u32, part: u32, which: Which) -> &Replica
        requires { IsTrue (has_pair self.now.plan stage part) }
        ensures { Some (state.Replica (replica_contents result.now)) ≡ (station self.now (node.Replica stage part which)).content }
    {
        match &self.station(NodeId::Replica { stage, part, which }).node {
            NodeState::Replica(replica) => replica,
            _ => unreachable!(),
        }
    }

    /// The controller of a pair of the plan.
    pub fn control(&self, stage: u32, part: u32) -> &PairControl
        requires { IsTrue (has_pair self.now.plan stage part) }
        ensures value { Some (state.Control result.now) ≡ (station self.now (node.Control stage part)).content }
        ensures edges { 1 ≤ length result.now.acked }
    {
        self.known();
        match &self.station(NodeId::Control { stage, part }).node {
            NodeState::Control(control) => control,
            _ => unreachable!(),
        }
    }

    /// Egress.
    pub fn egress(&self) -> &Egress
        ensures { Some (state.Egress result.now) ≡ (station self.now node.Egress).content }
    {
        match &self.station(NodeId::Egress).node {
            NodeState::Egress(egress) => egress,
            _ => unreachable!(),
        }
    }

    /// What a node of the plan ever sent: each packet with its receiver, in order. Nothing is ever removed.
    pub fn sent_by(&self, node: NodeId) -> &Outbox
        requires { IsTrue (has_node self.now.plan node) }
        ensures { result.now.packets ≡ (station self.now node).sent }
    {
        &self.station(node).sent.log
    }

    /// The rows that egress emitted and didn't hand on, in order.
    pub fn held(&self) -> &[Row]
        ensures { gone_by self.now ++ result.now ≡ emitted_by self.now }
    {
        self.egress().held()
    }
}

impl Core {
    // Egress handed no row on.
    fn all_rows(&self)
        ensures { gone_by self.now ≡ [] }
    {
        // To look into it is all that this takes.
        let _rows = &self.rows;
    }

    /// The rows that egress has emitted: a front of the plan's output for the inputs, whatever happened.
    pub fn emitted(&self) -> &[Row]
        ensures value { result.now ≡ emitted_by self.now }
        ensures front { IsFrontOf result.now (output self.now.plan (inputs_of self.now)) }
    {
        self.known();
        self.all_rows();
        self.held()
    }
}
