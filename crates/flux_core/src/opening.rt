// How a core is made: one station after another.
ghost use Rattle.flux_core.specs.CoreView.{HasItsInputs, HasItsRows, inputs_of};
ghost use Rattle.flux_core.specs.Opening.{AreOpen, bare_core, new_station};
ghost use Rattle.flux_core.specs.Stands.{IsGiven, StandsFor};
ghost use Rattle.pair_machine.specs.Machine.{opening};
ghost use Rattle.plan_nodes.specs.NodeOrder.{nodes_of};
ghost use Rattle.plan_nodes.specs.States.{id_of, inputs_in as inputs_of_node};
ghost use Rattle.plan_reader.specs.PlanView.{IsPlan};
ghost use Rattle.replica_node.specs.Course.{AreTimely};
ghost use Rattle.std.specs.Prelude.{◌≡◌, true, IfOk, map};
ghost use Rattle.trade_text.specs.TradesView.{inputs_in};

use crate::nodes::Core;
use crate::rows::CoreRows;
use crate::sent::Sent;
use crate::station::Station;
use plan_nodes::{NodeState, nodes_of, opening_state};
use plan_reader::Plan;
use std::alloc::Global;
use std::marker::PhantomData;
use trade_text::Trades;
use tuple_edge::OutOfMemory;

// The nodes of a plan in their order, as they open.
fn open_nodes(alloc: Global, plan: &Plan, trades: &Trades) -> Result<Vec<NodeState>, OutOfMemory>
    ensures names { IfOk result (λ nodes. map id_of nodes.items ≡ nodes_of plan.now) }
    ensures opens { IfOk result (λ nodes. AreOpen plan.now (inputs_in trades.now) nodes.items) }
{
    let ids = nodes_of(alloc, plan)?;
    let mut nodes = Vec::with_capacity(alloc, ids.len())?;
    for place in 0..ids.len() {
        let node = opening_state(alloc, plan, trades, ids[place])?;
        nodes.push(node)?;
    }
    Ok(nodes)
}

// The times of the inputs that came to a node are within their limits.
fn times_of(node: &NodeState)
    ensures { AreTimely (inputs_of_node node.now) }
{
    if let NodeState::Ingress(ingress) = node {
        // This call's clause says so.
        let _makes = ingress.makes();
    }
}

// These nodes as stations that have sent nothing.
fn stations_of(alloc: Global, nodes: Vec<NodeState>) -> Result<Vec<Station>, OutOfMemory>
    ensures { IfOk result (λ stations. stations.items ≡ map new_station nodes.items) }
{
    let mut stations = Vec::with_capacity(alloc, nodes.len())?;
    for node in nodes {
        let sent = Sent::new(alloc);
        stations.push(Station { node, sent })?;
    }
    Ok(stations)
}

// A copy of a plan, which is within the limits.
fn copy_of(alloc: Global, plan: &Plan) -> Result<Plan, OutOfMemory>
    ensures copy { IfOk result (λ copy. copy ≡ plan.now) }
    ensures limits { IsPlan plan.now }
{
    // This call's clause says that a plan is within the limits.
    let _stages = plan.stages();
    plan.copied(alloc)
}

impl Core {
    /// The nodes of a plan as they open: nothing was made or sent.
    pub fn new(alloc: Global, plan: &Plan, trades: &Trades) -> Result<Core, OutOfMemory>
        ensures opens { IfOk result (λ core. StandsFor core opening) }
        ensures plan { IfOk result (λ core. core.plan ≡ plan.now) }
        ensures inputs { IfOk result (λ core. inputs_of core ≡ inputs_in trades.now) }
        ensures whole { IfOk result (λ core. core.whole ≡ true) }
    {
        let nodes = open_nodes(alloc, plan, trades)?;
        times_of(&nodes[0]);
        let stations = stations_of(alloc, nodes)?;
        Ok(Core {
            plan: copy_of(alloc, plan)?,
            whole: true,
            stations,
            rows: PhantomData,
        })
    }
}

impl<R: CoreRows> Core<R> {
    /// A core of these nodes, which are the plan's in their order, with no packet sent. All inputs came to their ingress; and
    /// their egress holds each row that it emitted, where the core is to have them all.
    pub fn of(alloc: Global, plan: &Plan, nodes: Vec<NodeState>) -> Result<Core<R>, OutOfMemory>
        requires names { map id_of nodes.items ≡ nodes_of plan.now }
        requires given { IsGiven (bare_core plan.now nodes.items) }
        requires came { HasItsInputs (bare_core plan.now nodes.items) }
        requires rows { HasItsRows R.all (bare_core plan.now nodes.items) }
        ensures { IfOk result (λ core. core ≡ bare_core plan.now nodes.items) }
    {
        times_of(&nodes[0]);
        let stations = stations_of(alloc, nodes)?;
        Ok(Core {
            plan: copy_of(alloc, plan)?,
            whole: false,
            stations,
            rows: PhantomData,
        })
    }
}
