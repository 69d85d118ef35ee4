// The nodes of a run are made, with their links.
ghost use Rattle.pair_machine.specs.Lists.{Each};
ghost use Rattle.partition_runner.specs.Drafts.{all_unlinked, unlinked};
ghost use Rattle.partition_runner.specs.Ready.{AreNodesOf, HaveTheirLinks, IsOpening};
ghost use Rattle.plan_reader.specs.Nodes.{has_node};
ghost use Rattle.plan_reader.specs.PlanView.{IsPlan};
ghost use Rattle.run_node.specs.NodeView.{name_of};
ghost use Rattle.plan_nodes.specs.NodeOrder.{nodes_before_egress};
ghost use Rattle.plan_nodes.specs.States.{id_of};
ghost use Rattle.std.specs.Prelude.{◌≡◌, ◌≢◌, ◌≤◌, ◌++◌, ◌∷◌, [], true, IfOk, IfSome, IsTrue, OnOk, drop, is_some, map, take, vec_capacity, vec_len};
ghost use Rattle.tuple_edge.specs.declared.node.NodeId.TheVariants as node;

use crate::fed::Fed;
use crate::feed::Feed;
use event_log::Keeps;
use linked_run::connect_all;
use node_tasks::Acts;
use plan_nodes::{NodeState, nodes_before_egress, streamed_state};
use plan_reader::Plan;
use run_node::{Draft, Draws, Links, Node, RunNames};
use std::alloc::Global;
use tuple_edge::{NodeId, OutOfMemory};

// Puts a node as it opens, with no link yet, behind others.
fn add_draft<N: RunNames, F: Feed, M: Links, T: Draws>(
    alloc: Global,
    state: NodeState,
    feed: F,
    tap: Option<T>,
    drafts: &mut Vec<Draft<N, Fed<F>, M, T>>,
) -> Result<(), OutOfMemory>
    requires opening { IsOpening N.plan state }
    requires fits { F.fits feed state }
    requires tap { IfSome tap (λ t. T.given t ≡ []) }
    ensures { OnOk result (drafts.new.items ≡ drafts.old.items ++ record { id = id_of state; ins = []; outs = []; tapped = is_some tap } ∷ []) }
{
    drafts.push(Draft::new(alloc, Fed::new(state, feed), tap))?;
    Ok(())
}

// The same of a node of the plan to which no inputs come.
fn add_other<N: RunNames, F: Feed, M: Links, T: Draws>(
    alloc: Global,
    plan: &Plan,
    id: NodeId,
    tap: Option<T>,
    drafts: &mut Vec<Draft<N, Fed<F>, M, T>>,
) -> Result<(), OutOfMemory>
    requires plan { plan.now ≡ N.plan }
    requires there { IsTrue (has_node plan.now id) }
    requires other { id ≢ node.Ingress }
    requires tap { IfSome tap (λ t. T.given t ≡ []) }
    ensures { OnOk result (drafts.new.items ≡ drafts.old.items ++ record { id = id; ins = []; outs = []; tapped = is_some tap } ∷ []) }
{
    let state = streamed_state(alloc, plan, id)?;
    add_draft(alloc, state, F::nothing(), tap, drafts)
}

// The same of all nodes of these names behind the first, which is there already, none with a tap.
fn add_others<N: RunNames, F: Feed, M: Links, T: Draws>(
    alloc: Global,
    plan: &Plan,
    ids: &[NodeId],
    drafts: &mut Vec<Draft<N, Fed<F>, M, T>>,
) -> Result<(), OutOfMemory>
    requires plan { plan.now ≡ N.plan }
    requires there { Each (λ n. has_node plan.now n ≡ true) ids.now }
    requires others { Each (λ n. n ≢ node.Ingress) (drop 1 ids.now) }
    requires first { drafts.old.items ≡ unlinked (take 1 ids.now) }
    ensures { OnOk result (drafts.new.items ≡ unlinked ids.now) }
{
    for place in 1..ids.len() {
        let id = ids[place];
        add_other(alloc, plan, id, None, drafts)?;
    }
    Ok(())
}

// The nodes of the plan before egress as they open, in their order, none with a link or a tap, and with this ingress.
fn before_egress<N: RunNames, F: Feed, M: Links, T: Draws>(
    alloc: Global,
    plan: &Plan,
    ingress: NodeState,
    feed: F,
) -> Result<Vec<Draft<N, Fed<F>, M, T>>, OutOfMemory>
    requires plan { plan.now ≡ N.plan }
    requires ingress { (id_of ingress ≡ node.Ingress) × IsOpening N.plan ingress }
    requires fits { F.fits feed ingress }
    ensures { IfOk result (λ drafts. drafts.items ≡ unlinked (nodes_before_egress plan.now)) }
{
    let ids = nodes_before_egress(alloc, plan)?;
    let mut drafts = Vec::with_capacity(alloc, ids.len())?;
    add_draft(alloc, ingress, feed, None, &mut drafts)?;
    add_others(alloc, plan, &ids, &mut drafts)?;
    Ok(drafts)
}

// All nodes of the plan as they open, in their order, with no link yet; egress has the tap.
fn drafts_of<N: RunNames, F: Feed, M: Links, T: Draws>(
    alloc: Global,
    plan: &Plan,
    ingress: NodeState,
    feed: F,
    tap: T,
) -> Result<Vec<Draft<N, Fed<F>, M, T>>, OutOfMemory>
    requires plan { plan.now ≡ N.plan }
    requires ingress { (id_of ingress ≡ node.Ingress) × IsOpening N.plan ingress }
    requires fits { F.fits feed ingress }
    requires tap { T.given tap ≡ [] }
    ensures { IfOk result (λ drafts. drafts.items ≡ all_unlinked plan.now) }
{
    let mut drafts = before_egress(alloc, plan, ingress, feed)?;
    add_other(alloc, plan, NodeId::Egress, Some(tap), &mut drafts)?;
    Ok(drafts)
}

// The nodes, which have their links now.
fn finished<N: RunNames, A: Acts, K: Keeps, M: Links, T: Draws>(
    alloc: Global,
    plan: &Plan,
    drafts: Vec<Draft<N, A, M, T>>,
) -> Result<Vec<Node<N, A, K, M, T>>, OutOfMemory>
    requires plan { plan.now ≡ N.plan }
    requires links { HaveTheirLinks plan.now drafts.items }
    ensures { IfOk result (λ nodes. map (name_of A.id) nodes.items ≡ drafts.items) }
{
    // This call's clause says that a plan is within the limits.
    let _stages = plan.stages();
    let mut nodes = Vec::with_capacity(alloc, drafts.len())?;
    finish_all(alloc, drafts, &mut nodes);
    Ok(nodes)
}

// Puts the nodes of these drafts, in their order, into a list with room for them.
fn finish_all<N: RunNames, A: Acts, K: Keeps, M: Links, T: Draws>(
    alloc: Global,
    drafts: Vec<Draft<N, A, M, T>>,
    nodes: &mut Vec<Node<N, A, K, M, T>>,
)
    requires planned { IsPlan N.plan }
    requires links { HaveTheirLinks N.plan drafts.items }
    requires room { (vec_len nodes.old ≡ 0) × (vec_len drafts ≤ vec_capacity nodes.old) }
    ensures { map (name_of A.id) nodes.new.items ≡ drafts.items }
{
    for draft in drafts {
        nodes.push_reserved(draft.finish(alloc));
    }
}

/// All nodes of the plan as they open, in their order, with their links: this ingress, and as inputs come to it; egress has the tap.
pub(crate) fn make_nodes<N: RunNames, F: Feed, K: Keeps, M: Links, T: Draws>(
    alloc: Global,
    plan: &Plan,
    ingress: NodeState,
    feed: F,
    tap: T,
    links: &mut M,
) -> Result<Vec<Node<N, Fed<F>, K, M, T>>, OutOfMemory>
    requires plan { plan.now ≡ N.plan }
    requires ingress { (id_of ingress ≡ node.Ingress) × IsOpening N.plan ingress }
    requires fits { F.fits feed ingress }
    requires tap { T.given tap ≡ [] }
    ensures { IfOk result (λ nodes. AreNodesOf plan.now (map (name_of id_of) nodes.items)) }
{
    let mut drafts = drafts_of(alloc, plan, ingress, feed, tap)?;
    connect_all(alloc, plan, &mut drafts, links)?;
    finished(alloc, plan, drafts)
}
