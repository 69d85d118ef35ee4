// The lanes of a timeline.
ghost use Rattle.lane_chart.specs.ChartView.{lane_shown};
ghost use Rattle.run_journal.specs.Text.{node_name};
ghost use Rattle.run_timeline.specs.Cells.{makes_of, rows_of};
ghost use Rattle.run_timeline.specs.Nodes.{replicas_of};
ghost use Rattle.run_timeline.specs.Timeline.{end_lane, has_told, is_drawn, lanes_of, one_lane, replica_lane, replica_lanes};
ghost use Rattle.std.specs.Prelude.{◌≡◌, [], ◌∷◌, ◌++◌, IfOk, OnOk, codes, map, string_bytes};

use crate::cells::{makes_of, replica_cells, rising_cells, rows_of};
use crate::marks::marks_of;
use crate::nodes::replicas_of;
use crate::signs::stands_in;
use lane_chart::Lane;
use plan_reader::Plan;
use run_journal::push_node;
use run_watch::{Frame, Told};
use std::alloc::Global;
use tuple_edge::{NodeId, OutOfMemory};

// The name of a node.
fn name_of(alloc: Global, node: NodeId) -> Result<String, OutOfMemory>
    ensures { IfOk result (λ name. string_bytes name ≡ node_name node) }
{
    let mut name = String::new(alloc);
    push_node(&mut name, node)?;
    Ok(name)
}

// The lane of ingress or egress, by what it had counted at each column's end.
#[tactic(auto, unfolding(crate::specs::Timeline::end_lane))]
fn end_lane(alloc: Global, node: NodeId, counts: &[u64]) -> Result<Lane, OutOfMemory>
    ensures { IfOk result (λ lane. lane_shown lane ≡ end_lane (node_name node) counts.now) }
{
    let name = name_of(alloc, node)?;
    let cells = rising_cells(alloc, counts)?;
    Ok(Lane {
        name,
        cells,
        marks: Vec::new(alloc),
    })
}

// The lane of a replica, by its place in node order.
#[tactic(auto, unfolding(crate::specs::Timeline::replica_lane))]
fn replica_lane(
    alloc: Global,
    frames: &[Frame],
    told: &[Told],
    place: usize,
    node: NodeId,
) -> Result<Lane, OutOfMemory>
    ensures { IfOk result (λ lane. lane_shown lane ≡ replica_lane frames.now told.now place node) }
{
    let name = name_of(alloc, node)?;
    let cells = replica_cells(alloc, frames, place)?;
    let marks = marks_of(alloc, frames, told, node)?;
    Ok(Lane { name, cells, marks })
}

// Whether something that is told stands in the lane of a node.
fn has_told(told: &[Told], node: NodeId) -> bool
    ensures { result ≡ has_told told.now node }
{
    told.iter()
        .any(|happened| stands_in(node, happened.happening))
}

// Whether the lane of a replica is drawn.
fn is_drawn(only: bool, told: &[Told], node: NodeId) -> bool
    ensures { result ≡ is_drawn only told.now node }
{
    !only || has_told(told, node)
}

// Appends the lane of a replica, where it is drawn.
fn push_replica_lane(
    lanes: &mut Vec<Lane>,
    alloc: Global,
    frames: &[Frame],
    told: &[Told],
    place: usize,
    node: NodeId,
    only: bool,
) -> Result<(), OutOfMemory>
    ensures { OnOk result (map lane_shown lanes.new.items ≡ map lane_shown lanes.old.items ++ one_lane only frames.now told.now place node) }
{
    if !is_drawn(only, told, node) {
        return Ok(());
    }
    let lane = replica_lane(alloc, frames, told, place, node)?;
    lanes.push(lane)?;
    Ok(())
}

// Appends the lanes of replicas.
fn push_replica_lanes(
    lanes: &mut Vec<Lane>,
    alloc: Global,
    frames: &[Frame],
    told: &[Told],
    nodes: &[NodeId],
    only: bool,
) -> Result<(), OutOfMemory>
    ensures { OnOk result (map lane_shown lanes.new.items ≡ map lane_shown lanes.old.items ++ replica_lanes only frames.now told.now nodes.now) }
{
    for (place, node) in nodes.iter().enumerate() {
        push_replica_lane(lanes, alloc, frames, told, place, *node, only)?;
    }
    Ok(())
}

// Appends the lane of ingress.
fn push_ingress_lane(
    lanes: &mut Vec<Lane>,
    alloc: Global,
    frames: &[Frame],
) -> Result<(), OutOfMemory>
    ensures { OnOk result (map lane_shown lanes.new.items ≡ map lane_shown lanes.old.items ++ end_lane (codes "in") (makes_of frames.now) ∷ []) }
{
    let makes = makes_of(alloc, frames)?;
    let lane = end_lane(alloc, NodeId::Ingress, &makes)?;
    lanes.push(lane)?;
    Ok(())
}

// Appends the lane of egress.
fn push_egress_lane(
    lanes: &mut Vec<Lane>,
    alloc: Global,
    frames: &[Frame],
) -> Result<(), OutOfMemory>
    ensures { OnOk result (map lane_shown lanes.new.items ≡ map lane_shown lanes.old.items ++ end_lane (codes "out") (rows_of frames.now) ∷ []) }
{
    let rows = rows_of(alloc, frames)?;
    let lane = end_lane(alloc, NodeId::Egress, &rows)?;
    lanes.push(lane)?;
    Ok(())
}

// Appends the lanes of a plan's replicas.
fn push_plan_lanes(
    lanes: &mut Vec<Lane>,
    alloc: Global,
    plan: &Plan,
    frames: &[Frame],
    told: &[Told],
    only: bool,
) -> Result<(), OutOfMemory>
    ensures { OnOk result (map lane_shown lanes.new.items ≡ map lane_shown lanes.old.items ++ replica_lanes only frames.now told.now (replicas_of plan.now)) }
{
    let nodes = replicas_of(alloc, plan)?;
    push_replica_lanes(lanes, alloc, frames, told, &nodes, only)
}

// Appends all lanes, from ingress to egress.
fn push_lanes(
    lanes: &mut Vec<Lane>,
    alloc: Global,
    plan: &Plan,
    frames: &[Frame],
    told: &[Told],
    only: bool,
) -> Result<(), OutOfMemory>
    ensures { OnOk result (map lane_shown lanes.new.items ≡ map lane_shown lanes.old.items ++ lanes_of only plan.now frames.now told.now) }
{
    push_ingress_lane(lanes, alloc, frames)?;
    push_plan_lanes(lanes, alloc, plan, frames, told, only)?;
    push_egress_lane(lanes, alloc, frames)
}

// All lanes, from ingress to egress.
pub(crate) fn lanes_of(
    alloc: Global,
    plan: &Plan,
    frames: &[Frame],
    told: &[Told],
    only: bool,
) -> Result<Vec<Lane>, OutOfMemory>
    ensures { IfOk result (λ lanes. map lane_shown lanes.items ≡ lanes_of only plan.now frames.now told.now) }
{
    let mut lanes = Vec::new(alloc);
    push_lanes(&mut lanes, alloc, plan, frames, told, only)?;
    Ok(lanes)
}
