// The lines of all pairs.
ghost use Rattle.flux_core.specs.CoreView.{flow_in};
ghost use Rattle.flux_core.specs.Stands.{StandsFor};
ghost use Rattle.pair_machine.specs.Drain.{pairs_up_to, partition, parts_below};
ghost use Rattle.pair_machine.specs.Machine.{State, controller_in, replica_in};
ghost use Rattle.plan_reader.specs.Nodes.{has_pair, sources_of};
ghost use Rattle.run_journal.specs.Text.{node_name};
ghost use Rattle.state_text.specs.StateText.{controller_text, pair_text, replica_text};
ghost use Rattle.std.specs.List.{flat_map};
ghost use Rattle.std.specs.Prelude.{◌≡◌, ◌<◌, ◌≤◌, ◌+◌, ◌++◌, IsTrue, OnOk, length, string_bytes};
ghost use Rattle.tuple_edge.specs.declared.node.NodeId.TheVariants as node;

use crate::controls::push_controller;
use crate::names::name_of;
use crate::replicas::push_replica;
use flux_core::Core;
use std::alloc::Global;
use tuple_edge::{NodeId, OutOfMemory, Which};

// Appends the lines of the controller of a pair that has so many in-edges.
fn push_control(
    text: &mut String,
    alloc: Global,
    core: &Core,
    stage: u32,
    part: u32,
    edges: u32,
) -> Result<(), OutOfMemory>
    requires there { IsTrue (has_pair core.now.plan stage part) }
    requires edges { edges ≡ sources_of core.now.plan stage }
    ensures { OnOk result ((s : State) → StandsFor core.now s → string_bytes text.new ≡ string_bytes text.old
        ++ controller_text (node_name (node.Control stage part)) ((flow_in core.now).sources stage) (controller_in (s.nodes (node.Control stage part)))) }
{
    core.known();
    let name = name_of(alloc, NodeId::Control { stage, part })?;
    push_controller(text, &name, core.control(stage, part), edges)?;
    Ok(())
}

// Appends the lines of a replica of such a pair.
fn push_member(
    text: &mut String,
    alloc: Global,
    core: &Core,
    stage: u32,
    part: u32,
    which: Which,
    edges: u32,
) -> Result<(), OutOfMemory>
    requires there { IsTrue (has_pair core.now.plan stage part) }
    requires edges { edges ≡ sources_of core.now.plan stage }
    ensures { OnOk result ((s : State) → StandsFor core.now s → string_bytes text.new ≡ string_bytes text.old
        ++ replica_text (flow_in core.now) (node_name (node.Replica stage part which)) (partition stage part) (replica_in (s.nodes (node.Replica stage part which)))) }
{
    core.known();
    let name = name_of(alloc, NodeId::Replica { stage, part, which })?;
    push_replica(text, &name, core.replica(stage, part, which), edges)?;
    Ok(())
}

// Appends the lines of a pair: its controller, then its replicas.
fn push_pair(
    text: &mut String,
    alloc: Global,
    core: &Core,
    stage: u32,
    part: u32,
) -> Result<(), OutOfMemory>
    requires { IsTrue (has_pair core.now.plan stage part) }
    ensures { OnOk result ((s : State) → StandsFor core.now s
        → string_bytes text.new ≡ string_bytes text.old ++ pair_text (flow_in core.now) s (partition stage part)) }
{
    let edges = core.plan().sources(stage);
    push_control(text, alloc, core, stage, part, edges)?;
    push_member(text, alloc, core, stage, part, Which::A, edges)?;
    push_member(text, alloc, core, stage, part, Which::B, edges)?;
    Ok(())
}

// Appends the lines of the pairs of a stage.
fn push_stage(text: &mut String, alloc: Global, core: &Core, stage: u32) -> Result<(), OutOfMemory>
    requires low { 1 ≤ stage }
    requires high { stage ≤ length core.now.plan.stages }
    ensures { OnOk result ((s : State) → StandsFor core.now s → string_bytes text.new ≡ string_bytes text.old
        ++ flat_map (pair_text (flow_in core.now) s) (parts_below stage ((flow_in core.now).sources (stage + 1)))) }
{
    let parts = core.plan().parts(stage);
    for part in 0..parts {
        push_pair(text, alloc, core, stage, part)?;
    }
    Ok(())
}

// Appends the lines of all pairs, stage by stage.
pub(crate) fn push_pairs(text: &mut String, alloc: Global, core: &Core) -> Result<(), OutOfMemory>
    ensures { OnOk result ((s : State) → StandsFor core.now s → string_bytes text.new ≡ string_bytes text.old
        ++ flat_map (pair_text (flow_in core.now) s) (pairs_up_to (flow_in core.now) (flow_in core.now).stages)) }
{
    let stages = core.plan().stage_count();
    for stage in 0..stages {
        push_stage(text, alloc, core, stage + 1)?;
    }
    Ok(())
}
