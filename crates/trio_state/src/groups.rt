// The lines of all groups.
ghost use Rattle.pair_machine.specs.Drain.{pairs_up_to, partition, parts_below};
ghost use Rattle.plan_reader.specs.Nodes.{has_pair};
ghost use Rattle.std.specs.List.{flat_map};
ghost use Rattle.std.specs.Prelude.{◌≡◌, ◌<◌, ◌≤◌, ◌+◌, ◌++◌, IfOk, IsTrue, OnOk, length, string_bytes};
ghost use Rattle.trio_core.specs.CoreView.{flow_in};
ghost use Rattle.trio_core.specs.Stands.{StandsFor};
ghost use Rattle.trio_machine.specs.Machine.{State};
ghost use Rattle.trio_machine.specs.Numbers.{group_size};
ghost use Rattle.trio_machine.specs.declared.node.TrioNode.TheVariants as node;
ghost use Rattle.trio_state.specs.GroupsText.{group_text, groups_text, line_of_control, line_of_replica};

use crate::lines::{push_control, push_replica};
use std::alloc::Global;
use trio_core::TrioCore;
use tuple_edge::OutOfMemory;

// Appends the line of the controller of a group.
fn push_control_of(
    text: &mut String,
    core: &TrioCore,
    stage: u32,
    part: u32,
) -> Result<(), OutOfMemory>
    requires { IsTrue (has_pair core.now.plan stage part) }
    ensures { OnOk result ((s : State) → StandsFor core.now s
        → string_bytes text.new ≡ string_bytes text.old ++ line_of_control s (node.Control stage part)) }
{
    push_control(text, core.control(stage, part))?;
    Ok(())
}

// Appends the line of a replica of a group.
fn push_replica_of(
    text: &mut String,
    core: &TrioCore,
    stage: u32,
    part: u32,
    copy: u32,
) -> Result<(), OutOfMemory>
    requires there { IsTrue (has_pair core.now.plan stage part) }
    requires copy { copy < group_size }
    ensures { OnOk result ((s : State) → StandsFor core.now s
        → string_bytes text.new ≡ string_bytes text.old ++ line_of_replica s (node.Replica stage part copy)) }
{
    push_replica(text, core.replica(stage, part, copy))?;
    Ok(())
}

// Appends the lines of a group: its controller, and then its replicas.
fn push_group(text: &mut String, core: &TrioCore, stage: u32, part: u32) -> Result<(), OutOfMemory>
    requires { IsTrue (has_pair core.now.plan stage part) }
    ensures { OnOk result ((s : State) → StandsFor core.now s
        → string_bytes text.new ≡ string_bytes text.old ++ group_text s (partition stage part)) }
{
    push_control_of(text, core, stage, part)?;
    push_replica_of(text, core, stage, part, 0)?;
    push_replica_of(text, core, stage, part, 1)?;
    push_replica_of(text, core, stage, part, 2)?;
    Ok(())
}

// Appends the lines of the groups of a stage.
fn push_stage(text: &mut String, core: &TrioCore, stage: u32) -> Result<(), OutOfMemory>
    requires low { 1 ≤ stage }
    requires high { stage ≤ length core.now.plan.stages }
    ensures { OnOk result ((s : State) → StandsFor core.now s → string_bytes text.new ≡ string_bytes text.old
        ++ flat_map (group_text s) (parts_below stage ((flow_in core.now).sources (stage + 1)))) }
{
    let parts = core.plan().parts(stage);
    for part in 0..parts {
        push_group(text, core, stage, part)?;
    }
    Ok(())
}

// Appends the lines of all groups, stage by stage.
fn push_groups(text: &mut String, core: &TrioCore) -> Result<(), OutOfMemory>
    ensures { OnOk result ((s : State) → StandsFor core.now s → string_bytes text.new ≡ string_bytes text.old
        ++ flat_map (group_text s) (pairs_up_to (flow_in core.now) (flow_in core.now).stages)) }
{
    let stages = core.plan().stage_count();
    for stage in 0..stages {
        push_stage(text, core, stage + 1)?;
    }
    Ok(())
}

/// The text of a core's groups: for each group a line for its controller, with the term and the replica that leads,
/// and then one for each of its replicas, with how many items it has merged, or that it is gone.
pub fn write_groups(core: &TrioCore, alloc: Global) -> Result<Vec<u8>, OutOfMemory>
    ensures { IfOk result (λ text. (s : State) → StandsFor core.now s → text.items ≡ groups_text (flow_in core.now) s) }
{
    let mut text = String::new(alloc);
    push_groups(&mut text, core)?;
    Ok(text.into_bytes())
}
