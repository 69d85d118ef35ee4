// The frame of what a core is.
ghost use Rattle.flux_core.specs.CoreView.{flow_in, inputs_of};
ghost use Rattle.flux_core.specs.Stands.{StandsFor};
ghost use Rattle.pair_machine.specs.Drain.{partition, parts_below};
ghost use Rattle.pair_machine.specs.Machine.{State};
ghost use Rattle.plan_reader.specs.Nodes.{has_pair};
ghost use Rattle.run_watch.specs.Columns.{frame_in, modes_in, pair_modes};
ghost use Rattle.std.specs.List.{flat_map};
ghost use Rattle.std.specs.Prelude.{◌≡◌, ◌≤◌, ◌+◌, ◌++◌, [], ◌∷◌, IfOk, IsTrue, OnOk, length};

use crate::frame::Frame;
use crate::looking::mode_at;
use crate::mode::Mode;
use flux_core::Core;
use std::alloc::Global;
use tuple_edge::{OutOfMemory, Which};

// Appends the modes of a pair's replicas.
fn push_pair(modes: &mut Vec<Mode>, core: &Core, stage: u32, part: u32) -> Result<(), OutOfMemory>
    requires { IsTrue (has_pair core.now.plan stage part) }
    ensures { OnOk result ((s : State) → StandsFor core.now s
        → modes.new.items ≡ modes.old.items ++ pair_modes (flow_in core.now) s (partition stage part)) }
{
    modes.push(mode_at(core, stage, part, Which::A))?;
    modes.push(mode_at(core, stage, part, Which::B))?;
    Ok(())
}

// Appends the modes of the pairs of a stage.
fn push_stage(modes: &mut Vec<Mode>, core: &Core, stage: u32) -> Result<(), OutOfMemory>
    requires low { 1 ≤ stage }
    requires high { stage ≤ length core.now.plan.stages }
    ensures { OnOk result ((s : State) → StandsFor core.now s → modes.new.items ≡ modes.old.items
        ++ flat_map (pair_modes (flow_in core.now) s) (parts_below stage ((flow_in core.now).sources (stage + 1)))) }
{
    let parts = core.plan().parts(stage);
    for part in 0..parts {
        push_pair(modes, core, stage, part)?;
    }
    Ok(())
}

// The modes of all replicas, stage by stage.
fn modes_of(alloc: Global, core: &Core) -> Result<Vec<Mode>, OutOfMemory>
    ensures { IfOk result (λ modes. (s : State) → StandsFor core.now s → modes.items ≡ modes_in (flow_in core.now) s) }
{
    let stages = core.plan().stage_count();
    let mut modes = Vec::new(alloc);
    for stage in 0..stages {
        push_stage(&mut modes, core, stage + 1)?;
    }
    Ok(modes)
}

// The frame of a core after so many events.
fn frame(alloc: Global, core: &Core, place: u64) -> Result<Frame, OutOfMemory>
    ensures { IfOk result (λ frame. (s : State) → StandsFor core.now s → frame ≡ frame_in core.now.plan (inputs_of core.now) place s) }
{
    core.known();
    let modes = modes_of(alloc, core)?;
    let made = core.ingress().makes();
    let emitted = core.emitted().len() as u64;
    Ok(Frame::new(place, modes, made, emitted))
}

// Appends it.
pub(crate) fn push_frame(
    frames: &mut Vec<Frame>,
    alloc: Global,
    core: &Core,
    place: u64,
) -> Result<(), OutOfMemory>
    ensures { OnOk result ((s : State) → StandsFor core.now s
        → frames.new.items ≡ frames.old.items ++ frame_in core.now.plan (inputs_of core.now) place s ∷ []) }
{
    let next = frame(alloc, core, place)?;
    frames.push(next)?;
    Ok(())
}
