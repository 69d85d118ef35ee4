// The drain in its order: each group's server pulls and merges all, stage by stage, and then egress.
ghost use Rattle.plan_reader.specs.Nodes.{has_pair};
ghost use Rattle.std.specs.Prelude.{◌≡◌, ◌≤◌, ◌+◌, ◌++◌, [], IsTrue, OnErr, OnOk, length};
ghost use Rattle.trio_core.specs.CoreView.{flow_in};
ghost use Rattle.trio_drain.specs.Order.{IsTurnOf, MayBegin, Start, before_turn, done_before, flow_at, partition_in, pulls_of, turn_of};
ghost use Rattle.trio_drain.specs.Progress.{IsAfter, IsWithin, Keeps};
ghost use Rattle.trio_machine.specs.Drain.{drain_events};
ghost use Rattle.trio_machine.specs.Links.{HasNode};

use crate::next::repeat;
use crate::serving::{feeder, server};
use trio_core::TrioCore;
use trio_machine::{TrioEvent, TrioNode};
use tuple_edge::OutOfMemory;

// A consumer takes all that is left of each source.
fn pull_all(core: &mut TrioCore, to: TrioNode, stage: u32) -> Result<(), OutOfMemory>
    requires there { HasNode (flow_in core.old) to }
    requires stage { (partition_in (flow_in core.old) to).stage ≡ stage }
    requires first { 1 ≤ stage }
    ensures done { OnOk result ((b : Start) → MayBegin b → IsTurnOf b to → IsAfter b core.old (before_turn b to)
        → IsAfter b core.new (before_turn b to ++ pulls_of b to)) }
    ensures within { OnErr result ((b : Start) → MayBegin b → IsTurnOf b to → IsAfter b core.old (before_turn b to)
        → IsWithin b core.new) }
    ensures keeps { Keeps core.old core.new }
{
    core.known();
    let sources = core.plan().sources(stage);
    for part in 0..sources {
        let from = feeder(core, stage, part);
        repeat(core, TrioEvent::Pull { from, to })?;
    }
    Ok(())
}

// A consumer takes all that is left, and then merges all that is left.
fn drain_into(core: &mut TrioCore, to: TrioNode, stage: u32) -> Result<(), OutOfMemory>
    requires there { HasNode (flow_in core.old) to }
    requires stage { (partition_in (flow_in core.old) to).stage ≡ stage }
    requires first { 1 ≤ stage }
    ensures done { OnOk result ((b : Start) → MayBegin b → IsTurnOf b to → IsAfter b core.old (before_turn b to)
        → IsAfter b core.new (before_turn b to ++ turn_of b to)) }
    ensures within { OnErr result ((b : Start) → MayBegin b → IsTurnOf b to → IsAfter b core.old (before_turn b to)
        → IsWithin b core.new) }
    ensures keeps { Keeps core.old core.new }
{
    pull_all(core, to, stage)?;
    repeat(core, TrioEvent::Work { node: to })
}

// The server of a group does so.
fn drain_group(core: &mut TrioCore, stage: u32, part: u32) -> Result<(), OutOfMemory>
    requires there { IsTrue (has_pair core.old.plan stage part) }
    ensures done { OnOk result ((b : Start) → MayBegin b → IsAfter b core.old (done_before b stage part)
        → IsAfter b core.new (done_before b stage (part + 1))) }
    ensures within { OnErr result ((b : Start) → MayBegin b → IsAfter b core.old (done_before b stage part)
        → IsWithin b core.new) }
    ensures keeps { Keeps core.old core.new }
{
    let copy = server(core, stage, part);
    let to = TrioNode::Replica { stage, part, copy };
    drain_into(core, to, stage)
}

// Each group of a stage drains.
fn drain_stage(core: &mut TrioCore, stage: u32) -> Result<(), OutOfMemory>
    requires first { 1 ≤ stage }
    requires last { stage ≤ length core.old.plan.stages }
    ensures done { OnOk result ((b : Start) → MayBegin b → IsAfter b core.old (done_before b stage 0)
        → IsAfter b core.new (done_before b (stage + 1) 0)) }
    ensures within { OnErr result ((b : Start) → MayBegin b → IsAfter b core.old (done_before b stage 0)
        → IsWithin b core.new) }
    ensures keeps { Keeps core.old core.new }
{
    core.known();
    let parts = core.plan().parts(stage);
    for part in 0..parts {
        drain_group(core, stage, part)?;
    }
    Ok(())
}

// All stages do.
fn drain_stages(core: &mut TrioCore, stages: u32) -> Result<(), OutOfMemory>
    requires all { stages ≡ length core.old.plan.stages }
    ensures done { OnOk result ((b : Start) → MayBegin b → IsAfter b core.old (done_before b 1 0)
        → IsAfter b core.new (done_before b (stages + 1) 0)) }
    ensures within { OnErr result ((b : Start) → MayBegin b → IsAfter b core.old (done_before b 1 0)
        → IsWithin b core.new) }
    ensures keeps { Keeps core.old core.new }
{
    core.known();
    for before in 0..stages {
        drain_stage(core, before + 1)?;
    }
    Ok(())
}

// Ingress makes all, each group drains, stage by stage, and then egress does.
pub(crate) fn drain_all(core: &mut TrioCore) -> Result<(), OutOfMemory>
    ensures done { OnOk result ((b : Start) → MayBegin b → IsAfter b core.old []
        → IsAfter b core.new (drain_events (flow_at b) b.state)) }
    ensures within { OnErr result ((b : Start) → MayBegin b → IsAfter b core.old []
        → IsWithin b core.new) }
    ensures keeps { Keeps core.old core.new }
{
    let stages = core.plan().stage_count();
    repeat(core, TrioEvent::Make)?;
    drain_stages(core, stages)?;
    drain_into(core, TrioNode::Egress, stages + 1)
}
