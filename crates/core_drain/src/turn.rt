// The drain in its order: each pair's drainer pulls and merges all, stage by stage, and then egress.
ghost use Rattle.core_drain.specs.Progress.{IsAfter, IsTurnOf, IsWithin, Keeps, MayBegin, Start, before_turn, done_before, flow_at, pulls_of, turn_of};
ghost use Rattle.pair_machine.specs.Drain.{drain_events};
ghost use Rattle.plan_reader.specs.Nodes.{has_node, has_pair, is_consumer, stage_of_node};
ghost use Rattle.std.specs.Prelude.{◌≡◌, ◌≤◌, ◌+◌, ◌++◌, [], IsTrue, OnErr, OnOk, length};
ghost use Rattle.tuple_edge.specs.declared.node.NodeId.TheVariants as node;

use crate::next::repeat;
use crate::serving::drainer;
use event_log::EventBlocks;
use flux_core::{Core, CoreRows};
use tuple_edge::{Event, NodeId, OutOfMemory};

// A consumer after stage 1 takes all that is left of each source, from the source's drainer.
fn pull_from_each<R: CoreRows>(
    core: &mut Core<R>,
    events: &mut EventBlocks,
    to: NodeId,
    stage: u32,
) -> Result<(), OutOfMemory>
    requires there { IsTrue (has_node core.old.plan to) }
    requires consumes { IsTrue (is_consumer to) }
    requires stage { stage_of_node core.old.plan to ≡ stage }
    requires later { 2 ≤ stage }
    ensures done { OnOk result ((b : Start) → MayBegin b → IsTurnOf b to → IsAfter b core.old events.old.events (before_turn b to)
        → IsAfter b core.new events.new.events (before_turn b to ++ pulls_of b to)) }
    ensures within { OnErr result ((b : Start) → MayBegin b → IsTurnOf b to → IsAfter b core.old events.old.events (before_turn b to)
        → IsWithin b core.new events.new.events) }
    ensures keeps { Keeps core.old core.new }
{
    core.known();
    let sources = core.plan().sources(stage);
    for part in 0..sources {
        let from = NodeId::Replica {
            stage: stage - 1,
            part,
            which: drainer(core, stage - 1, part),
        };
        repeat(core, events, Event::Pull { from, to })?;
    }
    Ok(())
}

// A consumer takes all that is left. From ingress that is as long as any of its sources has more.
fn pull_all<R: CoreRows>(
    core: &mut Core<R>,
    events: &mut EventBlocks,
    to: NodeId,
    stage: u32,
) -> Result<(), OutOfMemory>
    requires there { IsTrue (has_node core.old.plan to) }
    requires consumes { IsTrue (is_consumer to) }
    requires stage { stage_of_node core.old.plan to ≡ stage }
    requires first { 1 ≤ stage }
    ensures done { OnOk result ((b : Start) → MayBegin b → IsTurnOf b to → IsAfter b core.old events.old.events (before_turn b to)
        → IsAfter b core.new events.new.events (before_turn b to ++ pulls_of b to)) }
    ensures within { OnErr result ((b : Start) → MayBegin b → IsTurnOf b to → IsAfter b core.old events.old.events (before_turn b to)
        → IsWithin b core.new events.new.events) }
    ensures keeps { Keeps core.old core.new }
{
    if stage == 1 {
        let from = NodeId::Ingress;
        return repeat(core, events, Event::Pull { from, to });
    }
    pull_from_each(core, events, to, stage)
}

// A consumer takes all that is left, and then merges all that is left.
fn drain_into<R: CoreRows>(
    core: &mut Core<R>,
    events: &mut EventBlocks,
    to: NodeId,
    stage: u32,
) -> Result<(), OutOfMemory>
    requires there { IsTrue (has_node core.old.plan to) }
    requires consumes { IsTrue (is_consumer to) }
    requires stage { stage_of_node core.old.plan to ≡ stage }
    requires first { 1 ≤ stage }
    ensures done { OnOk result ((b : Start) → MayBegin b → IsTurnOf b to → IsAfter b core.old events.old.events (before_turn b to)
        → IsAfter b core.new events.new.events (before_turn b to ++ turn_of b to)) }
    ensures within { OnErr result ((b : Start) → MayBegin b → IsTurnOf b to → IsAfter b core.old events.old.events (before_turn b to)
        → IsWithin b core.new events.new.events) }
    ensures keeps { Keeps core.old core.new }
{
    pull_all(core, events, to, stage)?;
    repeat(core, events, Event::Work { node: to })
}

// The drainer of a pair does so.
fn drain_pair<R: CoreRows>(
    core: &mut Core<R>,
    events: &mut EventBlocks,
    stage: u32,
    part: u32,
) -> Result<(), OutOfMemory>
    requires there { IsTrue (has_pair core.old.plan stage part) }
    ensures done { OnOk result ((b : Start) → MayBegin b → IsAfter b core.old events.old.events (done_before b stage part)
        → IsAfter b core.new events.new.events (done_before b stage (part + 1))) }
    ensures within { OnErr result ((b : Start) → MayBegin b → IsAfter b core.old events.old.events (done_before b stage part)
        → IsWithin b core.new events.new.events) }
    ensures keeps { Keeps core.old core.new }
{
    let which = drainer(core, stage, part);
    let to = NodeId::Replica { stage, part, which };
    drain_into(core, events, to, stage)
}

// Each pair of a stage drains.
fn drain_stage<R: CoreRows>(
    core: &mut Core<R>,
    events: &mut EventBlocks,
    stage: u32,
) -> Result<(), OutOfMemory>
    requires first { 1 ≤ stage }
    requires last { stage ≤ length core.old.plan.stages }
    ensures done { OnOk result ((b : Start) → MayBegin b → IsAfter b core.old events.old.events (done_before b stage 0)
        → IsAfter b core.new events.new.events (done_before b (stage + 1) 0)) }
    ensures within { OnErr result ((b : Start) → MayBegin b → IsAfter b core.old events.old.events (done_before b stage 0)
        → IsWithin b core.new events.new.events) }
    ensures keeps { Keeps core.old core.new }
{
    core.known();
    let parts = core.plan().parts(stage);
    for part in 0..parts {
        drain_pair(core, events, stage, part)?;
    }
    Ok(())
}

// All stages do.
fn drain_stages<R: CoreRows>(
    core: &mut Core<R>,
    events: &mut EventBlocks,
    stages: u32,
) -> Result<(), OutOfMemory>
    requires all { stages ≡ length core.old.plan.stages }
    ensures done { OnOk result ((b : Start) → MayBegin b → IsAfter b core.old events.old.events (done_before b 1 0)
        → IsAfter b core.new events.new.events (done_before b (stages + 1) 0)) }
    ensures within { OnErr result ((b : Start) → MayBegin b → IsAfter b core.old events.old.events (done_before b 1 0)
        → IsWithin b core.new events.new.events) }
    ensures keeps { Keeps core.old core.new }
{
    core.known();
    for before in 0..stages {
        drain_stage(core, events, before + 1)?;
    }
    Ok(())
}

// Ingress makes all, each pair drains, stage by stage, and then egress does.
pub(crate) fn drain_all<R: CoreRows>(
    core: &mut Core<R>,
    events: &mut EventBlocks,
) -> Result<(), OutOfMemory>
    ensures done { OnOk result ((b : Start) → MayBegin b → IsAfter b core.old events.old.events []
        → IsAfter b core.new events.new.events (drain_events (flow_at b) b.state)) }
    ensures within { OnErr result ((b : Start) → MayBegin b → IsAfter b core.old events.old.events []
        → IsWithin b core.new events.new.events) }
    ensures keeps { Keeps core.old core.new }
{
    let stages = core.plan().stage_count();
    repeat(core, events, Event::Make)?;
    drain_stages(core, events, stages)?;
    drain_into(core, events, NodeId::Egress, stages + 1)
}
