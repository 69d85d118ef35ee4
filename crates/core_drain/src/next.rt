// One event of the drain, and one again and again.
ghost use Rattle.core_drain.specs.Progress.{IsAfter, IsBlock, IsTried, IsWithin, Keeps, MayBegin, Start};
ghost use Rattle.flux_core.specs.CoreView.{flow_in};
ghost use Rattle.flux_core.specs.Stands.{StandsFor};
ghost use Rattle.flux_core.specs.declared.error.ApplyError.TheVariants as out;
ghost use Rattle.pair_machine.specs.Drain.{IsDrainEvent, MergeIsReady};
ghost use Rattle.pair_machine.specs.Journal.{TakesNoMessage};
ghost use Rattle.pair_machine.specs.Machine.{State};
ghost use Rattle.plan_reader.specs.Nodes.{has_node, names_event};
ghost use Rattle.std.specs.Prelude.{◌≡◌, ◌≢◌, ◌↔◌, ◌++◌, ℕ, List, IfOk, IsTrue, OnErr, OnOk, replicate};
ghost use Rattle.tuple_edge.specs.declared.event.Event.{Event};

use event_log::EventBlocks;
use flux_core::{ApplyError, Core, CoreRows};
use tuple_edge::{Event, NodeId, OutOfMemory};

// Whether the merge of a node is ready.
fn merges<R: CoreRows>(core: &Core<R>, node: NodeId) -> bool
    requires { IsTrue (has_node core.now.plan node) }
    ensures { (s : State) → StandsFor core.now s → IsTrue result ↔ MergeIsReady (flow_in core.now) node (s.nodes node) }
{
    match node {
        NodeId::Replica { stage, part, which } => {
            match core.replica(stage, part, which).consumer() {
                Some(consumer) => consumer.ready(),
                None => false,
            }
        }
        NodeId::Egress => core.egress().consumer().ready(),
        NodeId::Ingress | NodeId::Control { .. } => false,
    }
}

// Whether an event is one as the drain has them: work only where a merge is ready.
fn drains<R: CoreRows>(core: &Core<R>, event: &Event) -> bool
    requires { IsTrue (names_event core.now.plan event.now) }
    ensures { (s : State) → StandsFor core.now s → IsTrue result ↔ IsDrainEvent (flow_in core.now) s event.now }
{
    match *event {
        Event::Make | Event::Pull { .. } => true,
        Event::Work { node } => merges(core, node),
        Event::Take { .. } | Event::Kill { .. } | Event::AskStop { .. } | Event::AskBack { .. } => {
            false
        }
    }
}

// A refusal is the machine's, or else it is want of memory.
fn refusal(error: ApplyError) -> Result<(), OutOfMemory>
    ensures { OnOk result (error ≢ out.OutOfMemory) }
{
    match error {
        ApplyError::OutOfMemory => Err(OutOfMemory),
        ApplyError::NotSent { .. }
        | ApplyError::NothingDue
        | ApplyError::NotRunning
        | ApplyError::NoMoreRows
        | ApplyError::NotHeld { .. } => Ok(()),
    }
}

// Applies an event and lists it, where it is one of the drain's and a step; else it says that it isn't. Its
// room in the list is made first.
fn apply_next<R: CoreRows>(
    core: &mut Core<R>,
    events: &mut EventBlocks,
    event: Event,
) -> Result<bool, OutOfMemory>
    requires named { IsTrue (names_event core.old.plan event) }
    requires free { TakesNoMessage event }
    ensures tried { IfOk result (λ did. IsTried did core.old core.new events.old.events events.new.events event) }
    ensures unchanged { OnErr result ((core.new ≡ core.old) × (events.new.events ≡ events.old.events)) }
    ensures keeps { Keeps core.old core.new }
{
    core.known();
    if !drains(core, &event) {
        return Ok(false);
    }
    events.reserve(1)?;
    match core.apply(event) {
        Ok(()) => {
            events.push_reserved(event);
            Ok(true)
        }
        Err(error) => {
            refusal(error)?;
            Ok(false)
        }
    }
}

// Applies an event as often as it is a step.
pub(crate) fn repeat<R: CoreRows>(
    core: &mut Core<R>,
    events: &mut EventBlocks,
    event: Event,
) -> Result<(), OutOfMemory>
    requires named { IsTrue (names_event core.old.plan event) }
    requires free { TakesNoMessage event }
    ensures done { OnOk result ((b : Start) (done : List Event) (n : ℕ) → MayBegin b → IsAfter b core.old events.old.events done
        → IsBlock b done event n → IsAfter b core.new events.new.events (done ++ replicate n event)) }
    ensures within { OnErr result ((b : Start) (done : List Event) (n : ℕ) → MayBegin b → IsAfter b core.old events.old.events done
        → IsBlock b done event n → IsWithin b core.new events.new.events) }
    ensures keeps { Keeps core.old core.new }
{
    core.known();
    for _turn in 0..u64::MAX {
        if !apply_next(core, events, event)? {
            return Ok(());
        }
    }
    // No list has so many events.
    Err(OutOfMemory)
}
