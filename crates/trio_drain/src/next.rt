// One event of the drain, and one again and again.
ghost use Rattle.std.specs.Prelude.{◌≡◌, ◌≢◌, ◌↔◌, ◌++◌, ℕ, List, IfOk, IsTrue, OnErr, OnOk, replicate};
ghost use Rattle.trio_core.specs.CoreView.{flow_in};
ghost use Rattle.trio_core.specs.Stands.{StandsFor};
ghost use Rattle.trio_core.specs.Steps.{IsNamed};
ghost use Rattle.trio_core.specs.declared.error.TrioError.TheVariants as out;
ghost use Rattle.trio_drain.specs.Order.{IsBlock, MayBegin, Start};
ghost use Rattle.trio_drain.specs.Progress.{IsAfter, IsTried, IsWithin, Keeps};
ghost use Rattle.trio_machine.specs.Drain.{IsDrainEvent, MergeIsReady};
ghost use Rattle.trio_machine.specs.Links.{HasNode};
ghost use Rattle.trio_machine.specs.Machine.{State};
ghost use Rattle.trio_machine.specs.declared.event.TrioEvent.{TrioEvent};

use trio_core::{TrioCore, TrioError};
use trio_machine::{TrioEvent, TrioNode};
use tuple_edge::OutOfMemory;

// Whether the merge of a node is ready.
fn merges(core: &TrioCore, node: TrioNode) -> bool
    requires there { HasNode (flow_in core.now) node }
    ensures { (s : State) → StandsFor core.now s → IsTrue result ↔ MergeIsReady (flow_in core.now) node (s.nodes node) }
{
    match node {
        TrioNode::Replica { stage, part, copy } => {
            match core.replica(stage, part, copy).consumer() {
                Some(consumer) => consumer.ready(),
                None => false,
            }
        }
        TrioNode::Egress => core.egress().consumer().ready(),
        TrioNode::Ingress | TrioNode::Control { .. } => false,
    }
}

// Whether an event is one as the drain has them: work only where a merge is ready.
fn drains(core: &TrioCore, event: &TrioEvent) -> bool
    requires named { IsNamed (flow_in core.now) event.now }
    ensures { (s : State) → StandsFor core.now s → IsTrue result ↔ IsDrainEvent (flow_in core.now) s event.now }
{
    match *event {
        TrioEvent::Make | TrioEvent::Pull { .. } => true,
        TrioEvent::Work { node } => merges(core, node),
        TrioEvent::Take { .. } | TrioEvent::Kill { .. } => false,
    }
}

// A refusal is the machine's, or else it is want of memory.
fn refusal(error: TrioError) -> Result<(), OutOfMemory>
    ensures { OnOk result (error ≢ out.OutOfMemory) }
{
    match error {
        TrioError::OutOfMemory => Err(OutOfMemory),
        TrioError::NotSent { .. }
        | TrioError::NothingDue
        | TrioError::NotRunning
        | TrioError::NoMoreRows
        | TrioError::NotHeld { .. } => Ok(()),
    }
}

// Applies an event, where it is one of the drain's and a step; else it says that it isn't.
fn apply_next(core: &mut TrioCore, event: TrioEvent) -> Result<bool, OutOfMemory>
    requires named { IsNamed (flow_in core.old) event }
    ensures tried { IfOk result (λ did. IsTried did core.old core.new event) }
    ensures unchanged { OnErr result (core.new ≡ core.old) }
    ensures keeps { Keeps core.old core.new }
{
    core.known();
    if !drains(core, &event) {
        return Ok(false);
    }
    match core.apply(event) {
        Ok(()) => Ok(true),
        Err(error) => {
            refusal(error)?;
            Ok(false)
        }
    }
}

// Applies an event as often as it is a step.
pub(crate) fn repeat(core: &mut TrioCore, event: TrioEvent) -> Result<(), OutOfMemory>
    requires named { IsNamed (flow_in core.old) event }
    ensures done { OnOk result ((b : Start) (done : List TrioEvent) (n : ℕ) → MayBegin b → IsAfter b core.old done
        → IsBlock b done event n → IsAfter b core.new (done ++ replicate n event)) }
    ensures within { OnErr result ((b : Start) (done : List TrioEvent) (n : ℕ) → MayBegin b → IsAfter b core.old done
        → IsBlock b done event n → IsWithin b core.new) }
    ensures keeps { Keeps core.old core.new }
{
    core.known();
    for _turn in 0..u64::MAX {
        if !apply_next(core, event)? {
            return Ok(());
        }
    }
    // No edge has so many items.
    Err(OutOfMemory)
}
