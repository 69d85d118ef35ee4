// How an event becomes an entry.
ghost use Rattle.std.specs.Prelude.{◌≤◌, ◌≡◌, ◌+◌, IfSome};
ghost use Rattle.tuple_edge.specs.declared.event.Event.TheVariants as events;
ghost use Rattle.tuple_edge.specs.declared.node.NodeId.{NodeId};
ghost use Rattle.event_log.specs.Reading.{Continues, ContinuesTake, IsPlain, IsTake, later};

use crate::entry::Entry;
use crate::senders::Senders;
use tuple_edge::{Event, NodeId, Stamped};

/// By how much a clock rose. None where it fell, or rose by more than an entry can say.
pub(crate) fn rise_of(before: u64, after: u64) -> Option<u16>
    ensures { IfSome result (λ rise. after ≡ later before rise) }
{
    if after < before {
        return None;
    }
    u16::try_from(after - before).ok()
}

// The entry of a take from the sender at a place.
fn take_entry(place: u8, last: u64, rise: Option<u16>, index: u64) -> Entry
    ensures { IsTake place last rise index result }
{
    match rise {
        Some(rise) if index == last.saturating_add(1) => Entry::Take {
            sender: place,
            rise,
        },
        _ => Entry::Jump { sender: place },
    }
}

// The entry of an event that is no take from one of the senders.
fn plain_entry(node: NodeId, rise: Option<u16>, event: Event) -> Entry
    ensures { IsPlain node rise event result }
{
    match (event, rise) {
        (Event::Work { node: at }, Some(rise)) if at == node => Entry::Work { rise },
        (Event::Make, Some(rise)) => Entry::Make { rise },
        _ => Entry::Whole,
    }
}

/// The entry of a piece of work, after the clock rose by so much.
pub(crate) fn work_entry(rise: Option<u16>) -> Entry
    ensures { (node : NodeId) → IsPlain node rise (events.Work node) result }
{
    match rise {
        Some(rise) => Entry::Work { rise },
        None => Entry::Whole,
    }
}

/// The entry of the take of a packet, after the clock rose by so much. The senders count it.
pub(crate) fn take_of(senders: &mut Senders, sender: NodeId, rise: Option<u16>, index: u64) -> Entry
    requires { 1 ≤ senders.old.spare }
    ensures entry { ContinuesTake senders.old sender rise index result senders.new }
    ensures spare { senders.old.spare ≤ senders.new.spare + 1 }
{
    let Some(place) = senders.meet(sender) else {
        return Entry::Whole;
    };
    let entry = take_entry(place, senders.taken(place), rise, index);
    senders.count(place, index);
    entry
}

/// The entry of the next event of a node. The senders count it, if it is a take.
pub(crate) fn entry_of(node: NodeId, senders: &mut Senders, clock: u64, stamped: Stamped) -> Entry
    requires { 1 ≤ senders.old.spare }
    ensures entry { Continues node senders.old clock result stamped senders.new }
    ensures spare { senders.old.spare ≤ senders.new.spare + 1 }
{
    let rise = rise_of(clock, stamped.clock);
    match stamped.event {
        Event::Take { link, index } if link.to == node => take_of(senders, link.from, rise, index),
        event => plain_entry(node, rise, event),
    }
}
