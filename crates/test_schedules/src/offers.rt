// The events that may come next.
use crate::nodes::NODES;
use flux_core::Core;
use std::alloc::Global;
use tuple_edge::{Event, LinkId, NodeId, OutOfMemory, Which};

// How many packets went over a link.
fn sent(core: &Core, link: LinkId) -> u64 {
    let mut count = 0u64;
    if !core.plan().has(link.from) {
        return count;
    }
    let log = core.sent_by(link.from);
    for nth in 0..log.len() {
        if let Some((to, _body)) = log.get(nth)
            && to == link.to
        {
            count = count.saturating_add(1);
        }
    }
    count
}

// Each packet that went over a link may be taken, again too.
fn offer_packets(events: &mut Vec<Event>, core: &Core, link: LinkId) -> Result<(), OutOfMemory> {
    for before in 0..sent(core, link) {
        let index = before + 1;
        events.push(Event::Take { link, index })?;
    }
    Ok(())
}

// A node may work, and so may it take what another one sent it.
fn offer_at(events: &mut Vec<Event>, core: &Core, to: NodeId) -> Result<(), OutOfMemory> {
    events.push(Event::Work { node: to })?;
    for from in NODES {
        offer_packets(events, core, LinkId { from, to })?;
    }
    Ok(())
}

// A replica may fail, ask to be stopped, and be asked for by its partner.
fn offer_failures(events: &mut Vec<Event>, which: Which) -> Result<(), OutOfMemory> {
    let (stage, part) = (1, 0);
    let node = NodeId::Replica { stage, part, which };
    events.push(Event::Kill { node })?;
    events.push(Event::AskStop { node })?;
    events.push(Event::AskBack { node })?;
    Ok(())
}

/// Whether an event is a failure, or a request after one.
pub(crate) fn is_failure(event: &Event) -> bool {
    match *event {
        Event::Kill { .. } | Event::AskStop { .. } | Event::AskBack { .. } => true,
        Event::Take { .. } | Event::Work { .. } | Event::Make | Event::Pull { .. } => false,
    }
}

/// All events that could be steps of a core, but pulls; failures only where they are asked for.
pub(crate) fn offers(
    alloc: Global,
    core: &Core,
    failures: bool,
) -> Result<Vec<Event>, OutOfMemory> {
    let mut events = Vec::from_slice(alloc, &[Event::Make])?;
    for node in NODES {
        offer_at(&mut events, core, node)?;
    }
    if failures {
        offer_failures(&mut events, Which::A)?;
        offer_failures(&mut events, Which::B)?;
    }
    Ok(events)
}
