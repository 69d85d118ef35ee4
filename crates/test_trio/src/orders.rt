// The run of a group, as the walk asks for it.
use crate::checks::verdict_of;
use crate::events::text_of;
use crate::nodes::NODES;
use crate::story::Story;
use std::alloc::Global;
use test_kit::{Orders, SmallRun, Verdict};
use trio_machine::TrioEvent;
use trio_nodes::{GROUP_SIZE, TrioNode};
use tuple_edge::OutOfMemory;

/// The orders of events of the small run with a group of three.
#[derive(Drop)]
pub(crate) struct GroupOrders {
    run: SmallRun,
}

impl GroupOrders {
    /// All of them.
    pub(crate) fn new(alloc: Global) -> Result<GroupOrders, OutOfMemory> {
        let run = SmallRun::new(alloc)?;
        Ok(GroupOrders { run })
    }
}

// Each packet that went over a link may be taken, again too.
fn offer_packets(
    events: &mut Vec<TrioEvent>,
    story: &Story,
    from: TrioNode,
    to: TrioNode,
) -> Result<(), OutOfMemory> {
    for before in 0..story.noted(from, to) {
        let index = before + 1;
        events.push(TrioEvent::Take { from, to, index })?;
    }
    Ok(())
}

// A node may work, and so may it take what another one sent it.
fn offer_at(events: &mut Vec<TrioEvent>, story: &Story, to: TrioNode) -> Result<(), OutOfMemory> {
    events.push(TrioEvent::Work { node: to })?;
    for from in NODES {
        offer_packets(events, story, from, to)?;
    }
    Ok(())
}

// Each replica may fail.
fn offer_kills(events: &mut Vec<TrioEvent>) -> Result<(), OutOfMemory> {
    let (stage, part) = (1, 0);
    for copy in 0..GROUP_SIZE {
        let node = TrioNode::Replica { stage, part, copy };
        events.push(TrioEvent::Kill { node })?;
    }
    Ok(())
}

impl Orders<TrioEvent> for GroupOrders {
    type Story = Story;

    fn opened(&self, alloc: Global) -> Result<Story, OutOfMemory> {
        Story::opened(alloc, &self.run)
    }

    fn offers(
        &self,
        alloc: Global,
        story: &Story,
        failures: bool,
    ) -> Result<Vec<TrioEvent>, OutOfMemory> {
        let mut events = Vec::from_slice(alloc, &[TrioEvent::Make])?;
        for node in NODES {
            offer_at(&mut events, story, node)?;
        }
        if failures {
            offer_kills(&mut events)?;
        }
        Ok(events)
    }

    fn is_failure(&self, event: &TrioEvent) -> bool {
        matches!(event, TrioEvent::Kill { .. })
    }

    fn steps(&self, story: &mut Story, event: TrioEvent) -> Result<bool, OutOfMemory> {
        story.steps(event)
    }

    fn state(&self, alloc: Global, story: &Story) -> Result<Vec<u8>, OutOfMemory> {
        story.state(alloc)
    }

    fn verdict(&self, alloc: Global, story: Story) -> Result<Verdict, OutOfMemory> {
        verdict_of(alloc, &self.run, story)
    }

    fn text(&self, alloc: Global, events: &[TrioEvent]) -> Result<Vec<u8>, OutOfMemory> {
        text_of(alloc, events)
    }
}
