// The run of pairs, as the walk asks for it.
use crate::checks::verdict_of;
use crate::offers::{is_failure, offers};
use crate::story::Story;
use run_journal::write_events;
use std::alloc::Global;
use test_kit::{Orders, SmallRun, Verdict};
use tuple_edge::{Event, OutOfMemory};

/// The orders of events of the small run with pairs of replicas.
#[derive(Drop)]
pub(crate) struct PairOrders {
    run: SmallRun,
}

impl PairOrders {
    /// All of them.
    pub(crate) fn new(alloc: Global) -> Result<PairOrders, OutOfMemory> {
        let run = SmallRun::new(alloc)?;
        Ok(PairOrders { run })
    }
}

impl Orders<Event> for PairOrders {
    type Story = Story;

    fn opened(&self, alloc: Global) -> Result<Story, OutOfMemory> {
        Story::opened(alloc, &self.run)
    }

    fn offers(
        &self,
        alloc: Global,
        story: &Story,
        failures: bool,
    ) -> Result<Vec<Event>, OutOfMemory> {
        offers(alloc, &story.core, failures)
    }

    fn is_failure(&self, event: &Event) -> bool {
        is_failure(event)
    }

    fn steps(&self, story: &mut Story, event: Event) -> Result<bool, OutOfMemory> {
        story.steps(event)
    }

    fn state(&self, alloc: Global, story: &Story) -> Result<Vec<u8>, OutOfMemory> {
        story.state(alloc, &self.run)
    }

    fn verdict(&self, alloc: Global, story: Story) -> Result<Verdict, OutOfMemory> {
        verdict_of(alloc, &self.run, story)
    }

    fn text(&self, alloc: Global, events: &[Event]) -> Result<Vec<u8>, OutOfMemory> {
        write_events(alloc, events)
    }
}
