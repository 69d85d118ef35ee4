// A core that is driven event by event, and drained.
ghost use Rattle.std.specs.Prelude.{◌≡◌, true};

use crate::again::TIMES;
use core_drain::{Drained, drain};
use event_log::EventBlocks;
use flux_core::{ApplyError, Core};
use plan_reader::Plan;
use state_text::write_state;
use std::alloc::Global;
use trade_text::Trades;
use tuple_edge::{Event, OutOfMemory};

/// A core that was made as its plan opens, so that every packet that was ever sent is there.
#[derive(Drop)]
pub(crate) struct Story {
    pub(crate) core: Core,
    ghost whole: { core.whole ≡ true },
}

impl Story {
    /// The core of a plan and trades, as it opens.
    pub(crate) fn new(alloc: Global, plan: &Plan, trades: &Trades) -> Result<Story, OutOfMemory> {
        let core = Core::new(alloc, plan, trades)?;
        Ok(Story { core })
    }

    // An event of the plan is applied; another one isn't. After want of memory the core is as it was.
    fn try_apply(&mut self, event: Event) -> Result<(), ApplyError> {
        if !self.core.plan().names(&event) {
            return Err(ApplyError::NotRunning);
        }
        self.core.apply(event)
    }

    /// Applies an event, and applies it again where it found no memory. One that is no step changes nothing.
    pub(crate) fn apply(&mut self, event: Event) -> Result<(), ApplyError> {
        for _time in 1..TIMES {
            let applied = self.try_apply(event);
            if applied != Err(ApplyError::OutOfMemory) {
                return applied;
            }
        }
        self.try_apply(event)
    }

    /// Drains the core, and lists the events behind those that are there. After want of memory the core stands after the
    /// events that were listed.
    pub(crate) fn drain(&mut self, events: &mut EventBlocks) -> Result<Drained, OutOfMemory> {
        drain(&mut self.core, events)
    }

    /// The text of its state.
    pub(crate) fn state(&self, alloc: Global, trades: &Trades) -> Result<Vec<u8>, OutOfMemory> {
        write_state(&self.core, alloc, trades)
    }
}
