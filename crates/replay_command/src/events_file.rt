// The file of a list of events.
ghost use Rattle.std.specs.Prelude.{◌≡◌};
ghost use Rattle.flux_core.specs.Follows.{AreNamed};
ghost use Rattle.replay_command.specs.Courses.{events_from};
ghost use Rattle.run_journal.specs.Limits.{max_events_bytes};

use command_course::{Input, Stop, refused};
use plan_reader::Plan;
use run_journal::{EventsError, Lined, MAX_EVENTS_BYTES, read_events};
use std::alloc::Global;
use std::marker::Model;

/// A list of events, each with its line.
#[derive(Drop)]
pub struct Events {
    lines: Vec<Lined>,
}

impl Model for Events {
    ghost use Rattle.run_journal.specs.declared.lined.Lined.{Lined};
    ghost use Rattle.std.specs.Prelude.{List};

    ghost Value = { List Lined };

    ghost view = { λ e. e.lines.items };
}

impl Events {
    /// The events in order.
    pub fn lines(&self) -> &[Lined]
        ensures { result.now ≡ self.now }
    {
        &self.lines
    }
}

/// A file with events for a plan.
#[derive(Drop)]
pub struct EventsFile<'a> {
    pub plan: &'a Plan,
}

impl<'a> Input for EventsFile<'a> {
    type Value = Events;

    ghost most = { λ _. max_events_bytes };

    ghost reading = { λ file. events_from file.plan.now };

    ghost keeps = { λ file events. AreNamed file.plan.now events };

    fn most(&self) -> u64 {
        MAX_EVENTS_BYTES
    }

    #[tactic(auto, using(crate::proofs::EventFaults::events_refused, crate::proofs::EventFaults::are_named))]
    fn value(&self, alloc: Global, name: &str, bytes: &[u8]) -> Result<Events, Stop> {
        match read_events(alloc, bytes, self.plan) {
            Ok(lines) => Ok(Events { lines }),
            Err(EventsError::OutOfMemory) => Err(Stop::OutOfMemory),
            Err(error) => Err(refused(alloc, name, error)),
        }
    }

    #[tactic(auto, using(crate::proofs::EventFaults::long_events))]
    fn too_long(&self, alloc: Global, name: &str, seen: u64) -> Stop {
        refused(alloc, name, EventsError::TooLong { bytes: seen })
    }
}
