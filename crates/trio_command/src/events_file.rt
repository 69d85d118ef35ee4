// The file of a list of events of groups.
ghost use Rattle.std.specs.Prelude.{◌≡◌, All};
ghost use Rattle.run_journal.specs.Limits.{max_events_bytes};
ghost use Rattle.trio_command.specs.Courses.{events_from};
ghost use Rattle.trio_text.specs.Text.{IsNamed};

use command_course::{Input, Stop, refused};
use plan_reader::Plan;
use run_journal::{EventsError, MAX_EVENTS_BYTES};
use std::alloc::Global;
use std::marker::Model;
use trio_text::{TrioLined, read_trio};

// A list of events, each with its line.
#[derive(Drop)]
pub(crate) struct Events {
    lines: Vec<TrioLined>,
}

impl Model for Events {
    ghost use Rattle.std.specs.Prelude.{List};
    ghost use Rattle.trio_text.specs.declared.lined.TrioLined.{TrioLined};

    ghost Value = { List TrioLined };

    ghost view = { λ e. e.lines.items };
}

impl Events {
    // The events in order.
    pub(crate) fn lines(&self) -> &[TrioLined]
        ensures { result.now ≡ self.now }
    {
        &self.lines
    }
}

// A file with events of groups for a plan.
#[derive(Drop)]
pub(crate) struct EventsFile<'a> {
    pub(crate) plan: &'a Plan,
}

impl<'a> Input for EventsFile<'a> {
    type Value = Events;

    ghost most = { λ _. max_events_bytes };

    ghost reading = { λ file. events_from file.plan.now };

    ghost keeps = { λ file events. All (λ x. IsNamed file.plan.now x.event) events };

    fn most(&self) -> u64 {
        MAX_EVENTS_BYTES
    }

    #[tactic(auto, using(crate::proofs::EventFaults::events_refused))]
    fn value(&self, alloc: Global, name: &str, bytes: &[u8]) -> Result<Events, Stop> {
        match read_trio(alloc, bytes, self.plan) {
            Ok(lines) => Ok(Events { lines }),
            Err(EventsError::OutOfMemory) => Err(Stop::OutOfMemory),
            Err(error) => Err(refused(alloc, name, error)),
        }
    }

    #[tactic(auto, using(crate::proofs::EventFaults::long_events))]
    fn too_long(&self, alloc: Global, name: &str, seen: u64) -> Stop {
        refused(alloc, name, EventsError::TooLong { bytes: seen })
    }
}
