// How events are read.
ghost use Rattle.std.specs.Prelude.{All, ◌≡◌, ◌<◌, ◌≤◌, Err, IfOk, length};
ghost use Rattle.run_journal.specs.Events.{events_of};
ghost use Rattle.run_journal.specs.Limits.{max_events, max_events_bytes};
ghost use Rattle.run_journal.specs.Reading.{Gives};
ghost use Rattle.run_journal.specs.Text.{IsNamed};

use crate::statement::statement;
use crate::{EventForm, EventsError, Fault, Lined, Repeated, read_listing};
use plan_reader::Plan;
use std::alloc::Global;
use text_words::Words;

impl EventForm<Lined> for Plan {
    ghost use Rattle.run_journal.specs.Events.{lined_at};
    ghost use Rattle.run_journal.specs.Text.{IsNamed};

    ghost said_at = { lined_at };

    ghost within = { λ plan x. IsNamed plan x.event };

    #[tactic(auto, unfolding(crate::specs::Events::lined_at))]
    fn said(&self, number: u64, words: &mut Words<'_>) -> Result<Repeated<Lined>, Fault> {
        let said = statement(words, self)?;
        Ok(Repeated {
            event: Lined {
                line: number,
                event: said.event,
            },
            times: said.times,
        })
    }
}

/// The events that a text says to a plan, in order, each with its line, or the first of its faults. A
/// line that repeats its event gives it so often.
#[tactic(auto, unfolding(crate::specs::Events::events_of))]
pub fn read_events(alloc: Global, bytes: &[u8], plan: &Plan) -> Result<Vec<Lined>, EventsError>
    ensures reads { Gives (λ events. events.items) result (events_of plan.now bytes.now) }
    // A text that is too long wants no memory.
    ensures long { max_events_bytes < length bytes.now → result ≡ Err (EventsError.TooLong (length bytes.now)) }
    // They are not too many, and each names what the plan has.
    ensures few { IfOk result (λ events. length events.items ≤ max_events) }
    ensures named { IfOk result (λ events. All (λ x. IsNamed plan.now x.event) events.items) }
{
    read_listing(alloc, bytes, "events", plan)
}
