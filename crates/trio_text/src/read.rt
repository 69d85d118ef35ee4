// How events of groups are read.
ghost use Rattle.std.specs.Prelude.{All, ◌≡◌, ◌<◌, ◌≤◌, Err, IfOk, length};
ghost use Rattle.run_journal.specs.Limits.{max_events, max_events_bytes};
ghost use Rattle.run_journal.specs.Reading.{Gives};
ghost use Rattle.trio_text.specs.Events.{trio_events_of};
ghost use Rattle.trio_text.specs.Text.{IsNamed};

use crate::TrioLined;
use crate::statement::statement;
use plan_reader::Plan;
use run_journal::{EventForm, EventsError, Fault, Repeated, read_listing};
use std::alloc::Global;
use text_words::Words;

impl EventForm<TrioLined> for Plan {
    ghost use Rattle.trio_text.specs.Events.{lined_at};
    ghost use Rattle.trio_text.specs.Text.{IsNamed};

    ghost said_at = { lined_at };

    ghost within = { λ plan x. IsNamed plan x.event };

    #[tactic(auto, unfolding(crate::specs::Events::lined_at))]
    fn said(&self, number: u64, words: &mut Words<'_>) -> Result<Repeated<TrioLined>, Fault> {
        let said = statement(words, self)?;
        Ok(Repeated {
            event: TrioLined {
                line: number,
                event: said.event,
            },
            times: said.times,
        })
    }
}

/// The events that a text says to a plan whose partitions run as groups, in order, each with its line, or the
/// first of its faults. A line that repeats its event gives it so often.
#[tactic(auto, unfolding(crate::specs::Events::trio_events_of))]
pub fn read_trio(alloc: Global, bytes: &[u8], plan: &Plan) -> Result<Vec<TrioLined>, EventsError>
    ensures reads { Gives (λ events. events.items) result (trio_events_of plan.now bytes.now) }
    // A text that is too long wants no memory.
    ensures long { max_events_bytes < length bytes.now → result ≡ Err (EventsError.TooLong (length bytes.now)) }
    // They are not too many, and each names what the plan has.
    ensures few { IfOk result (λ events. length events.items ≤ max_events) }
    ensures named { IfOk result (λ events. All (λ x. IsNamed plan.now x.event) events.items) }
{
    read_listing(alloc, bytes, "trio", plan)
}
