// What a line after the first one says: an event, and how often it happens.
ghost use Rattle.std.specs.Prelude.{◌≡◌, ◌≤◌, IfOk};
ghost use Rattle.text_words.specs.Reading.{Takes};
ghost use Rattle.run_journal.specs.Limits.{max_repeats};
ghost use Rattle.trio_machine.specs.declared.event.TrioEvent.TheVariants as event;
ghost use Rattle.trio_text.specs.Events.{event_at, kill_at, make_at, pull_at, take_at, work_at};
ghost use Rattle.trio_text.specs.Text.{IsNamed};

use crate::words::{ends, node, replica, target};
use plan_reader::Plan;
use run_journal::{Fault, Repeated, index, once, times};
use text_words::{Words, is_word};
use trio_machine::TrioEvent;

// What follows `make`.
#[tactic(auto, unfolding(crate::specs::Events::make_at))]
fn make(words: &mut Words<'_>) -> Result<Repeated<TrioEvent>, Fault>
    ensures value { Takes words.new result (make_at words.old) }
    ensures few { IfOk result (λ said. said.times ≤ max_repeats) }
    ensures made { IfOk result (λ said. said.event ≡ event.Make) }
{
    let times = times(words)?;
    Ok(Repeated {
        event: TrioEvent::Make,
        times,
    })
}

// What follows `work`.
#[tactic(auto, unfolding(crate::specs::Events::work_at))]
fn work(words: &mut Words<'_>, plan: &Plan) -> Result<Repeated<TrioEvent>, Fault>
    ensures value { Takes words.new result (work_at plan.now words.old) }
    ensures few { IfOk result (λ said. said.times ≤ max_repeats) }
    ensures named { IfOk result (λ said. IsNamed plan.now said.event) }
{
    let node = node(words, plan)?;
    let times = times(words)?;
    Ok(Repeated {
        event: TrioEvent::Work { node },
        times,
    })
}

// What follows `take`.
#[tactic(auto, unfolding(crate::specs::Events::take_at))]
fn take(words: &mut Words<'_>, plan: &Plan) -> Result<Repeated<TrioEvent>, Fault>
    ensures value { Takes words.new result (take_at plan.now words.old) }
    ensures few { IfOk result (λ said. said.times ≤ max_repeats) }
    ensures named { IfOk result (λ said. IsNamed plan.now said.event) }
{
    let ends = ends(words, plan)?;
    let index = index(words)?;
    words.end_or(Fault::Grammar)?;
    Ok(once(TrioEvent::Take {
        from: ends.from,
        to: ends.to,
        index,
    }))
}

// What follows `kill`.
#[tactic(auto, unfolding(crate::specs::Events::kill_at))]
fn kill(words: &mut Words<'_>, plan: &Plan) -> Result<Repeated<TrioEvent>, Fault>
    ensures value { Takes words.new result (kill_at plan.now words.old) }
    ensures few { IfOk result (λ said. said.times ≤ max_repeats) }
    ensures named { IfOk result (λ said. IsNamed plan.now said.event) }
{
    let node = replica(words, plan)?;
    words.end_or(Fault::Grammar)?;
    Ok(once(TrioEvent::Kill { node }))
}

// What follows `pull`.
#[tactic(auto, unfolding(crate::specs::Events::pull_at))]
fn pull(words: &mut Words<'_>, plan: &Plan) -> Result<Repeated<TrioEvent>, Fault>
    ensures value { Takes words.new result (pull_at plan.now words.old) }
    ensures few { IfOk result (λ said. said.times ≤ max_repeats) }
    ensures named { IfOk result (λ said. IsNamed plan.now said.event) }
{
    let from = node(words, plan)?;
    let to = target(words, plan, from)?;
    let times = times(words)?;
    Ok(Repeated {
        event: TrioEvent::Pull { from, to },
        times,
    })
}

// What a line after the first one says.
#[tactic(auto, unfolding(crate::specs::Events::event_at))]
pub(crate) fn statement(words: &mut Words<'_>, plan: &Plan) -> Result<Repeated<TrioEvent>, Fault>
    ensures value { Takes words.new result (event_at plan.now words.old) }
    ensures few { IfOk result (λ said. said.times ≤ max_repeats) }
    ensures named { IfOk result (λ said. IsNamed plan.now said.event) }
{
    let first = words.word_or(Fault::Grammar)?;
    if is_word(first, "make") {
        return make(words);
    }
    if is_word(first, "work") {
        return work(words, plan);
    }
    if is_word(first, "take") {
        return take(words, plan);
    }
    if is_word(first, "kill") {
        return kill(words, plan);
    }
    if is_word(first, "pull") {
        return pull(words, plan);
    }
    Err(Fault::Grammar)
}
