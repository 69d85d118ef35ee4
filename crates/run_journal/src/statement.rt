// What a line after the first one says: an event, and how often it happens.
ghost use Rattle.std.specs.Prelude.{◌≡◌, ◌≤◌, IfOk, true};
ghost use Rattle.tuple_edge.specs.declared.event.Event.TheVariants as event;
ghost use Rattle.run_journal.specs.Events.{ask_back_at, ask_stop_at, event_at, kill_at, last_replica_at, make_at, pull_at, take_at, work_at};
ghost use Rattle.text_words.specs.Reading.{Takes};
ghost use Rattle.plan_reader.specs.Nodes.{has_replica};
ghost use Rattle.run_journal.specs.Limits.{max_repeats};
ghost use Rattle.run_journal.specs.Text.{IsNamed};

use crate::words::{index, link, node, replica, target, times};
use crate::{Fault, Repeated, once};
use plan_reader::Plan;
use text_words::{Words, is_word};
use tuple_edge::{Event, NodeId};

// What follows `make`.
#[tactic(auto, unfolding(crate::specs::Events::make_at))]
fn make(words: &mut Words<'_>) -> Result<Repeated<Event>, Fault>
    ensures value { Takes words.new result (make_at words.old) }
    ensures few { IfOk result (λ said. said.times ≤ max_repeats) }
    ensures made { IfOk result (λ said. said.event ≡ event.Make) }
{
    let times = times(words)?;
    Ok(Repeated {
        event: Event::Make,
        times,
    })
}

// What follows `work`.
#[tactic(auto, unfolding(crate::specs::Events::work_at))]
fn work(words: &mut Words<'_>, plan: &Plan) -> Result<Repeated<Event>, Fault>
    ensures value { Takes words.new result (work_at plan.now words.old) }
    ensures few { IfOk result (λ said. said.times ≤ max_repeats) }
    ensures named { IfOk result (λ said. IsNamed plan.now said.event) }
{
    let node = node(words, plan)?;
    let times = times(words)?;
    Ok(Repeated {
        event: Event::Work { node },
        times,
    })
}

// What follows `take`.
#[tactic(auto, unfolding(crate::specs::Events::take_at))]
fn take(words: &mut Words<'_>, plan: &Plan) -> Result<Repeated<Event>, Fault>
    ensures value { Takes words.new result (take_at plan.now words.old) }
    ensures few { IfOk result (λ said. said.times ≤ max_repeats) }
    ensures named { IfOk result (λ said. IsNamed plan.now said.event) }
{
    let link = link(words, plan)?;
    let index = index(words)?;
    words.end_or(Fault::Grammar)?;
    Ok(once(Event::Take { link, index }))
}

// What follows `pull`.
#[tactic(auto, unfolding(crate::specs::Events::pull_at))]
fn pull(words: &mut Words<'_>, plan: &Plan) -> Result<Repeated<Event>, Fault>
    ensures value { Takes words.new result (pull_at plan.now words.old) }
    ensures few { IfOk result (λ said. said.times ≤ max_repeats) }
    ensures named { IfOk result (λ said. IsNamed plan.now said.event) }
{
    let from = node(words, plan)?;
    let to = target(words, plan, from)?;
    let times = times(words)?;
    Ok(Repeated {
        event: Event::Pull { from, to },
        times,
    })
}

// A replica, and no word after it.
#[tactic(auto, unfolding(crate::specs::Events::last_replica_at))]
fn last_replica(words: &mut Words<'_>, plan: &Plan) -> Result<NodeId, Fault>
    ensures value { Takes words.new result (last_replica_at plan.now words.old) }
    ensures there { IfOk result (λ n. has_replica plan.now n ≡ true) }
{
    let node = replica(words, plan)?;
    words.end_or(Fault::Grammar)?;
    Ok(node)
}

// What follows `kill`.
#[tactic(auto, unfolding(crate::specs::Events::kill_at))]
fn kill(words: &mut Words<'_>, plan: &Plan) -> Result<Repeated<Event>, Fault>
    ensures value { Takes words.new result (kill_at plan.now words.old) }
    ensures few { IfOk result (λ said. said.times ≤ max_repeats) }
    ensures named { IfOk result (λ said. IsNamed plan.now said.event) }
{
    let node = last_replica(words, plan)?;
    Ok(once(Event::Kill { node }))
}

// What follows `askstop`.
#[tactic(auto, unfolding(crate::specs::Events::ask_stop_at))]
fn ask_stop(words: &mut Words<'_>, plan: &Plan) -> Result<Repeated<Event>, Fault>
    ensures value { Takes words.new result (ask_stop_at plan.now words.old) }
    ensures few { IfOk result (λ said. said.times ≤ max_repeats) }
    ensures named { IfOk result (λ said. IsNamed plan.now said.event) }
{
    let node = last_replica(words, plan)?;
    Ok(once(Event::AskStop { node }))
}

// What follows `askback`.
#[tactic(auto, unfolding(crate::specs::Events::ask_back_at))]
fn ask_back(words: &mut Words<'_>, plan: &Plan) -> Result<Repeated<Event>, Fault>
    ensures value { Takes words.new result (ask_back_at plan.now words.old) }
    ensures few { IfOk result (λ said. said.times ≤ max_repeats) }
    ensures named { IfOk result (λ said. IsNamed plan.now said.event) }
{
    let node = last_replica(words, plan)?;
    Ok(once(Event::AskBack { node }))
}

// What a line after the first one says.
#[tactic(auto, unfolding(crate::specs::Events::event_at))]
pub(crate) fn statement(words: &mut Words<'_>, plan: &Plan) -> Result<Repeated<Event>, Fault>
    ensures value { Takes words.new result (event_at plan.now words.old) }
    ensures few { IfOk result (λ said. said.times ≤ max_repeats) }
    ensures named { IfOk result (λ said. IsNamed plan.now said.event) }
{
    let first = words.word_or(Fault::Grammar)?;
    if is_word(first, "make") {
        return make(words);
    }
    if is_word(first, "work") {
        return work(words, plan);
    }
    if is_word(first, "take") {
        return take(words, plan);
    }
    if is_word(first, "pull") {
        return pull(words, plan);
    }
    if is_word(first, "kill") {
        return kill(words, plan);
    }
    if is_word(first, "askstop") {
        return ask_stop(words, plan);
    }
    if is_word(first, "askback") {
        return ask_back(words, plan);
    }
    Err(Fault::Grammar)
}
