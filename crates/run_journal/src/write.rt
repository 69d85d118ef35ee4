// The canonical text of events.
ghost use Rattle.std.specs.Prelude.{List, ◌≡◌, ◌∷◌, ◌++◌, [], IfOk, Ok, OnOk, codes, string_bytes};
ghost use Rattle.std.specs.Fmt.{decimal};
ghost use Rattle.std.specs.List.{flat_map};
ghost use Rattle.tuple_edge.specs.declared.event.Event.{Event as NodeEvent};
ghost use Rattle.text_words.specs.Text.{line_text};
ghost use Rattle.plan_reader.specs.PlanView.{IsPlan, PlanView};
ghost use Rattle.run_journal.specs.Events.{events_of};
ghost use Rattle.run_journal.specs.Text.{AreSayable, event_words, events_text, lined_from, link_name, node_name};

use crate::name_text::push_node;
use std::alloc::Global;
use tuple_edge::{Event, LinkId, NodeId, OutOfMemory};

// Appends the line of a word and a node.
fn push_at_node(text: &mut String, word: &str, node: NodeId) -> Result<(), OutOfMemory>
    ensures { OnOk result (string_bytes text.new ≡ string_bytes text.old ++ line_text (word.now ∷ node_name node ∷ [])) }
{
    write!(text, "{word} ")?;
    push_node(text, node)?;
    text.push_str("\n")?;
    Ok(())
}

// Appends the line of a packet that is taken.
fn push_take(text: &mut String, link: LinkId, index: u64) -> Result<(), OutOfMemory>
    ensures { OnOk result (string_bytes text.new ≡ string_bytes text.old ++ line_text (codes "take" ∷ link_name link ∷ decimal index ∷ [])) }
{
    text.push_str("take ")?;
    push_node(text, link.from)?;
    text.push_str(">")?;
    push_node(text, link.to)?;
    write!(text, " {index}\n")?;
    Ok(())
}

// Appends the line of a pull.
fn push_pull(text: &mut String, from: NodeId, to: NodeId) -> Result<(), OutOfMemory>
    ensures { OnOk result (string_bytes text.new ≡ string_bytes text.old ++ line_text (codes "pull" ∷ node_name from ∷ node_name to ∷ [])) }
{
    text.push_str("pull ")?;
    push_node(text, from)?;
    text.push_str(" ")?;
    push_node(text, to)?;
    text.push_str("\n")?;
    Ok(())
}

/// Appends the line of an event.
pub fn push_event(text: &mut String, event: Event) -> Result<(), OutOfMemory>
    ensures { OnOk result (string_bytes text.new ≡ string_bytes text.old ++ line_text (event_words event)) }
{
    match event {
        Event::Take { link, index } => push_take(text, link, index),
        Event::Work { node } => push_at_node(text, "work", node),
        Event::Make => {
            text.push_str("make\n")?;
            Ok(())
        }
        Event::Kill { node } => push_at_node(text, "kill", node),
        Event::AskStop { node } => push_at_node(text, "askstop", node),
        Event::AskBack { node } => push_at_node(text, "askback", node),
        Event::Pull { from, to } => push_pull(text, from, to),
    }
}

// Appends the lines of events.
fn push_events(text: &mut String, events: &[Event]) -> Result<(), OutOfMemory>
    ensures { OnOk result (string_bytes text.new ≡ string_bytes text.old ++ flat_map (λ e. line_text (event_words e)) events.now) }
{
    for event in events {
        push_event(text, *event)?;
    }
    Ok(())
}

/// The beginning of a text of events, before the line of the first one.
#[tactic(auto, unfolding(crate::specs::Text::events_text))]
pub fn begin_events(alloc: Global) -> Result<String, OutOfMemory>
    ensures { IfOk result (λ text. string_bytes text ≡ events_text []) }
{
    let mut text = String::new(alloc);
    text.push_str("events 1\n")?;
    Ok(text)
}

// The canonical text of events.
#[tactic(auto, unfolding(crate::specs::Text::events_text))]
fn text_of(alloc: Global, events: &[Event]) -> Result<String, OutOfMemory>
    ensures { IfOk result (λ text. string_bytes text ≡ events_text events.now) }
{
    let mut text = begin_events(alloc)?;
    push_events(&mut text, events)?;
    Ok(text)
}

/// The canonical text of events: the fixed line, and each event in a line of its own, with single
/// spaces. Every plan that has what the events name reads it back as the events, where they and the
/// text are within their limits.
#[tactic(auto, using(crate::proofs::CanonicalText::events_text_reads_back))]
pub fn write_events(alloc: Global, events: &[Event]) -> Result<Vec<u8>, OutOfMemory>
    ensures text { IfOk result (λ text. text.items ≡ events_text events.now) }
    ensures reads_back { IfOk result (λ text. (plan : PlanView) → IsPlan plan → AreSayable plan events.now → events_of plan text.items ≡ Ok (lined_from 2 events.now)) }
{
    let text = text_of(alloc, events)?;
    Ok(text.into_bytes())
}

/// A law: the canonical text of events reads back as the events.
#[tactic(auto, using(crate::proofs::CanonicalText::events_text_reads_back))]
pub fn canonical_text_reads_back()
    ensures { (plan : PlanView) (events : List NodeEvent) → IsPlan plan → AreSayable plan events → events_of plan (events_text events) ≡ Ok (lined_from 2 events) }
{}
