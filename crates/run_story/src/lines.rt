// The lines of what happened.
ghost use Rattle.run_journal.specs.Text.{node_name};
ghost use Rattle.run_story.specs.StoryText.{caught_up_text, fell_text, happening_text, incarnation_text, moved_text, named_text, pair_text, place_text, told_line};
ghost use Rattle.std.specs.Fmt.{decimal};
ghost use Rattle.std.specs.List.{flat_map};
ghost use Rattle.std.specs.Prelude.{◌≡◌, ◌++◌, OnOk, codes, string_bytes};

use run_journal::push_node;
use run_watch::{Fell, Happening, Told};
use tuple_edge::{NodeId, OutOfMemory};

// Appends something of a node in an incarnation.
fn push_incarnation(
    text: &mut String,
    node: NodeId,
    words: &str,
    inc: u64,
) -> Result<(), OutOfMemory>
    ensures { OnOk result (string_bytes text.new ≡ string_bytes text.old ++ incarnation_text node words.now inc) }
{
    push_node(text, node)?;
    write!(text, " {words} in incarnation {inc}")?;
    Ok(())
}

// Appends something of a pair.
fn push_pair(text: &mut String, stage: u32, part: u32, words: &str) -> Result<(), OutOfMemory>
    ensures { OnOk result (string_bytes text.new ≡ string_bytes text.old ++ pair_text stage part words.now) }
{
    write!(text, "pair {stage}.{part} {words}")?;
    Ok(())
}

// Appends how long ago a partner fell, and how.
fn push_fell(text: &mut String, fell: Fell, after: u64) -> Result<(), OutOfMemory>
    ensures { OnOk result (string_bytes text.new ≡ string_bytes text.old ++ fell_text fell after) }
{
    match fell {
        Fell::Never => {}
        Fell::Failed => {
            write!(text, ", {after} events after its partner failed")?;
        }
        Fell::AskedStop => {
            write!(
                text,
                ", {after} events after its partner asked to be stopped"
            )?;
        }
    }
    Ok(())
}

// Appends who is named leader.
fn push_named(
    text: &mut String,
    node: NodeId,
    term: u64,
    after: u64,
    fell: Fell,
) -> Result<(), OutOfMemory>
    ensures { OnOk result (string_bytes text.new ≡ string_bytes text.old ++ named_text node term after fell) }
{
    push_node(text, node)?;
    write!(text, " is named leader in term {term}")?;
    push_fell(text, fell, after)?;
    Ok(())
}

// Appends who leads.
fn push_leads(text: &mut String, node: NodeId, term: u64) -> Result<(), OutOfMemory>
    ensures { OnOk result (string_bytes text.new ≡ string_bytes text.old ++ (node_name node ++ codes " leads in term " ++ decimal term)) }
{
    push_node(text, node)?;
    write!(text, " leads in term {term}")?;
    Ok(())
}

// Appends who is asked back.
fn push_asked_back(text: &mut String, node: NodeId) -> Result<(), OutOfMemory>
    ensures { OnOk result (string_bytes text.new ≡ string_bytes text.old ++ (node_name node ++ codes " is asked back by its partner")) }
{
    push_node(text, node)?;
    text.push_str(" is asked back by its partner")?;
    Ok(())
}

// Appends whose state was sent.
fn push_moved(text: &mut String, node: NodeId, target: u64, entries: u64) -> Result<(), OutOfMemory>
    ensures { OnOk result (string_bytes text.new ≡ string_bytes text.old ++ moved_text node target entries) }
{
    push_node(text, node)?;
    write!(
        text,
        " has sent its state to its partner in incarnation {target}"
    )?;
    write!(text, ", {entries} entries")?;
    Ok(())
}

// Appends who has caught up.
fn push_caught_up(
    text: &mut String,
    node: NodeId,
    inc: u64,
    entries: u64,
    held: u64,
) -> Result<(), OutOfMemory>
    ensures { OnOk result (string_bytes text.new ≡ string_bytes text.old ++ caught_up_text node inc entries held) }
{
    push_incarnation(text, node, "has caught up", inc)?;
    write!(text, ", {entries} entries, {held} items held meanwhile")?;
    Ok(())
}

// Appends a happening in words.
fn push_happening(text: &mut String, happening: &Happening) -> Result<(), OutOfMemory>
    ensures { OnOk result (string_bytes text.new ≡ string_bytes text.old ++ happening_text happening.now) }
{
    match *happening {
        Happening::Failed { node, inc } => push_incarnation(text, node, "failed", inc),
        Happening::Stopped { node, inc } => push_incarnation(text, node, "stopped", inc),
        Happening::AskedStop { node, inc } => {
            push_incarnation(text, node, "asks to be stopped", inc)
        }
        Happening::AskedBack { node } => push_asked_back(text, node),
        Happening::Named {
            node,
            term,
            after,
            fell,
        } => push_named(text, node, term, after, fell),
        Happening::Leads { node, term } => push_leads(text, node, term),
        Happening::Recalled { node, inc } => push_incarnation(text, node, "is to begin", inc),
        Happening::Begun { node, inc } => push_incarnation(text, node, "begins", inc),
        Happening::Moved {
            node,
            target,
            entries,
        } => push_moved(text, node, target, entries),
        Happening::CaughtUp {
            node,
            inc,
            entries,
            held,
        } => push_caught_up(text, node, inc, entries, held),
        Happening::Lost { stage, part } => push_pair(text, stage, part, "is lost"),
        Happening::Regained { stage, part } => push_pair(text, stage, part, "serves again"),
    }
}

// Appends where it happened.
fn push_place(text: &mut String, told: &Told) -> Result<(), OutOfMemory>
    ensures { OnOk result (string_bytes text.new ≡ string_bytes text.old ++ place_text told.now) }
{
    let (place, line) = (told.place, told.line);
    let (made, emitted) = (told.made, told.emitted);
    write!(text, "event {place} line {line}")?;
    write!(text, " in {made} out {emitted}: ")?;
    Ok(())
}

// Appends a happening's line.
fn push_line(text: &mut String, told: &Told) -> Result<(), OutOfMemory>
    ensures { OnOk result (string_bytes text.new ≡ string_bytes text.old ++ told_line told.now) }
{
    push_place(text, told)?;
    push_happening(text, &told.happening)?;
    text.push_str("\n")?;
    Ok(())
}

// Appends the lines of what was told.
pub(crate) fn push_told(text: &mut String, told: &[Told]) -> Result<(), OutOfMemory>
    ensures { OnOk result (string_bytes text.new ≡ string_bytes text.old ++ flat_map told_line told.now) }
{
    for happened in told {
        push_line(text, happened)?;
    }
    Ok(())
}
