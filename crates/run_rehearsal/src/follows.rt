// The lines of takeovers and catch-ups.
ghost use Rattle.run_rehearsal.specs.RehearsalText.{amount_text, begins_text, catch_up_line, caught_text, follow_line, follow_text, heard_text, many_text, moved_text, span_text, takeover_line, takes_text};
ghost use Rattle.std.specs.List.{flat_map};
ghost use Rattle.std.specs.Prelude.{◌≡◌, ◌++◌, None, OnOk, Some, string_bytes};

use crate::fates::{caught_up_at, fell_at, led_at};
use run_journal::push_node;
use run_watch::{Happening, Told};
use tuple_edge::{NodeId, OutOfMemory};

// Appends so many events and rows.
fn push_many(text: &mut String, events: u64, rows: u64) -> Result<(), OutOfMemory>
    ensures { OnOk result (string_bytes text.new ≡ string_bytes text.old ++ many_text events rows) }
{
    write!(text, "{events} events and {rows} rows")?;
    Ok(())
}

// Appends how many events and rows lie between two things that are told.
fn push_span(text: &mut String, start: &Told, end: &Told) -> Result<(), OutOfMemory>
    ensures { OnOk result (string_bytes text.new ≡ string_bytes text.old ++ span_text start.now end.now) }
{
    let events = end.place.saturating_sub(start.place);
    let rows = end.emitted.saturating_sub(start.emitted);
    push_many(text, events, rows)
}

// Appends from which event on one leads.
fn push_lead(text: &mut String, led: &Told) -> Result<(), OutOfMemory>
    ensures { OnOk result (string_bytes text.new ≡ string_bytes text.old ++ heard_text None (Some led.now)) }
{
    let place = led.place;
    write!(text, ", leads from event {place}")?;
    Ok(())
}

// Appends the same, and how long that took since its partner fell.
fn push_lead_after(text: &mut String, fell: &Told, led: &Told) -> Result<(), OutOfMemory>
    ensures { OnOk result (string_bytes text.new ≡ string_bytes text.old ++ heard_text (Some fell.now) (Some led.now)) }
{
    push_lead(text, led)?;
    text.push_str(", ")?;
    push_span(text, fell, led)?;
    text.push_str(" after the fall")?;
    Ok(())
}

// Appends when one that was named leads.
fn push_heard(text: &mut String, fell: Option<Told>, led: Option<Told>) -> Result<(), OutOfMemory>
    ensures { OnOk result (string_bytes text.new ≡ string_bytes text.old ++ heard_text fell led) }
{
    match (led, fell) {
        (None, _) => {
            text.push_str(", and has not heard of it")?;
            Ok(())
        }
        (Some(led), None) => push_lead(text, &led),
        (Some(led), Some(fell)) => push_lead_after(text, &fell, &led),
    }
}

// Appends who takes over from whom.
fn push_takes(text: &mut String, node: NodeId, place: u64) -> Result<(), OutOfMemory>
    ensures { OnOk result (string_bytes text.new ≡ string_bytes text.old ++ takes_text node place) }
{
    push_node(text, node)?;
    text.push_str(" takes over from ")?;
    push_node(text, node.partner())?;
    write!(text, ": named at event {place}")?;
    Ok(())
}

// Appends the line of a takeover.
fn push_takeover(
    text: &mut String,
    told: &[Told],
    named: &Told,
    node: NodeId,
    term: u64,
) -> Result<(), OutOfMemory>
    ensures { OnOk result (string_bytes text.new ≡ string_bytes text.old ++ takeover_line told.now named.now node term) }
{
    push_takes(text, node, named.place)?;
    push_heard(
        text,
        fell_at(told, node.partner()),
        led_at(told, node, term),
    )?;
    text.push_str("\n")?;
    Ok(())
}

// Appends that so much was moved and held.
fn push_moved(text: &mut String, entries: u64, held: u64) -> Result<(), OutOfMemory>
    ensures { OnOk result (string_bytes text.new ≡ string_bytes text.old ++ moved_text entries held) }
{
    write!(text, ", {entries} entries moved, {held} items held")?;
    Ok(())
}

// Appends how much was moved and held of a catch-up.
fn push_amount(text: &mut String, happening: &Happening) -> Result<(), OutOfMemory>
    ensures { OnOk result (string_bytes text.new ≡ string_bytes text.old ++ amount_text happening.now) }
{
    match *happening {
        Happening::CaughtUp { entries, held, .. } => push_moved(text, entries, held),
        _ => Ok(()),
    }
}

// Appends when one that began has caught up.
fn push_done(text: &mut String, began: &Told, caught: &Told) -> Result<(), OutOfMemory>
    ensures { OnOk result (string_bytes text.new ≡ string_bytes text.old ++ caught_text began.now (Some caught.now)) }
{
    let place = caught.place;
    write!(text, ", done at event {place}, ")?;
    push_span(text, began, caught)?;
    text.push_str(" later")?;
    push_amount(text, &caught.happening)
}

// Appends when one that began has caught up, if it has.
fn push_caught(text: &mut String, began: &Told, caught: Option<Told>) -> Result<(), OutOfMemory>
    ensures { OnOk result (string_bytes text.new ≡ string_bytes text.old ++ caught_text began.now caught) }
{
    match caught {
        None => {
            text.push_str(", and has not caught up")?;
            Ok(())
        }
        Some(caught) => push_done(text, began, &caught),
    }
}

// Appends who catches up, and where it began.
fn push_begins(text: &mut String, node: NodeId, place: u64) -> Result<(), OutOfMemory>
    ensures { OnOk result (string_bytes text.new ≡ string_bytes text.old ++ begins_text node place) }
{
    push_node(text, node)?;
    write!(text, " catches up: begun at event {place}")?;
    Ok(())
}

// Appends the line of a catch-up.
fn push_catch_up(
    text: &mut String,
    told: &[Told],
    began: &Told,
    node: NodeId,
    inc: u64,
) -> Result<(), OutOfMemory>
    ensures { OnOk result (string_bytes text.new ≡ string_bytes text.old ++ catch_up_line told.now began.now node inc) }
{
    push_begins(text, node, began.place)?;
    push_caught(text, began, caught_up_at(told, node, inc))?;
    text.push_str("\n")?;
    Ok(())
}

// Appends the line of a takeover or a catch-up, where such a happening begins one.
fn push_follow_line(
    text: &mut String,
    told: &[Told],
    happened: &Told,
    happening: &Happening,
) -> Result<(), OutOfMemory>
    ensures { OnOk result (string_bytes text.new ≡ string_bytes text.old ++ follow_line told.now happened.now happening.now) }
{
    match *happening {
        Happening::Named { node, term, .. } => push_takeover(text, told, happened, node, term),
        Happening::Begun { node, inc } => push_catch_up(text, told, happened, node, inc),
        _ => Ok(()),
    }
}

// Appends the line of a takeover or a catch-up, where one begins.
fn push_follow(text: &mut String, told: &[Told], happened: &Told) -> Result<(), OutOfMemory>
    ensures { OnOk result (string_bytes text.new ≡ string_bytes text.old ++ follow_text told.now happened.now) }
{
    push_follow_line(text, told, happened, &happened.happening)
}

/// Appends the lines of all takeovers and catch-ups.
pub(crate) fn push_follows(text: &mut String, told: &[Told]) -> Result<(), OutOfMemory>
    ensures { OnOk result (string_bytes text.new ≡ string_bytes text.old ++ flat_map (follow_text told.now) told.now) }
{
    for happened in told {
        push_follow(text, told, happened)?;
    }
    Ok(())
}
