// The line of what is told.
ghost use Rattle.look_json.specs.Happenings.{lead_data, place_data, state_data, told_data, told_line, what_data};
ghost use Rattle.serde_json.specs.View.{view};
ghost use Rattle.std.specs.List.{flat_map};
ghost use Rattle.std.specs.Prelude.{◌≡◌, ◌++◌, IfOk, OnOk};

use crate::line::{number_or_null, push_line, word_or_null};
use crate::parts::{after_of, entries_of, held_of, incarnation_of, partner_of, term_of, whose};
use run_timeline::name_of;
use run_watch::{Happening, Told};
use serde_json::{Value, json};
use std::alloc::Global;
use tuple_edge::OutOfMemory;

// Where something happened, as a value.
fn place_value(alloc: Global, told: &Told) -> Result<Value, OutOfMemory>
    ensures { IfOk result (λ value. view value ≡ place_data told.now) }
{
    let value = json!(in alloc; {
        "event": told.place,
        "in": told.made,
        "line": told.line,
        "out": told.emitted
    })?;
    Ok(value)
}

// Who leads, as a value.
fn lead_value(alloc: Global, happening: Happening) -> Result<Value, OutOfMemory>
    ensures { IfOk result (λ value. view value ≡ lead_data happening) }
{
    let after = number_or_null(after_of(happening));
    let partner = word_or_null(alloc, partner_of(happening))?;
    let term = number_or_null(term_of(happening));
    let value = json!(in alloc; {"after": &after, "partner": &partner, "term": &term})?;
    Ok(value)
}

// The state that is moved, as a value.
fn state_value(alloc: Global, happening: Happening) -> Result<Value, OutOfMemory>
    ensures { IfOk result (λ value. view value ≡ state_data happening) }
{
    let entries = number_or_null(entries_of(happening));
    let held = number_or_null(held_of(happening));
    let incarnation = number_or_null(incarnation_of(happening));
    let value = json!(in alloc; {
        "entries": &entries,
        "held": &held,
        "incarnation": &incarnation
    })?;
    Ok(value)
}

// What happened, as a value, and to which replica or pair.
fn what_value(alloc: Global, happening: Happening) -> Result<Value, OutOfMemory>
    ensures { IfOk result (λ value. view value ≡ what_data happening) }
{
    let node = whose(alloc, happening)?;
    let value = json!(in alloc; {"happening": name_of(happening), "node": &node})?;
    Ok(value)
}

// What is told, as a value.
fn told_value(alloc: Global, told: &Told) -> Result<Value, OutOfMemory>
    ensures { IfOk result (λ value. view value ≡ told_data told.now) }
{
    let at = place_value(alloc, told)?;
    let lead = lead_value(alloc, told.happening)?;
    let state = state_value(alloc, told.happening)?;
    let what = what_value(alloc, told.happening)?;
    let value = json!(in alloc; {
        "at": &at,
        "lead": &lead,
        "state": &state,
        "what": &what
    })?;
    Ok(value)
}

// Appends the line of what is told.
#[tactic(auto, using(crate::proofs::Floats::told_has_none), unfolding(crate::specs::Happenings::told_line))]
fn push_one(text: &mut Vec<u8>, alloc: Global, told: &Told) -> Result<(), OutOfMemory>
    ensures { OnOk result (text.new.items ≡ text.old.items ++ told_line told.now) }
{
    let value = told_value(alloc, told)?;
    push_line(text, alloc, &value)
}

// Appends the lines of what was told.
pub(crate) fn push_told(text: &mut Vec<u8>, alloc: Global, told: &[Told]) -> Result<(), OutOfMemory>
    ensures { OnOk result (text.new.items ≡ text.old.items ++ flat_map told_line told.now) }
{
    for happened in told {
        push_one(text, alloc, happened)?;
    }
    Ok(())
}
