// The parts of a happening.
ghost use Rattle.look_json.specs.Happenings.{after_fall, after_of, entries_of, fell_word, held_of, incarnation_of, pair_name, partner_of, term_of, whose};
ghost use Rattle.run_journal.specs.Text.{node_name};
ghost use Rattle.std.specs.Prelude.{◌≡◌, IfOk, option_map, string_bytes};

use run_journal::push_node;
use run_watch::{Fell, Happening};
use std::alloc::Global;
use tuple_edge::{NodeId, OutOfMemory};

// The name of a pair.
pub(crate) fn pair_name(alloc: Global, stage: u32, part: u32) -> Result<String, OutOfMemory>
    ensures { IfOk result (λ name. string_bytes name ≡ pair_name stage part) }
{
    let mut name = String::new(alloc);
    write!(name, "{stage}.{part}")?;
    Ok(name)
}

// The name of a node.
pub(crate) fn name_of_node(alloc: Global, node: NodeId) -> Result<String, OutOfMemory>
    ensures { IfOk result (λ name. string_bytes name ≡ node_name node) }
{
    let mut name = String::new(alloc);
    push_node(&mut name, node)?;
    Ok(name)
}

// The name of the replica or of the pair to which something happened.
pub(crate) fn whose(alloc: Global, happening: Happening) -> Result<String, OutOfMemory>
    ensures { IfOk result (λ name. string_bytes name ≡ whose happening) }
{
    match happening {
        Happening::Failed { node, .. }
        | Happening::Stopped { node, .. }
        | Happening::AskedStop { node, .. }
        | Happening::AskedBack { node }
        | Happening::Named { node, .. }
        | Happening::Leads { node, .. }
        | Happening::Recalled { node, .. }
        | Happening::Begun { node, .. }
        | Happening::Moved { node, .. }
        | Happening::CaughtUp { node, .. } => name_of_node(alloc, node),
        Happening::Lost { stage, part } | Happening::Regained { stage, part } => {
            pair_name(alloc, stage, part)
        }
    }
}

// The incarnation that a happening speaks of.
pub(crate) fn incarnation_of(happening: Happening) -> Option<u64>
    ensures { result ≡ incarnation_of happening }
{
    match happening {
        Happening::Failed { inc, .. }
        | Happening::Stopped { inc, .. }
        | Happening::AskedStop { inc, .. }
        | Happening::Recalled { inc, .. }
        | Happening::Begun { inc, .. }
        | Happening::CaughtUp { inc, .. } => Some(inc),
        Happening::Moved { target, .. } => Some(target),
        Happening::AskedBack { .. }
        | Happening::Named { .. }
        | Happening::Leads { .. }
        | Happening::Lost { .. }
        | Happening::Regained { .. } => None,
    }
}

// The term in which a leader is named or leads.
pub(crate) fn term_of(happening: Happening) -> Option<u64>
    ensures { result ≡ term_of happening }
{
    match happening {
        Happening::Named { term, .. } | Happening::Leads { term, .. } => Some(term),
        _ => None,
    }
}

// How many events it comes after a fall.
fn after_fall(fell: Fell, after: u64) -> Option<u64>
    ensures { result ≡ after_fall fell after }
{
    match fell {
        Fell::Never => None,
        Fell::Failed | Fell::AskedStop => Some(after),
    }
}

// How many events a leader is named after its partner fell.
pub(crate) fn after_of(happening: Happening) -> Option<u64>
    ensures { result ≡ after_of happening }
{
    match happening {
        Happening::Named { after, fell, .. } => after_fall(fell, after),
        _ => None,
    }
}

// How a partner fell, in the words of the story.
fn fell_word(fell: Fell) -> Option<&'static str>
    ensures { option_map (λ w. w.now) result ≡ fell_word fell }
{
    match fell {
        Fell::Never => None,
        Fell::Failed => Some("failed"),
        Fell::AskedStop => Some("asked to be stopped"),
    }
}

// How the partner of a named leader fell.
pub(crate) fn partner_of(happening: Happening) -> Option<&'static str>
    ensures { option_map (λ w. w.now) result ≡ partner_of happening }
{
    match happening {
        Happening::Named { fell, .. } => fell_word(fell),
        _ => None,
    }
}

// How many entries of state were sent, or taken.
pub(crate) fn entries_of(happening: Happening) -> Option<u64>
    ensures { result ≡ entries_of happening }
{
    match happening {
        Happening::Moved { entries, .. } | Happening::CaughtUp { entries, .. } => Some(entries),
        _ => None,
    }
}

// How many items were held meanwhile.
pub(crate) fn held_of(happening: Happening) -> Option<u64>
    ensures { result ≡ held_of happening }
{
    match happening {
        Happening::CaughtUp { held, .. } => Some(held),
        _ => None,
    }
}
