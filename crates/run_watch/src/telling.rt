// What happens at an event, by what is seen of its node before and after it.
ghost use Rattle.run_watch.specs.Happenings.{begun_again, happened, led, member, move_over, named, named_at, recalled, recalled_to, taken, worked};
ghost use Rattle.run_watch.specs.TraceView.{fall_in};
ghost use Rattle.run_watch.specs.declared.glimpse.Glimpse.TheVariants as glimpse;
ghost use Rattle.run_watch.specs.declared.glimpse.Moving.{Moving};
ghost use Rattle.std.specs.Prelude.{◌≡◌, ℕ, Bool, Option};

use crate::glimpse::{Glimpse, Known, Moving};
use crate::happening::{Fell, Happening};
use crate::trace::Fall;
use std::collections::BTreeMap;
use tuple_edge::{Event, NodeId, Which};

// A replica that runs took a message.
fn led(node: NodeId, before: u64, after: u64) -> Option<Happening>
    ensures { result ≡ led node before after }
{
    if before < after {
        Some(Happening::Leads { node, term: after })
    } else {
        None
    }
}

// A replica that gathers took a message, and gathers still.
fn begun_again(node: NodeId, before: u64, after: u64) -> Option<Happening>
    ensures { result ≡ begun_again node before after }
{
    if before < after {
        Some(Happening::Begun { node, inc: after })
    } else {
        None
    }
}

// A replica that ran took a message.
fn taken_running(node: NodeId, term: u64, after: &Glimpse) -> Option<Happening>
    ensures { (inc : ℕ) (leads : Bool) (moving : Option Moving) → result ≡ taken node (glimpse.Running inc leads term moving) after.now }
{
    match *after {
        Glimpse::Running { term: risen, .. } => led(node, term, risen),
        Glimpse::Gathering { inc, .. } => Some(Happening::Begun { node, inc }),
        Glimpse::Gone { inc } => Some(Happening::Stopped { node, inc }),
        Glimpse::Control { .. } | Glimpse::End => None,
    }
}

// A replica that gathered took a message.
fn taken_gathering(
    node: NodeId,
    began: u64,
    entries: u64,
    held: u64,
    after: &Glimpse,
) -> Option<Happening>
    ensures { result ≡ taken node (glimpse.Gathering began entries held) after.now }
{
    match *after {
        Glimpse::Running { inc, .. } => Some(Happening::CaughtUp {
            node,
            inc,
            entries,
            held,
        }),
        Glimpse::Gathering { inc, .. } => begun_again(node, began, inc),
        Glimpse::Gone { inc } => Some(Happening::Stopped { node, inc }),
        Glimpse::Control { .. } | Glimpse::End => None,
    }
}

// A replica that was gone took a message.
fn taken_gone(node: NodeId, after: &Glimpse) -> Option<Happening>
    ensures { (inc : ℕ) → result ≡ taken node (glimpse.Gone inc) after.now }
{
    match *after {
        Glimpse::Gathering { inc, .. } => Some(Happening::Begun { node, inc }),
        Glimpse::Running { .. } | Glimpse::Gone { .. } | Glimpse::Control { .. } | Glimpse::End =>
            None,
    }
}

// A node took a message.
fn taken(node: NodeId, before: &Glimpse, after: &Glimpse) -> Option<Happening>
    ensures { result ≡ taken node before.now after.now }
{
    match *before {
        Glimpse::Running { term, .. } => taken_running(node, term, after),
        Glimpse::Gathering { inc, taken, held } => taken_gathering(node, inc, taken, held, after),
        Glimpse::Gone { .. } => taken_gone(node, after),
        Glimpse::Control { .. } | Glimpse::End => None,
    }
}

// A move is over, or not.
fn move_over(node: NodeId, before: Option<Moving>, after: Option<Moving>) -> Option<Happening>
    ensures { result ≡ move_over node before after }
{
    match (before, after) {
        (Some(moving), None) => Some(Happening::Moved {
            node,
            target: moving.target,
            entries: moving.sent,
        }),
        _ => None,
    }
}

// A node did a piece of work.
fn worked(node: NodeId, before: &Glimpse, after: &Glimpse) -> Option<Happening>
    ensures { result ≡ worked node before.now after.now }
{
    match (*before, *after) {
        (Glimpse::Running { moving, .. }, Glimpse::Running { moving: still, .. }) => {
            move_over(node, moving, still)
        }
        _ => None,
    }
}

// What happens at the event's own node.
pub(crate) fn happened(event: &Event, before: &Glimpse, after: &Glimpse) -> Option<Happening>
    ensures { result ≡ happened event.now before.now after.now }
{
    match *event {
        Event::Take { link, .. } => taken(link.to, before, after),
        Event::Work { node } => worked(node, before, after),
        Event::Kill { node } => Some(Happening::Failed {
            node,
            inc: before.inc(),
        }),
        Event::AskStop { node } => Some(Happening::AskedStop {
            node,
            inc: before.inc(),
        }),
        Event::AskBack { node } => Some(Happening::AskedBack { node }),
        Event::Make | Event::Pull { .. } => None,
    }
}

// A replica of the pair whose controller a node is.
fn member(node: NodeId, which: Which) -> NodeId
    ensures { result ≡ member node which }
{
    match node {
        NodeId::Control { stage, part } => NodeId::Replica { stage, part, which },
        NodeId::Ingress | NodeId::Replica { .. } | NodeId::Egress => node,
    }
}

// Where a replica fell last, and how.
fn fall_of(falls: &BTreeMap<NodeId, Fall>, node: NodeId) -> Fall
    ensures { result ≡ fall_in falls.now node }
{
    falls.get(&node).copied().unwrap_or(Fall {
        place: 0,
        how: Fell::Never,
    })
}

// Who is named, so many events after the partner fell.
fn named_at(
    place: u64,
    falls: &BTreeMap<NodeId, Fall>,
    node: NodeId,
    term: u64,
    leader: Option<Which>,
) -> Option<Happening>
    ensures { result ≡ named_at place (fall_in falls.now) node term leader }
{
    let leader = member(node, leader?);
    let fall = fall_of(falls, leader.partner());
    Some(Happening::Named {
        node: leader,
        term,
        after: place.saturating_sub(fall.place),
        fell: fall.how,
    })
}

// A leader is named.
pub(crate) fn named(
    place: u64,
    falls: &BTreeMap<NodeId, Fall>,
    node: NodeId,
    before: &Glimpse,
    after: &Glimpse,
) -> Option<Happening>
    ensures { result ≡ named place (fall_in falls.now) node before.now after.now }
{
    match (*before, *after) {
        (
            Glimpse::Control { term, .. },
            Glimpse::Control {
                term: risen,
                leader,
                ..
            },
        ) if term < risen => named_at(place, falls, node, risen, leader),
        _ => None,
    }
}

// A replica is to begin in a later incarnation.
fn recalled_to(node: NodeId, before: &Known, after: &Known) -> Option<Happening>
    ensures { result ≡ recalled_to node before.now after.now }
{
    if before.inc < after.inc {
        Some(Happening::Recalled {
            node,
            inc: after.inc,
        })
    } else {
        None
    }
}

// A replica is brought back.
pub(crate) fn recalled(
    node: NodeId,
    which: Which,
    before: &Glimpse,
    after: &Glimpse,
) -> Option<Happening>
    ensures { result ≡ recalled node which before.now after.now }
{
    let (Some(known), Some(later)) = (before.known(which), after.known(which)) else {
        return None;
    };
    recalled_to(member(node, which), &known, &later)
}
