// Whether a pair is lost at an event, or serves again.
ghost use Rattle.flux_core.specs.CoreView.{flow_in};
ghost use Rattle.flux_core.specs.Stands.{StandsFor};
ghost use Rattle.pair_machine.specs.Machine.{State};
ghost use Rattle.plan_reader.specs.Nodes.{has_node, has_pair};
ghost use Rattle.run_watch.specs.Glimpses.{glimpse_of};
ghost use Rattle.run_watch.specs.Happenings.{loss, pair_loss};
ghost use Rattle.run_watch.specs.Looks.{runs_as};
ghost use Rattle.run_watch.specs.Pairs.{DifferAt, counted_as, in_order, knows_both, lost_by};
ghost use Rattle.std.specs.Prelude.{◌≡◌, IsTrue};
ghost use Rattle.tuple_edge.specs.declared.node.NodeId.TheVariants as node;

use crate::glimpse::{Glimpse, Known};
use crate::happening::Happening;
use crate::looking::{known, runs};
use flux_core::Core;
use tuple_edge::{NodeId, Status, Which};

// A pair is lost from here on, or serves again.
fn loss(stage: u32, part: u32, before: bool, after: bool) -> Option<Happening>
    ensures { result ≡ loss stage part before after }
{
    match (before, after) {
        (false, true) => Some(Happening::Lost { stage, part }),
        (true, false) => Some(Happening::Regained { stage, part }),
        (false, false) | (true, true) => None,
    }
}

// Whether a controller counts a replica that runs in this incarnation.
fn counted(known: &Known, runs: Option<u64>) -> bool
    ensures { result ≡ counted_as known.now runs }
{
    match runs {
        Some(inc) => known.status != Status::Down && inc == known.inc,
        None => false,
    }
}

// Whether neither replica of a pair runs and is counted.
fn is_lost(a: &Known, b: &Known, runs_a: Option<u64>, runs_b: Option<u64>) -> bool
    ensures { result ≡ lost_by a.now b.now runs_a runs_b }
{
    !counted(a, runs_a) && !counted(b, runs_b)
}

// The same, by the incarnations of a replica and its partner.
fn is_lost_by(which: Which, a: &Known, b: &Known, own: Option<u64>, partner: Option<u64>) -> bool
    ensures { result ≡ in_order which (lost_by a.now b.now) own partner }
{
    match which {
        Which::A => is_lost(a, b, own, partner),
        Which::B => is_lost(a, b, partner, own),
    }
}

// What comes to a pair by a change of a replica.
fn loss_at_replica(
    core: &Core,
    stage: u32,
    part: u32,
    which: Which,
    before: &Glimpse,
    after: &Glimpse,
) -> Option<Happening>
    requires { IsTrue (has_pair core.now.plan stage part) }
    ensures { (s t : State) → StandsFor core.now t → DifferAt (node.Replica stage part which) s t
        → before.now ≡ glimpse_of (flow_in core.now) s (node.Replica stage part which)
        → after.now ≡ glimpse_of (flow_in core.now) t (node.Replica stage part which)
        → result ≡ pair_loss (node.Replica stage part which) s t }
{
    let control = core.control(stage, part);
    let a = known(control, Which::A);
    let b = known(control, Which::B);
    let partner = runs(core, stage, part, which.other());
    let was_lost = is_lost_by(which, &a, &b, before.runs_as(), partner);
    let now_lost = is_lost_by(which, &a, &b, after.runs_as(), partner);
    loss(stage, part, was_lost, now_lost)
}

// What a controller knows of both replicas.
fn both(control: &Glimpse) -> Option<(Known, Known)>
    ensures { result ≡ knows_both control.now }
{
    match *control {
        Glimpse::Control { a, b, .. } => Some((a, b)),
        Glimpse::Running { .. } | Glimpse::Gathering { .. } | Glimpse::Gone { .. } | Glimpse::End =>
            None,
    }
}

// What comes to a pair by a change of its controller.
fn loss_at_control(
    core: &Core,
    stage: u32,
    part: u32,
    before: &Glimpse,
    after: &Glimpse,
) -> Option<Happening>
    requires { IsTrue (has_pair core.now.plan stage part) }
    ensures { (s t : State) → StandsFor core.now t → DifferAt (node.Control stage part) s t
        → before.now ≡ glimpse_of (flow_in core.now) s (node.Control stage part)
        → after.now ≡ glimpse_of (flow_in core.now) t (node.Control stage part)
        → result ≡ pair_loss (node.Control stage part) s t }
{
    let runs_a = runs(core, stage, part, Which::A);
    let runs_b = runs(core, stage, part, Which::B);
    let (Some((a, b)), Some((next_a, next_b))) = (both(before), both(after)) else {
        return None;
    };
    let was_lost = is_lost(&a, &b, runs_a, runs_b);
    let now_lost = is_lost(&next_a, &next_b, runs_a, runs_b);
    loss(stage, part, was_lost, now_lost)
}

// Whether nothing else is seen of a node than before.
fn is_same(before: &Glimpse, after: &Glimpse) -> bool
    ensures { IsTrue result → before.now ≡ after.now }
{
    *before == *after
}

// What comes to the pair of a node by a change of that node.
pub(crate) fn pair_loss(
    core: &Core,
    node: NodeId,
    before: &Glimpse,
    after: &Glimpse,
) -> Option<Happening>
    requires { IsTrue (has_node core.now.plan node) }
    ensures { (s t : State) → StandsFor core.now t → DifferAt node s t → before.now ≡ glimpse_of (flow_in core.now) s node
        → after.now ≡ glimpse_of (flow_in core.now) t node → result ≡ pair_loss node s t }
{
    if is_same(before, after) {
        return None;
    }
    match node {
        NodeId::Replica { stage, part, which } => {
            loss_at_replica(core, stage, part, which, before, after)
        }
        NodeId::Control { stage, part } => loss_at_control(core, stage, part, before, after),
        NodeId::Ingress | NodeId::Egress => None,
    }
}
