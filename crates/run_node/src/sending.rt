// What a node does with all its out-links.
ghost use Rattle.run_node.specs.Ends.{HaveRoom, links_of};
ghost use Rattle.run_node.specs.FirstLinks.{AreFirst, IsFirstTo, identity_to, receivers};
ghost use Rattle.run_node.specs.NodeView.{out_names};
ghost use Rattle.run_node.specs.Sends.{with_all_sent, with_sent, with_steps_sent};
ghost use Rattle.node_tasks.specs.Steps.{pieces};
ghost use Rattle.std.specs.Prelude.{◌≡◌, ◌<◌, ◌+◌, ◌*◌, ◌^◌, ℕ, MatchOption, None, OnOk, length};

use crate::out_end::OutEnd;
use crate::place_range::PlaceRange;
use flux_link::Outlet;
use node_tasks::Steps;
use tuple_edge::{NodeId, OutOfMemory, Outbox, Packet, Which};

/// Makes room for this many further packets on each link.
pub(crate) fn reserve_all<O: Outlet + Drop>(
    outs: &mut [OutEnd<O>],
    packets: usize,
) -> Result<(), OutOfMemory>
    ensures links { links_of outs.new ≡ links_of outs.old }
    ensures room { OnOk result (HaveRoom packets outs.new) }
{
    for place in 0..outs.len() {
        let end = &mut outs[place];
        end.reserve(packets)?;
    }
    Ok(())
}

/// Pushes what waits at these places, on each link as far as it has room, and gives a range with the places
/// where some still waits.
pub(crate) fn flush_all<O: Outlet + Drop>(outs: &mut [OutEnd<O>], waiting: PlaceRange) -> PlaceRange
    ensures links { links_of outs.new ≡ links_of outs.old }
    ensures room { (k : ℕ) → HaveRoom k outs.old → HaveRoom k outs.new }
{
    let mut left = PlaceRange::none();
    for place in waiting.first..waiting.beyond.min(outs.len()) {
        let end = &mut outs[place];
        end.flush();
        if end.waits() {
            left = left.with(place);
        }
    }
    left
}

/// Sends a packet to its receiver behind those that wait, and gives the place of its link where one waits then. Where no link
/// leads there, nothing changes. Its place is guessed from the last one, and else looked for from there on.
pub(crate) fn send<O: Outlet + Drop>(
    outs: &mut [OutEnd<O>],
    to: NodeId,
    packet: Packet,
    firsts: usize,
    near: &mut usize,
) -> Option<usize>
    requires room { HaveRoom 1 outs.old }
    requires firsts { AreFirst firsts (receivers (links_of outs.old)) }
    ensures links { links_of outs.new ≡ with_sent to packet (links_of outs.old) }
    ensures room { (k : ℕ) → HaveRoom (k + 1) outs.old → HaveRoom k outs.new }
{
    let place = place_near(outs, to, firsts, *near)?;
    *near = place;
    let end = &mut outs[place];
    end.put(packet);
    end.waits().then_some(place)
}

/// Puts all packets of an outbox on their links, in order, each with the clock, and adds the places where one
/// waits then to those where some wait.
pub(crate) fn send_all<O: Outlet + Drop>(
    outs: &mut [OutEnd<O>],
    outbox: &Outbox,
    clock: u64,
    firsts: usize,
    near: &mut usize,
    waiting: PlaceRange,
) -> PlaceRange
    requires room { HaveRoom (length outbox.now.packets) outs.old }
    requires firsts { AreFirst firsts (receivers (links_of outs.old)) }
    ensures links { links_of outs.new ≡ with_all_sent clock outbox.now.packets (links_of outs.old) }
    ensures room { (k : ℕ) → HaveRoom (k + length outbox.now.packets) outs.old → HaveRoom k outs.new }
{
    let mut waiting = waiting;
    for nth in 0..outbox.len() {
        let Some((to, body)) = outbox.get(nth) else {
            return waiting;
        };
        let packet = Packet { at: clock, body };
        if let Some(place) = send(outs, to, packet, firsts, near) {
            waiting = waiting.with(place);
        }
    }
    waiting
}

/// Puts the packets of steps on their links, in order, so many of each step with its clock. The clocks follow on this one.
/// Adds the places where one waits then to those where some wait.
pub(crate) fn send_steps<O: Outlet + Drop>(
    outs: &mut [OutEnd<O>],
    outbox: &Outbox,
    steps: Steps,
    clock: u64,
    firsts: usize,
    near: &mut usize,
    waiting: PlaceRange,
) -> PlaceRange
    requires whole { length outbox.now.packets ≡ steps.count * steps.each }
    requires clocks { clock + steps.count < 2 ^ 64 }
    requires room { HaveRoom (length outbox.now.packets) outs.old }
    requires firsts { AreFirst firsts (receivers (links_of outs.old)) }
    ensures links { links_of outs.new ≡ with_steps_sent clock (pieces steps.count steps.each outbox.now.packets) (links_of outs.old) }
    ensures room { (k : ℕ) → HaveRoom (k + length outbox.now.packets) outs.old → HaveRoom k outs.new }
{
    let mut waiting = waiting;
    let (mut at, mut left) = (clock, 0);
    for nth in 0..outbox.len() {
        if left == 0 {
            at += 1;
            left = steps.each;
        }
        left -= 1;
        let Some((to, body)) = outbox.get(nth) else {
            return waiting;
        };
        let packet = Packet { at, body };
        if let Some(place) = send(outs, to, packet, firsts, near) {
            waiting = waiting.with(place);
        }
    }
    waiting
}

/// The place of the first link to a node.
pub(crate) fn place_to<O: Outlet + Drop>(outs: &[OutEnd<O>], to: NodeId) -> Option<usize>
    ensures { MatchOption result (identity_to (out_names (links_of outs.now)) to ≡ None) (λ place. IsFirstTo outs.now to place) }
{
    for place in 0..outs.len() {
        let end = &outs[place];
        if end.leads_to(to) {
            return Some(place);
        }
    }
    None
}

// The place of the first link to a node. Each of so many links from the front on is the first one to its receiver, so
// that one which is found among them, as guessed or by a search that begins near it, needn't be compared with those before.
fn place_near<O: Outlet + Drop>(
    outs: &[OutEnd<O>],
    to: NodeId,
    firsts: usize,
    near: usize,
) -> Option<usize>
    requires { AreFirst firsts (receivers (links_of outs.now)) }
    ensures { MatchOption result (identity_to (out_names (links_of outs.now)) to ≡ None) (λ place. IsFirstTo outs.now to place) }
{
    let guess = guessed(outs, to, near);
    if guess < firsts.min(outs.len()) {
        let end = &outs[guess];
        if end.leads_to(to) {
            return Some(guess);
        }
    }
    for place in near..firsts.min(outs.len()) {
        let end = &outs[place];
        if end.leads_to(to) {
            return Some(place);
        }
    }
    place_to(outs, to)
}

// Where the link to a node may be, by the link near it: those to the replicas of a stage stand one behind another. Whether it
// leads there is still to be compared.
fn guessed<O: Outlet + Drop>(outs: &[OutEnd<O>], to: NodeId, near: usize) -> usize {
    let Some(end) = outs.get(near) else {
        return near;
    };
    match (rank(end.to()), rank(to)) {
        (Some(last), Some(next)) => near.wrapping_add(next).wrapping_sub(last),
        _ => near,
    }
}

// How many replicas of its stage stand before a replica.
fn rank(node: NodeId) -> Option<usize> {
    match node {
        NodeId::Replica { part, which, .. } => {
            let pairs = part as usize;
            match which {
                Which::A => Some(2 * pairs),
                Which::B => Some(2 * pairs + 1),
            }
        }
        NodeId::Ingress | NodeId::Control { .. } | NodeId::Egress => None,
    }
}

/// How many links from the front on are each the first one to its receiver.
pub(crate) fn count_firsts<O: Outlet + Drop>(outs: &[OutEnd<O>]) -> usize
    ensures { AreFirst result (receivers (links_of outs.now)) }
{
    for place in 0..outs.len() {
        let end = &outs[place];
        let Some(first) = place_to(outs, end.to()) else {
            return place;
        };
        if first != place {
            return place;
        }
    }
    outs.len()
}
