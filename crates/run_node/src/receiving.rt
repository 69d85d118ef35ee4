// What a node does with all its in-links.
ghost use Rattle.flux_link.specs.declared.arrival.Arrival.{Arrival};
ghost use Rattle.run_node.specs.Ends.{InEndView, links_in};
ghost use Rattle.run_node.specs.Fits.{HasCome, HasNext, IsWaiting};
ghost use Rattle.std.specs.Prelude.{◌≡◌, ◌<◌, IfSome, Some, slice_get};

use crate::in_end::InEnd;
use crate::round::Round;
use flux_link::Inlet;

// The place, and behind the last one of the links the first.
fn wrapped(place: usize, links: usize) -> usize
    requires { 0 < links }
    ensures { result < links }
{
    if place < links { place } else { 0 }
}

/// The place of the first link of the round at which an arrival waits. The round then goes on from that link, and else it is over.
pub(crate) fn waiting_at<I: Inlet + Drop>(
    ins: &mut Vec<InEnd<I>>,
    round: &mut Round,
) -> Option<usize>
    ensures links { links_in ins.new.items ≡ links_in ins.old.items }
    ensures waits { IfSome result (λ place. IsWaiting ins.new.items place) }
{
    let count = ins.len();
    if count == 0 {
        return None;
    }
    let Round { next, left } = *round;
    let mut next = next;
    for looked in 0..left {
        let place = wrapped(next, count);
        if ins[place].look() {
            *round = Round {
                next: place,
                left: left - looked,
            };
            return Some(place);
        }
        next = place + 1;
    }
    round.left = 0;
    None
}

/// The end at a place at which an arrival waits.
pub(crate) fn end_at<I: Inlet + Drop>(ins: &Vec<InEnd<I>>, place: usize) -> &InEnd<I>
    requires { IsWaiting ins.now.items place }
    ensures there { slice_get ins.now.items place ≡ Some result.now }
    ensures next { HasNext result.now }
{
    &ins[place]
}

/// Gives the arrival that waits at a place.
pub(crate) fn pass_at<I: Inlet + Drop>(ins: &mut Vec<InEnd<I>>, place: usize)
    requires { IsWaiting ins.old.items place }
    ensures { (end : InEndView) (arrival : Arrival) → slice_get ins.old.items place ≡ Some end → end.next ≡ Some arrival
        → HasCome (record { from = end.link.from; arrival = arrival }) (links_in ins.old.items) (links_in ins.new.items) }
{
    ins[place].pass();
}
