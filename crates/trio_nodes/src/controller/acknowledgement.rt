// The acknowledgement of an in-edge.
ghost use Rattle.pair_machine.specs.Consumers.{with_at};
ghost use Rattle.pair_machine.specs.Drain.{partition};
ghost use Rattle.pair_machine.specs.Numbers.{in_edge};
ghost use Rattle.std.specs.Prelude.{◌≡◌, ◌≤◌, ◌<◌, ◌+◌, ◌^◌, ◌++◌, ℕ, length, max, slice_index};
ghost use Rattle.trio_nodes.specs.ControllerPackets.{SendsAtMost, ack_due, packets_of};
ghost use Rattle.trio_nodes.specs.ControllerView.{least_report, numbers_in, watched_in};
ghost use Rattle.trio_machine.specs.Controllers.{least_with};
ghost use Rattle.trio_machine.specs.Messages.{Ack};
ghost use Rattle.trio_machine.specs.Replicas.{to_producers};

use super::watched::TrioWatched;
use crate::TrioOutbox;
use crate::group::send_to_group;
use trio_machine::{TrioBody, TrioNode};
use tuple_edge::EdgeId;

// The lesser of two reports, where the first was given.
fn least_of(known: Option<u64>, report: u64) -> u64
    ensures { result ≡ least_with known report }
{
    match known {
        None => report,
        Some(known) => known.min(report),
    }
}

// The least report of an in-edge by the replicas that are up. None where none is.
pub(crate) fn least_report(watched: &[TrioWatched], edge: usize) -> Option<u64>
    requires edge { (c : ℕ) → c < length watched.now → edge < length (watched_in watched.now c).reports }
    ensures { result ≡ least_report watched.now edge (length watched.now) }
{
    let mut least = None;
    for copy in 0..watched.len() {
        let replica = &watched[copy];
        if replica.up {
            least = Some(least_of(least, replica.reports[edge]));
        }
    }
    least
}

// Acknowledges so much of an in-edge, where that is more than was acknowledged.
pub(crate) fn raise(
    acked: &mut Vec<u64>,
    edge: usize,
    least: u64,
    stage: u32,
    part: u32,
    out: &mut TrioOutbox,
)
    requires edge { edge < length acked.old.items }
    requires small { edge < 2 ^ 32 }
    requires stage { 1 ≤ stage }
    requires room { 3 ≤ out.old.spare }
    ensures acked { numbers_in acked.new.items
        ≡ with_at (numbers_in acked.old.items) edge (max (slice_index acked.old.items edge) least) }
    ensures edges { length acked.new.items ≡ length acked.old.items }
    ensures packets { out.new.packets ≡ out.old.packets
        ++ packets_of (ack_due (partition stage part) edge (slice_index acked.old.items edge) least) }
    ensures sends { SendsAtMost 3 out.old out.new }
{
    if acked[edge] < least {
        send_ack(stage, part, edge as u32, least, out);
    }
    acked[edge] = acked[edge].max(least);
}

// Sends an acknowledgement to the three producers of an in-edge, or to ingress.
fn send_ack(stage: u32, part: u32, edge: u32, upto: u64, out: &mut TrioOutbox)
    requires stage { 1 ≤ stage }
    requires room { 3 ≤ out.old.spare }
    ensures packets { let p = partition stage part in
        out.new.packets ≡ out.old.packets ++ packets_of (to_producers p edge (Ack (in_edge p edge) upto)) }
    ensures sends { SendsAtMost 3 out.old out.new }
{
    let before = stage - 1;
    let edge_id = EdgeId {
        stage: before,
        from: edge,
        to: part,
    };
    let body = TrioBody::Ack {
        edge: edge_id,
        upto,
    };
    if stage == 1 {
        out.push(TrioNode::Ingress, body);
    } else {
        send_to_group(before, edge, body, out);
    }
}
