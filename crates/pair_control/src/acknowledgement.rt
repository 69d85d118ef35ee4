// The acknowledgement of an in-edge.
ghost use Rattle.pair_control.specs.ControllerView.{numbers_in, partition_at};
ghost use Rattle.pair_control.specs.Packets.{SendsAtMost, ack_due, packets_of};
ghost use Rattle.pair_machine.specs.Consumers.{with_at};
ghost use Rattle.pair_machine.specs.Messages.{Ack};
ghost use Rattle.pair_machine.specs.Numbers.{in_edge};
ghost use Rattle.pair_machine.specs.Producers.{to_producers};
ghost use Rattle.std.specs.Prelude.{◌≡◌, ◌≤◌, ◌<◌, ◌+◌, ◌^◌, ◌++◌, length, max, slice_index};
ghost use Rattle.tuple_edge.specs.declared.node.NodeId.TheVariants as node;

use tuple_edge::{Body, EdgeId, NodeId, Outbox, Which};

// Acknowledges so much of an in-edge, where that is more than was acknowledged.
pub(crate) fn raise(
    acked: &mut Vec<u64>,
    edge: usize,
    least: u64,
    stage: u32,
    part: u32,
    out: &mut Outbox,
)
    requires edge { edge < length acked.old.items }
    requires small { edge < 2 ^ 32 }
    requires stage { 1 ≤ stage }
    requires room { 2 ≤ out.old.spare }
    ensures acked { numbers_in acked.new.items
        ≡ with_at (numbers_in acked.old.items) edge (max (slice_index acked.old.items edge) least) }
    ensures edges { length acked.new.items ≡ length acked.old.items }
    ensures packets { out.new.packets ≡ out.old.packets
        ++ packets_of (ack_due (partition_at stage part) edge (slice_index acked.old.items edge) least) }
    ensures sends { SendsAtMost 2 out.old out.new }
{
    if acked[edge] < least {
        acked[edge] = least;
        send_ack(stage, part, edge as u32, least, out);
    }
}

// Sends an acknowledgement to both producers of an in-edge, or to ingress.
fn send_ack(stage: u32, part: u32, edge: u32, upto: u64, out: &mut Outbox)
    requires stage { 1 ≤ stage }
    requires room { 2 ≤ out.old.spare }
    ensures packets { let p = partition_at stage part in
        out.new.packets ≡ out.old.packets ++ packets_of (to_producers p edge (Ack (in_edge p edge) upto)) }
    ensures sends { SendsAtMost 2 out.old out.new }
{
    let before = stage - 1;
    let edge_id = EdgeId {
        stage: before,
        from: edge,
        to: part,
    };
    let body = Body::Ack {
        edge: edge_id,
        upto,
    };
    if stage == 1 {
        out.push(NodeId::Ingress, body);
    } else {
        out.push(producer(before, edge, Which::A), body);
        out.push(producer(before, edge, Which::B), body);
    }
}

fn producer(stage: u32, part: u32, which: Which) -> NodeId
    ensures { result ≡ node.Replica stage part which }
{
    NodeId::Replica { stage, part, which }
}
