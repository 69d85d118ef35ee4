// One call takes a packet, by reference, where the node may be given it. Else nothing is done.
ghost use Rattle.plan_nodes.specs.States.{HasTaken, MayNotTake};
ghost use Rattle.plan_nodes.specs.declared.state.NodeState.TheVariants as state;
ghost use Rattle.tuple_edge.specs.declared.event.Worked.TheVariants.{Idle};
ghost use Rattle.tuple_edge.specs.Limits.{most_packets};
ghost use Rattle.std.specs.Prelude.{◌≡◌, ◌≤◌, [], Ok};

use crate::NodeState;
use ingress_egress::{Egress, Ingress};
use pair_control::PairControl;
use replica_node::Replica;
use tuple_edge::{NodeId, OutOfMemory, Outbox, Packet, Worked};

impl NodeState {
    // Takes a packet where it may be given that. Under which index the packet was sent makes no difference.
    pub(crate) fn take_packet(
        &mut self,
        from: NodeId,
        packet: &Packet,
        out: &mut Outbox,
    ) -> Result<Worked, OutOfMemory>
        requires room { most_packets ≤ out.old.spare }
        ensures taken { HasTaken self.old self.new from packet.now result out.old.packets out.new.packets }
        ensures left { result ≡ Ok Idle → MayNotTake self.old from packet.now }
    {
        match self {
            NodeState::Ingress(node) => ingress_takes(node, from, packet),
            NodeState::Replica(node) => replica_takes(node, from, packet, out),
            NodeState::Control(node) => control_takes(node, from, packet, out),
            NodeState::Egress(node) => egress_takes(node, from, packet),
        }
    }
}

// Ingress takes an acknowledgement or a want. It sends nothing.
#[tactic(auto, using(crate::proofs::Acting::not_taken, crate::proofs::Acting::take_failed))]
pub(crate) fn ingress_takes(
    node: &mut Ingress,
    from: NodeId,
    packet: &Packet,
) -> Result<Worked, OutOfMemory>
    ensures taken { HasTaken (state.Ingress node.old) (state.Ingress node.new) from packet.now result [] [] }
    ensures left { result ≡ Ok Idle → MayNotTake (state.Ingress node.old) from packet.now }
{
    if !node.may_take(from, &packet.body) {
        return Ok(Worked::Idle);
    }
    node.on(from, &packet.body);
    Ok(Worked::Did)
}

// A replica takes an item, an acknowledgement, a want, a part of a move or a word of its controller.
#[tactic(auto, using(crate::proofs::Acting::not_taken, crate::proofs::Acting::take_failed))]
pub(crate) fn replica_takes(
    node: &mut Replica,
    from: NodeId,
    packet: &Packet,
    out: &mut Outbox,
) -> Result<Worked, OutOfMemory>
    ensures taken { HasTaken (state.Replica node.old) (state.Replica node.new) from packet.now result out.old.packets out.new.packets }
    ensures left { result ≡ Ok Idle → MayNotTake (state.Replica node.old) from packet.now }
{
    if !node.may_take(from, &packet.body) {
        return Ok(Worked::Idle);
    }
    node.on(from, &packet.body, out)?;
    Ok(Worked::Did)
}

// A controller takes what its replicas tell it.
#[tactic(auto, using(crate::proofs::Acting::not_taken, crate::proofs::Acting::take_failed))]
pub(crate) fn control_takes(
    node: &mut PairControl,
    from: NodeId,
    packet: &Packet,
    out: &mut Outbox,
) -> Result<Worked, OutOfMemory>
    requires room { most_packets ≤ out.old.spare }
    ensures taken { HasTaken (state.Control node.old) (state.Control node.new) from packet.now result out.old.packets out.new.packets }
    ensures left { result ≡ Ok Idle → MayNotTake (state.Control node.old) from packet.now }
{
    if !node.may_take(from, &packet.body) {
        return Ok(Worked::Idle);
    }
    node.on(from, &packet.body, out);
    Ok(Worked::Did)
}

// Egress takes an item. It sends nothing.
#[tactic(auto, using(crate::proofs::Acting::not_taken, crate::proofs::Acting::take_failed))]
pub(crate) fn egress_takes(
    node: &mut Egress,
    from: NodeId,
    packet: &Packet,
) -> Result<Worked, OutOfMemory>
    ensures taken { HasTaken (state.Egress node.old) (state.Egress node.new) from packet.now result [] [] }
    ensures left { result ≡ Ok Idle → MayNotTake (state.Egress node.old) from packet.now }
{
    if !node.may_take(from, &packet.body) {
        return Ok(Worked::Idle);
    }
    node.on(from, &packet.body)?;
    Ok(Worked::Did)
}
