// Whether a packet may be given to the controller.
ghost use Rattle.pair_control.specs.Admitted.{HasRoom, IsAdmitted, IsCarried, IsFromReplica, IsSmall, MayRise};
ghost use Rattle.pair_control.specs.StandsFor.{StandsFor, node_of};
ghost use Rattle.pair_machine.specs.Contents.{BodyStands};
ghost use Rattle.pair_machine.specs.Counts.{flow_of};
ghost use Rattle.pair_machine.specs.Links.{link};
ghost use Rattle.pair_machine.specs.Lists.{Among};
ghost use Rattle.pair_machine.specs.Machine.{State, controller_in};
ghost use Rattle.pair_machine.specs.Messages.{Message};
ghost use Rattle.pair_machine.specs.Sound.{IsSound};
ghost use Rattle.plan_reader.specs.Nodes.{has_link};
ghost use Rattle.std.specs.Prelude.{◌≡◌, ◌<◌, ◌+◌, ◌↔◌, List, IsTrue, length};
ghost use Rattle.tuple_edge.specs.Input.{Input};

use crate::PairControl;
use plan_reader::Plan;
use tuple_edge::{Body, EdgeId, LinkId, NUMBER_LIMIT, NodeId};

impl PairControl {
    /// Whether a packet from this node may be given to `on`: the plan has the link, which carries such a
    /// packet; a report names an in-edge of the pair; and no number passes its limit. It takes no memory.
    pub fn admits(&self, plan: &Plan, from: NodeId, body: &Body) -> bool
        ensures exact { IsTrue result ↔ (IsTrue (has_link plan.now (link from (node_of self.now)))
            × IsAdmitted self.now from body.now) }
        // Every packet that a sound machine has sent there is admitted, as long as no number would pass its limit.
        ensures complete { (inputs : List Input) (s : State) (m : Message) →
            let f = flow_of plan.now inputs in let me = node_of self.now in
            IsSound f s → StandsFor f self.now (s.nodes me) → HasRoom (controller_in (s.nodes me))
            → IsSmall m → Among m (s.sent (link from me)) → BodyStands plan.now inputs (link from me) body.now m → IsTrue result }
    {
        let to = self.id();
        plan.links(LinkId { from, to }) && self.may_take(from, body)
    }

    /// All that `on` asks for of the controller itself: `admits` without the look at the plan. It is for one who knows
    /// that the packet came over a link of the plan. It takes no memory.
    pub fn may_take(&self, from: NodeId, body: &Body) -> bool
        ensures { IsTrue result ↔ IsAdmitted self.now from body.now }
    {
        self.is_from_replica(from) && self.is_carried(body) && self.may_rise()
    }

    fn is_from_replica(&self, from: NodeId) -> bool
        ensures { IsTrue result ↔ IsFromReplica self.now from }
    {
        match from {
            NodeId::Replica { stage, part, .. } => stage == self.stage && part == self.part,
            _ => false,
        }
    }

    // Whether replicas send such a packet to their controller.
    fn is_carried(&self, body: &Body) -> bool
        ensures { IsTrue result ↔ IsCarried self.now body.now }
    {
        match *body {
            Body::Report { edge, upto, .. } => self.has_edge(edge) && upto < NUMBER_LIMIT,
            Body::Down { .. } | Body::AskStop { .. } | Body::AskBack | Body::Caught { .. } => true,
            _ => false,
        }
    }

    // Whether an edge is an in-edge of the pair.
    fn has_edge(&self, edge: EdgeId) -> bool
        ensures { IsTrue result ↔ ((edge.stage + 1 ≡ self.now.stage) × (edge.to ≡ self.now.part)
            × (edge.from < length self.now.acked)) }
    {
        let leads_here = edge.stage == self.stage - 1 && edge.to == self.part;
        leads_here && (edge.from as usize) < self.acked.len()
    }

    // Whether the incarnations and the term may rise once more.
    fn may_rise(&self) -> bool
        ensures { IsTrue result ↔ MayRise self.now }
    {
        self.a.inc < NUMBER_LIMIT - 1
            && self.b.inc < NUMBER_LIMIT - 1
            && self.term < NUMBER_LIMIT - 1
    }
}
