// Which packets ingress and egress may be given.
ghost use Rattle.ingress_egress.specs.EgressStands as egress;
ghost use Rattle.ingress_egress.specs.IngressStands as ingress;
ghost use Rattle.ingress_egress.specs.Small.{IsSmall};
ghost use Rattle.pair_machine.specs.Contents.{BodyStands};
ghost use Rattle.pair_machine.specs.Counts.{flow_of};
ghost use Rattle.pair_machine.specs.Links.{link};
ghost use Rattle.pair_machine.specs.Lists.{Among};
ghost use Rattle.pair_machine.specs.Machine.{State};
ghost use Rattle.pair_machine.specs.Messages.{Message};
ghost use Rattle.pair_machine.specs.Sound.{IsSound};
ghost use Rattle.plan_reader.specs.Nodes.{has_link};
ghost use Rattle.plan_reader.specs.PlanView.{IsPlan};
ghost use Rattle.std.specs.Prelude.{◌<◌, ◌↔◌, All, IsTrue, List};
ghost use Rattle.stream_ops.specs.Times.{IsTime};
ghost use Rattle.tuple_edge.specs.Input.{Input};
ghost use Rattle.tuple_edge.specs.declared.node.NodeId.TheVariants as node;

use crate::{Egress, Ingress};
use plan_reader::Plan;
use stream_ops::is_timely;
use tuple_edge::{Body, EdgeId, LinkId, NUMBER_LIMIT, NodeId};

impl Egress {
    /// Whether a packet from this node may be given to `on`: the plan has the link, which carries such a
    /// packet; it names an edge between the two; and its number and time are within their limits. It
    /// takes no memory.
    pub fn admits(&self, plan: &Plan, from: NodeId, body: &Body) -> bool
        ensures exact { IsTrue result ↔ (IsTrue (has_link plan.now (link from node.Egress))
            × egress.IsAdmitted self.now from body.now) }
        // Every packet that a sound machine has sent there is admitted, for inputs whose times are within their limits.
        ensures complete { (inputs : List Input) (s : State) (m : Message) →
            let f = flow_of plan.now inputs in
            IsPlan plan.now → All (λ input. IsTime input.row.time) inputs → IsSound f s
            → egress.StandsFor plan.now inputs self.now (s.nodes node.Egress) → IsSmall m
            → Among m (s.sent (link from node.Egress)) → BodyStands plan.now inputs (link from node.Egress) body.now m → IsTrue result }
    {
        let to = NodeId::Egress;
        plan.links(LinkId { from, to }) && self.may_take(from, body)
    }

    /// All that `on` asks for of egress itself: `admits` without the look at the plan. It is for one who knows that the
    /// packet came over a link of the plan. It takes no memory.
    pub fn may_take(&self, from: NodeId, body: &Body) -> bool
        ensures { IsTrue result ↔ egress.IsAdmitted self.now from body.now }
    {
        self.is_from_last(from) && self.is_carried(from, body)
    }

    fn is_from_last(&self, from: NodeId) -> bool
        ensures { IsTrue result ↔ egress.IsFromLast self.now from }
    {
        match from {
            NodeId::Replica { stage, part, .. } => {
                stage == self.stages() && part < self.consumer().merge().edges()
            }
            _ => false,
        }
    }

    fn is_carried(&self, from: NodeId, body: &Body) -> bool
        ensures { IsTrue result ↔ egress.IsCarried self.now from body.now }
    {
        match (from, *body) {
            (NodeId::Replica { part, .. }, Body::Tuple { edge, number, item }) => {
                let named = edge.stage == self.stages() && edge.from == part && edge.to == 0;
                named && number < NUMBER_LIMIT && is_timely(&item)
            }
            _ => false,
        }
    }
}

impl Ingress {
    /// Whether a packet from this node may be given to `on`: the plan has the link, which carries such a
    /// packet; it names an edge between the two; and its number is within its limit. It takes no memory.
    pub fn admits(&self, plan: &Plan, from: NodeId, body: &Body) -> bool
        ensures exact { IsTrue result ↔ (IsTrue (has_link plan.now (link from node.Ingress))
            × ingress.IsAdmitted self.now from body.now) }
        // Every packet that a sound machine has sent there is admitted, as long as its number is within its limit.
        ensures complete { (inputs : List Input) (s : State) (m : Message) →
            let f = flow_of plan.now inputs in
            IsPlan plan.now → IsSound f s → ingress.StandsFor plan.now inputs self.now (s.nodes node.Ingress) → IsSmall m
            → Among m (s.sent (link from node.Ingress)) → BodyStands plan.now inputs (link from node.Ingress) body.now m → IsTrue result }
    {
        let to = NodeId::Ingress;
        plan.links(LinkId { from, to }) && self.may_take(from, body)
    }

    /// All that `on` asks for of ingress itself: `admits` without the look at the plan. It is for one who knows that the
    /// packet came over a link of the plan. It takes no memory.
    pub fn may_take(&self, from: NodeId, body: &Body) -> bool
        ensures { IsTrue result ↔ ingress.IsAdmitted self.now from body.now }
    {
        match (from, *body) {
            (NodeId::Control { stage, part }, Body::Ack { edge, upto }) => {
                stage == 1 && self.is_for(part, edge) && upto < NUMBER_LIMIT
            }
            (NodeId::Replica { stage, part, .. }, Body::Want { edge, .. }) => {
                stage == 1 && self.is_for(part, edge)
            }
            _ => false,
        }
    }

    // Whether an edge leads from a source to a partition of the first stage.
    fn is_for(&self, part: u32, edge: EdgeId) -> bool
        ensures { IsTrue result ↔ ingress.IsFor self.now part edge.stage edge.from edge.to }
    {
        edge.stage == 0 && edge.from < self.sources() && edge.to == part && part < self.parts()
    }
}
