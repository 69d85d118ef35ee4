// Which packets a replica may be given.
ghost use Rattle.pair_machine.specs.Contents.{BodyStands};
ghost use Rattle.pair_machine.specs.Counts.{flow_of};
ghost use Rattle.pair_machine.specs.Links.{link};
ghost use Rattle.pair_machine.specs.Lists.{Among};
ghost use Rattle.pair_machine.specs.Machine.{State};
ghost use Rattle.pair_machine.specs.Messages.{Message};
ghost use Rattle.pair_machine.specs.Small.{EachOfMessage};
ghost use Rattle.pair_machine.specs.Sound.{IsSound};
ghost use Rattle.plan_reader.specs.Nodes.{has_link};
ghost use Rattle.plan_reader.specs.PlanView.{IsPlan};
ghost use Rattle.replica_node.specs.Admitted.{IsAdmitted, IsController, IsEntryHere, IsFromHere, IsIntoHere, IsPartner, IsWholeAt, SendsAcks, SendsItems, SendsWants};
ghost use Rattle.replica_node.specs.Course.{AreTimely};
ghost use Rattle.replica_node.specs.ReplicaView.{node_of};
ghost use Rattle.replica_node.specs.StandsFor.{StandsFor};
ghost use Rattle.std.specs.Prelude.{◌<◌, ◌↔◌, IsTrue, List};
ghost use Rattle.tuple_edge.specs.Input.{Input};
ghost use Rattle.tuple_edge.specs.Limits.{number_limit};

use crate::phase::Phase;
use crate::replica::Replica;
use crate::role::Role;
use plan_reader::Plan;
use stream_ops::is_timely;
use tuple_edge::{Body, EdgeId, Entry, LinkId, NUMBER_LIMIT, NodeId};

// Whether a node sends the items of an edge.
fn sends_items(edge: EdgeId, from: NodeId) -> bool
    ensures { IsTrue result ↔ SendsItems edge from }
{
    match from {
        NodeId::Ingress => edge.stage == 0,
        NodeId::Replica { stage, part, .. } => edge.stage == stage && edge.from == part,
        NodeId::Control { .. } | NodeId::Egress => false,
    }
}

impl Role {
    // Whether an edge leads into the partition.
    fn is_into(&self, edge: EdgeId) -> bool
        ensures { IsTrue result ↔ IsIntoHere self.now edge }
    {
        u64::from(edge.stage) + 1 == u64::from(self.stage)
            && edge.to == self.part
            && edge.from < self.sources
    }

    // Whether an edge leads from the partition.
    fn is_from(&self, edge: EdgeId) -> bool
        ensures { IsTrue result ↔ IsFromHere self.now edge }
    {
        edge.stage == self.stage && edge.from == self.part && edge.to < self.targets()
    }

    // Whether a node acknowledges the items of an edge.
    fn sends_acks(&self, edge: EdgeId, from: NodeId) -> bool
        ensures { IsTrue result ↔ SendsAcks self.now edge from }
    {
        match from {
            NodeId::Control { stage, part } => {
                u64::from(edge.stage) + 1 == u64::from(stage) && edge.to == part
            }
            NodeId::Egress => self.next.is_none(),
            NodeId::Ingress | NodeId::Replica { .. } => false,
        }
    }

    // Whether a node may want the items of an edge.
    fn sends_wants(&self, edge: EdgeId, from: NodeId) -> bool
        ensures { IsTrue result ↔ SendsWants self.now edge from }
    {
        match from {
            NodeId::Replica { stage, part, .. } => {
                self.next.is_some()
                    && u64::from(edge.stage) + 1 == u64::from(stage)
                    && edge.to == part
            }
            NodeId::Ingress | NodeId::Control { .. } | NodeId::Egress => false,
        }
    }

    // Whether a node is the controller of the pair.
    fn is_controller(&self, from: NodeId) -> bool
        ensures { IsTrue result ↔ IsController self.now from }
    {
        match from {
            NodeId::Control { stage, part } => stage == self.stage && part == self.part,
            _ => false,
        }
    }

    // Whether a node is the partner.
    fn is_partner(&self, from: NodeId) -> bool
        ensures { IsTrue result ↔ IsPartner self.now from }
    {
        match from {
            NodeId::Replica { stage, part, which } => {
                stage == self.stage && part == self.part && which != self.which
            }
            _ => false,
        }
    }

    // Whether an entry of a move is one of this partition, its numbers and time within their limits.
    fn has_entry(&self, entry: &Entry) -> bool
        ensures { IsTrue result ↔ IsEntryHere self.now entry.now }
    {
        match *entry {
            Entry::Mark { edge, upto } => edge < self.sources && upto < NUMBER_LIMIT,
            Entry::Count { count } => count < NUMBER_LIMIT,
            Entry::Head { edge, number, item } => {
                edge < self.sources && number < NUMBER_LIMIT && is_timely(&item)
            }
            Entry::Low { edge, upto, .. } => edge < self.targets() && upto < NUMBER_LIMIT,
            Entry::Kept { edge, item, .. } => edge < self.targets() && is_timely(&item),
            Entry::Keyed { .. } => true,
        }
    }
}

impl Phase {
    // Whether, where a move ends here, the lows taken are those of the out-edges, in order.
    fn is_whole(&self, role: &Role, inc: u64, count: u64) -> bool
        ensures { IsTrue result ↔ IsWholeAt role.now self.now inc count }
    {
        match self {
            Phase::Gathering(newcomer) => {
                inc != newcomer.inc()
                    || count != newcomer.taken()
                    || newcomer.tells_lows(role.targets())
            }
            Phase::Running(_) | Phase::Gone { .. } => true,
        }
    }
}

impl Replica {
    /// Whether a packet from this node may be given to `on`: the plan has the link, which carries such a
    /// packet; it names an edge between the two; each number that it may raise, and the time of its row,
    /// is within its limit; an entry of a move is one of this partition, and where a move ends, the lows
    /// taken are those of the out-edges, each once and in their order. It takes no memory.
    pub fn admits(&self, plan: &Plan, from: NodeId, body: &Body) -> bool
        ensures exact { IsTrue result ↔ (IsTrue (has_link plan.now (link from (node_of self.now.role)))
            × IsAdmitted self.now from body.now) }
        // Every packet that a sound machine has sent there is admitted, for inputs whose times are within their limits.
        ensures complete { (inputs : List Input) (s : State) (m : Message) →
            let f = flow_of plan.now inputs in
            let here = node_of self.now.role in
            IsPlan plan.now → AreTimely inputs → IsSound f s → StandsFor plan.now inputs self.now (s.nodes here)
            → EachOfMessage (λ n. n < number_limit) m → Among m (s.sent (link from here))
            → BodyStands plan.now inputs (link from here) body.now m → IsTrue result }
    {
        let to = self.id();
        plan.links(LinkId { from, to }) && self.may_take(from, body)
    }

    /// All that `on` asks for of the replica itself: `admits` without the look at the plan. It is for one who knows that
    /// the packet came over a link of the plan. It takes no memory.
    pub fn may_take(&self, from: NodeId, body: &Body) -> bool
        ensures { IsTrue result ↔ IsAdmitted self.now from body.now }
    {
        let (role, phase) = (self.role(), self.phase());
        match *body {
            Body::Tuple { edge, number, item } => {
                sends_items(edge, from)
                    && role.is_into(edge)
                    && number < NUMBER_LIMIT
                    && is_timely(&item)
            }
            Body::Ack { edge, upto } => {
                role.sends_acks(edge, from) && role.is_from(edge) && upto < NUMBER_LIMIT
            }
            Body::Want { edge, .. } => role.sends_wants(edge, from) && role.is_from(edge),
            Body::Lead { term, .. } => role.is_controller(from) && term < NUMBER_LIMIT,
            Body::Serve { target, .. } => role.is_controller(from) && target < NUMBER_LIMIT,
            Body::Begin { inc } => role.is_controller(from) && inc < NUMBER_LIMIT,
            Body::Stop { .. } => role.is_controller(from),
            Body::Chunk { entry, .. } => role.is_partner(from) && role.has_entry(&entry),
            Body::ChunkEnd { inc, count } => {
                role.is_partner(from) && phase.is_whole(role, inc, count)
            }
            _ => false,
        }
    }
}
