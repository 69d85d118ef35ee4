// The order of nodes: ingress, the pairs by stage and partition, egress.
ghost use Rattle.std.specs.Prelude.{◌≡◌, refl};
ghost use Rattle.tuple_edge.specs.NodeOrder.{node_ties, node_total};
ghost use Rattle.std.specs.Cmp.{partial_order_from_own_ties, partial_order_from_total};
ghost use Rattle.std.specs.Ordering.{as_partial_cmp};
ghost use Rattle.tuple_edge.specs.Node.{node_cmp, group_of, part_of, rank_of, stage_of};

use crate::{NodeId, Which};
use std::cmp::Ordering;

impl NodeId {
    // Ingress, then the pairs, then egress.
    fn group(&self) -> u8
        ensures { result ≡ group_of self.now }
    {
        match self {
            NodeId::Ingress => 0,
            NodeId::Replica { .. } | NodeId::Control { .. } => 1,
            NodeId::Egress => 2,
        }
    }

    fn stage(&self) -> u32
        ensures { result ≡ stage_of self.now }
    {
        match self {
            NodeId::Replica { stage, .. } | NodeId::Control { stage, .. } => *stage,
            NodeId::Ingress | NodeId::Egress => 0,
        }
    }

    fn part(&self) -> u32
        ensures { result ≡ part_of self.now }
    {
        match self {
            NodeId::Replica { part, .. } | NodeId::Control { part, .. } => *part,
            NodeId::Ingress | NodeId::Egress => 0,
        }
    }

    // In a pair replica A, replica B, the controller.
    fn rank(&self) -> u8
        ensures { result ≡ rank_of self.now }
    {
        match self {
            NodeId::Replica {
                which: Which::A,
                ..
            } => 0,
            NodeId::Replica {
                which: Which::B,
                ..
            } => 1,
            NodeId::Control { .. } => 2,
            NodeId::Ingress | NodeId::Egress => 0,
        }
    }
}

impl Ord for NodeId {
    ghost cmp = { node_cmp };

    ghost total = { node_total };

    ghost matches_partial_cmp = { λ a b. refl };

    ghost matches_eq = { node_ties };

    fn cmp(&self, other: &NodeId) -> Ordering {
        self.group()
            .cmp(&other.group())
            .then(self.stage().cmp(&other.stage()))
            .then(self.part().cmp(&other.part()))
            .then(self.rank().cmp(&other.rank()))
    }
}

impl PartialOrd for NodeId {
    ghost partial_cmp = { as_partial_cmp node_cmp };

    ghost laws = { partial_order_from_own_ties (partial_order_from_total node_total) node_ties };

    fn partial_cmp(&self, other: &NodeId) -> Option<Ordering> {
        Some(self.cmp(other))
    }
}
