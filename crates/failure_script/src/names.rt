// The name of a replica, as `1.0.a`.
ghost use Rattle.std.specs.Prelude.{◌≡◌, true, IfSome};
ghost use Rattle.plan_reader.specs.Nodes.{is_replica};
ghost use Rattle.failure_script.specs.Names.{replica_named};

use plan_reader::node_named;
use tuple_edge::NodeId;

// The node that a word names, if it is a replica.
#[tactic(auto, unfolding(crate::specs::Names::replica_named))]
pub(crate) fn replica_named(word: &[u8]) -> Option<NodeId>
    ensures value { result ≡ replica_named word.now }
    ensures replica { IfSome result (λ n. is_replica n ≡ true) }
{
    let node = node_named(word)?;
    match node {
        NodeId::Replica { .. } => Some(node),
        NodeId::Ingress | NodeId::Control { .. } | NodeId::Egress => None,
    }
}
