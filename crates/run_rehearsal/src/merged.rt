// How many items a replica has merged.
ghost use Rattle.run_rehearsal.specs.Merged.{merged_seen, merged_so_far};
ghost use Rattle.std.specs.Prelude.{◌≡◌};

use flux_core::Core;
use replica_node::{Mode, Replica};
use tuple_edge::NodeId;

// How many items a replica has merged that runs.
fn merged_so_far(replica: &Replica) -> Option<u64>
    ensures { result ≡ merged_so_far replica.now.phase }
{
    match replica.mode() {
        Mode::Running => Some(replica.count()),
        Mode::Gathering | Mode::Gone => None,
    }
}

/// How many items a node of a core has merged, where it is a replica of the plan and runs.
pub(crate) fn merged_seen(core: &Core, node: NodeId) -> Option<u64>
    ensures { result ≡ merged_seen core.now node }
{
    if !core.plan().has_replica(node) {
        return None;
    }
    match node {
        NodeId::Replica { stage, part, which } => merged_so_far(core.replica(stage, part, which)),
        NodeId::Ingress | NodeId::Control { .. } | NodeId::Egress => None,
    }
}
