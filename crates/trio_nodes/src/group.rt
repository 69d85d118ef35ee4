// The three replicas of a group.
ghost use Rattle.std.specs.Prelude.{◌≡◌, ◌≤◌, ◌+◌, ◌++◌};
ghost use Rattle.trio_nodes.specs.Group.{to_three};
ghost use Rattle.trio_machine.specs.declared.node.TrioNode.TheVariants as node;

use crate::TrioOutbox;
use trio_machine::{TrioBody, TrioNode};

/// How many replicas a group has.
pub const GROUP_SIZE: u32 = 3;

// A replica of a group.
pub(crate) fn replica(stage: u32, part: u32, copy: u32) -> TrioNode
    ensures { result ≡ node.Replica stage part copy }
{
    TrioNode::Replica { stage, part, copy }
}

// Sends a packet to the three replicas of a group, in their order.
pub(crate) fn send_to_group(stage: u32, part: u32, body: TrioBody, out: &mut TrioOutbox)
    requires { 3 ≤ out.old.spare }
    ensures packets { out.new.packets ≡ out.old.packets ++ to_three stage part body }
    ensures spare { out.new.spare + 3 ≡ out.old.spare }
{
    out.push(replica(stage, part, 0), body);
    out.push(replica(stage, part, 1), body);
    out.push(replica(stage, part, 2), body);
}
