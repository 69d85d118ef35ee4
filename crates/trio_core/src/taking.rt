// The search of what a node sent, from a place on.
ghost use Rattle.std.specs.Prelude.{◌≡◌, ◌≤◌, ◌<◌, IfErr, IfOk, length};
ghost use Rattle.trio_core.specs.Sent.{Counted, bodies_to, body_at};
ghost use Rattle.trio_core.specs.Taken.{IsMissing, IsPacketOf};

use crate::error::TrioError;
use crate::task::TrioTask;
use trio_nodes::{TrioBody, TrioNode, TrioOutbox};

// The body of the packet at a place among all that a node sent, where it went to this receiver.
pub(crate) fn body_at(log: &TrioOutbox, nth: usize, to: TrioNode) -> Option<TrioBody>
    ensures { result ≡ body_at to log.now.packets nth }
{
    match log.get(nth) {
        Some((receiver, body)) if receiver == to => Some(body),
        _ => None,
    }
}

// The packet at a place among those that a node sent to another, from 1, as the task of its receiver. It is
// none of those before `start`, of which so many went to that receiver.
pub(crate) fn taken_from(
    log: &TrioOutbox,
    start: usize,
    before: u64,
    from: TrioNode,
    to: TrioNode,
    index: u64,
) -> Result<TrioTask, TrioError>
    requires counted { Counted to log.now.packets start before }
    requires within { start ≤ length log.now.packets }
    requires later { 1 ≤ index → before < index }
    ensures found { IfOk result (IsPacketOf (bodies_to to log.now.packets) from index) }
    ensures refused { IfErr result (IsMissing (bodies_to to log.now.packets) index) }
{
    let mut sent = before;
    for nth in start..log.len() {
        match body_at(log, nth, to) {
            Some(body) if sent + 1 == index => return Ok(TrioTask::Take { from, body }),
            Some(_body) => sent += 1,
            None => {}
        }
    }
    Err(TrioError::NotSent { index, sent })
}
