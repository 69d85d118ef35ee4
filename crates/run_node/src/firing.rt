// What the orders of a script make a node do.
ghost use Rattle.pair_machine.specs.Machine.{replica_in};
ghost use Rattle.pair_machine.specs.Numbers.{Node as NodeNumbers};
ghost use Rattle.pair_machine.specs.Scripts.{HasMerged, IsAllowedAt};
ghost use Rattle.run_node.specs.NodeView.{name_of};
ghost use Rattle.run_node.specs.Portions.{NoneComesDue};
ghost use Rattle.node_tasks.specs.Tasks.{event_of, packet_of};
ghost use Rattle.std.specs.Prelude.{◌≡◌, ◌≤◌, ◌<◌, ◌+◌, None, IsTrue};

use crate::draws::Draws;
use crate::links::Links;
use crate::names::RunNames;
use crate::node::Node;
use event_log::Keeps;
use failure_script::Script;
use node_tasks::{Acts, Task};
use tuple_edge::{NodeId, OutOfMemory};

// How many pieces of work, at most so many, a replica that has merged this many items may do one after another in one call. Each
// merges one item at most. Where an order would become due among them it is one piece, so that no call goes past the count of an
// order.
fn most_at_once(script: &Script, node: NodeId, merged: u64, most: u64) -> u64
    requires { 1 ≤ most }
    ensures some { 1 ≤ result }
    ensures most { result ≤ most }
    ensures orders { 1 < result → NoneComesDue script.now node merged (merged + result) }
{
    let Some(beyond) = merged.checked_add(most) else {
        return 1;
    };
    if script.due_for(node, beyond) == script.due_for(node, merged) {
        most
    } else {
        1
    }
}

impl<N: RunNames, A: Acts, K: Keeps, M: Links, T: Draws> Node<N, A, K, M, T> {
    /// Obeys the orders that are due, each once.
    pub(crate) fn fire(&mut self, script: &Script) -> Result<bool, OutOfMemory>
        requires { script.now ≡ N.script }
        ensures { name_of A.id self.new ≡ name_of A.id self.old }
    {
        if script.orders().is_empty() || self.fired.is_all() {
            return Ok(false);
        }
        let Some(count) = self.state.merged() else {
            return Ok(false);
        };
        let due = script.due_for(self.state.id(), count);
        let failed = self.obey(due.kill, count, Task::Kill)?;
        let stopped = self.obey(due.stop, count, Task::AskStop)?;
        let recalled = self.obey(due.back, count, Task::AskBack)?;
        Ok(failed || stopped || recalled)
    }

    // Does what an order wants, if that is due where so many items are merged. A node that doesn't run any more, since
    // it failed in this turn, has merged none.
    fn obey(&mut self, is_due: bool, count: u64, task: Task) -> Result<bool, OutOfMemory>
        requires order { packet_of task ≡ None }
        requires allowed { IsTrue is_due → (x : NodeNumbers) → HasMerged count (replica_in x) → IsAllowedAt N.script (event_of (A.id self.old.state) task) x }
        ensures { name_of A.id self.new ≡ name_of A.id self.old }
    {
        if !is_due {
            return Ok(false);
        }
        let Some(merged) = self.state.merged() else {
            return Ok(false);
        };
        if merged < count {
            return Ok(false);
        }
        self.event(&task)
    }

    /// How many pieces of work, at most so many, it may do in one call of this turn, so that no call goes past the count of an
    /// order that is still to come.
    pub(crate) fn portion(&self, script: &Script, most: u64) -> u64
        requires { 1 ≤ most }
        ensures some { 1 ≤ result }
        ensures most { result ≤ most }
    {
        if script.orders().is_empty() || self.fired.is_all() {
            return most;
        }
        let Some(merged) = self.state.merged() else {
            return most;
        };
        most_at_once(script, self.state.id(), merged, most)
    }
}
