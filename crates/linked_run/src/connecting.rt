// The links between nodes are made.
ghost use Rattle.pair_machine.specs.Courses.{Pairwise};
ghost use Rattle.pair_machine.specs.Lists.{Each};
ghost use Rattle.linked_run.specs.Drafts.{Grows, LeadsTo, LeadsToAll};
ghost use Rattle.linked_run.specs.Linked.{AreDistinct, AreLinked, ids_of};
ghost use Rattle.run_node.specs.NodeView.{NodeName};
ghost use Rattle.std.specs.Prelude.{◌≡◌, ◌<◌, OnOk, Some, length, slice_get};

use node_tasks::Acts;
use plan_reader::Plan;
use run_node::{Draft, Draws, Links, RunNames};
use std::alloc::Global;
use tuple_edge::{LinkId, OutOfMemory};

/// Makes a link from each of these nodes to each other one to which the plan has a link.
pub fn connect_all<N: RunNames, A: Acts, M: Links, T: Draws>(
    alloc: Global,
    plan: &Plan,
    drafts: &mut [Draft<N, A, M, T>],
    links: &mut M,
) -> Result<(), OutOfMemory>
    requires distinct { AreDistinct drafts.old }
    requires linked { AreLinked drafts.old drafts.old }
    ensures grown { OnOk result (Pairwise Grows drafts.old drafts.new) }
    ensures linked { OnOk result (AreLinked drafts.new drafts.new) }
    ensures leads { OnOk result (Each (λ m. LeadsToAll plan.now m (ids_of drafts.old)) drafts.new) }
{
    for from in 0..drafts.len() {
        connect_from(alloc, plan, drafts, from, links)?;
    }
    Ok(())
}

// Makes the links from one node.
fn connect_from<N: RunNames, A: Acts, M: Links, T: Draws>(
    alloc: Global,
    plan: &Plan,
    drafts: &mut [Draft<N, A, M, T>],
    from: usize,
    links: &mut M,
) -> Result<(), OutOfMemory>
    requires from { from < length drafts.old }
    requires distinct { AreDistinct drafts.old }
    requires linked { AreLinked drafts.old drafts.old }
    ensures grown { OnOk result (Pairwise Grows drafts.old drafts.new) }
    ensures linked { OnOk result (AreLinked drafts.new drafts.new) }
    ensures leads { OnOk result ((m : NodeName) → slice_get drafts.new from ≡ Some m → LeadsToAll plan.now m (ids_of drafts.old)) }
{
    for to in 0..drafts.len() {
        connect(alloc, plan, drafts, from, to, links)?;
    }
    Ok(())
}

// Makes the link from one node to another, where the plan has it and it isn't there yet.
fn connect<N: RunNames, A: Acts, M: Links, T: Draws>(
    alloc: Global,
    plan: &Plan,
    drafts: &mut [Draft<N, A, M, T>],
    from: usize,
    to: usize,
    links: &mut M,
) -> Result<(), OutOfMemory>
    requires places { (from < length drafts.old) × (to < length drafts.old) }
    requires distinct { AreDistinct drafts.old }
    requires linked { AreLinked drafts.old drafts.old }
    ensures grown { OnOk result (Pairwise Grows drafts.old drafts.new) }
    ensures linked { OnOk result (AreLinked drafts.new drafts.new) }
    ensures leads { OnOk result ((m k : NodeName) → slice_get drafts.new from ≡ Some m → slice_get drafts.new to ≡ Some k → LeadsTo plan.now m k.id) }
{
    let link = LinkId {
        from: drafts[from].id(),
        to: drafts[to].id(),
    };
    if !plan.links(link) {
        return Ok(());
    }
    if drafts[from].leads_to(link.to) {
        return Ok(());
    }
    let (outlet, inlet) = links.make(alloc, link)?;
    drafts[from].add_out(alloc, link.to, outlet)?;
    drafts[to].add_in(link.from, inlet)?;
    Ok(())
}
