// The histories of nodes as one list of events.
ghost use Rattle.std.specs.Prelude.{List, ◌≡◌, ◌++◌, IfOk, OnOk, map};
ghost use Rattle.tuple_edge.specs.declared.event.History.{History as NodeHistory};
ghost use Rattle.std.specs.List.{flat_map};
ghost use Rattle.pair_machine.specs.Joint.{IsLog, logged_events};
ghost use Rattle.run_journal.specs.Entries.{entries_of, logged};
ghost use Rattle.run_journal.specs.Logs.{AreMergeable, history_of, log_of_histories};

use std::alloc::Global;
use tuple_edge::{Event, History, NodeId, OutOfMemory, Stamped};

// An entry of a history, with its node.
#[derive(Clone, Copy)]
pub(crate) struct Placed {
    pub(crate) node: NodeId,
    pub(crate) stamped: Stamped,
}

// Appends the entries of a history.
fn push_history(entries: &mut Vec<Placed>, history: &History) -> Result<(), OutOfMemory>
    ensures { OnOk result (entries.new.items ≡ entries.old.items ++ entries_of history.now) }
{
    entries.reserve(history.entries.len())?;
    for stamped in &history.entries {
        entries.push(Placed {
            node: history.node,
            stamped: *stamped,
        })?;
    }
    Ok(())
}

// The entries of histories, one history after another.
fn all_entries(alloc: Global, histories: &[History]) -> Result<Vec<Placed>, OutOfMemory>
    ensures { IfOk result (λ entries. entries.items ≡ flat_map entries_of histories.now) }
{
    let mut entries = Vec::new(alloc);
    for history in histories {
        push_history(&mut entries, history)?;
    }
    Ok(entries)
}

// The entries of histories by clock and node. Each history is in order already, so that the sort merges.
fn in_order(alloc: Global, histories: &[History]) -> Result<Vec<Placed>, OutOfMemory>
    requires { AreMergeable histories.now }
    ensures { IfOk result (λ entries. map logged entries.items ≡ log_of_histories histories.now) }
{
    let mut entries = all_entries(alloc, histories)?;
    entries.sort_by_key(|entry| (entry.stamped.clock, entry.node))?;
    Ok(entries)
}

/// All events of these histories, each once, in the order of their clocks, and those of one clock in the
/// order of nodes. The nodes differ, and the clocks of each history rise.
pub fn merge(alloc: Global, histories: &[History]) -> Result<Vec<Event>, OutOfMemory>
    requires { AreMergeable histories.now }
    ensures { IfOk result (λ events. events.items ≡ logged_events (log_of_histories histories.now)) }
{
    let entries = in_order(alloc, histories)?;
    let mut events = Vec::new(alloc);
    events.reserve(entries.len())?;
    for entry in &entries {
        events.push(entry.stamped.event)?;
    }
    Ok(events)
}

/// A law: the events that histories merge to are those of a log of all nodes. In it the clocks rise, and
/// each node has its whole history.
#[tactic(auto, using(crate::proofs::MergeFacts::is_log))]
pub fn merged_histories_are_a_log()
    ensures { (histories : List NodeHistory) → AreMergeable histories → IsLog (history_of histories) (log_of_histories histories) }
{}
