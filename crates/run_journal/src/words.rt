// The readers of a line's words: each takes words from the front, and gives a value or the first fault.
ghost use Rattle.std.specs.Prelude.{◌≡◌, ◌≤◌, IfOk, true};
ghost use Rattle.text_words.specs.Reading.{Takes};
ghost use Rattle.plan_reader.specs.Nodes.{has_link, has_node};
ghost use Rattle.plan_reader.specs.Nodes.{has_edge, has_replica};
ghost use Rattle.run_journal.specs.Grammar.{in_range, index_at, link_at, node_at, replica_at, target_at, times_at};
ghost use Rattle.run_journal.specs.Limits.{max_index, max_repeats};

use crate::names::link_named;
use crate::{Fault, MAX_INDEX, MAX_REPEATS};
use plan_reader::{Plan, node_named};
use text_words::{Words, number_of};
use tuple_edge::{LinkId, NodeId};

// A node of the plan.
#[tactic(auto, unfolding(crate::specs::Grammar::node_at))]
pub(crate) fn node(words: &mut Words<'_>, plan: &Plan) -> Result<NodeId, Fault>
    ensures value { Takes words.new result (node_at plan.now words.old) }
    ensures there { IfOk result (λ n. has_node plan.now n ≡ true) }
{
    let found = words.word_or(Fault::Grammar)?;
    match node_named(found) {
        None => Err(Fault::Grammar),
        Some(node) => {
            if plan.has(node) {
                Ok(node)
            } else {
                Err(Fault::NoSuchNode)
            }
        }
    }
}

// A replica of the plan.
#[tactic(auto, unfolding(crate::specs::Grammar::replica_at))]
pub(crate) fn replica(words: &mut Words<'_>, plan: &Plan) -> Result<NodeId, Fault>
    ensures value { Takes words.new result (replica_at plan.now words.old) }
    ensures there { IfOk result (λ n. has_replica plan.now n ≡ true) }
{
    let found = words.word_or(Fault::Grammar)?;
    match node_named(found) {
        None => Err(Fault::Grammar),
        Some(node) => {
            if plan.has_replica(node) {
                Ok(node)
            } else {
                Err(Fault::NoSuchNode)
            }
        }
    }
}

// A node to which an edge leads from this one.
#[tactic(auto, unfolding(crate::specs::Grammar::target_at))]
pub(crate) fn target(words: &mut Words<'_>, plan: &Plan, from: NodeId) -> Result<NodeId, Fault>
    ensures value { Takes words.new result (target_at plan.now from words.old) }
    ensures there { IfOk result (λ to. has_edge plan.now from to ≡ true) }
{
    let found = words.word_or(Fault::Grammar)?;
    match node_named(found) {
        None => Err(Fault::Grammar),
        Some(to) => {
            if plan.has_edge(from, to) {
                Ok(to)
            } else {
                Err(Fault::NoSuchNode)
            }
        }
    }
}

// A link of the plan.
#[tactic(auto, unfolding(crate::specs::Grammar::link_at))]
pub(crate) fn link(words: &mut Words<'_>, plan: &Plan) -> Result<LinkId, Fault>
    ensures value { Takes words.new result (link_at plan.now words.old) }
    ensures there { IfOk result (λ link. has_link plan.now link ≡ true) }
{
    let found = words.word_or(Fault::Grammar)?;
    match link_named(found) {
        None => Err(Fault::Grammar),
        Some(link) => {
            if plan.links(link) {
                Ok(link)
            } else {
                Err(Fault::NoSuchNode)
            }
        }
    }
}

// A number from `low` to `high`.
fn in_range(number: Option<u64>, low: u64, high: u64) -> Result<u64, Fault>
    ensures value { result ≡ in_range low high number }
    ensures within { IfOk result (λ n. (low ≤ n) × (n ≤ high)) }
{
    match number {
        None => Err(Fault::Grammar),
        Some(n) => {
            if low <= n && n <= high {
                Ok(n)
            } else {
                Err(Fault::Range)
            }
        }
    }
}

/// A packet's place on its link: the next word.
#[tactic(auto, unfolding(crate::specs::Grammar::index_at))]
pub fn index(words: &mut Words<'_>) -> Result<u64, Fault>
    ensures value { Takes words.new result (index_at words.old) }
    ensures within { IfOk result (λ n. n ≤ max_index) }
{
    let found = words.word_or(Fault::Grammar)?;
    in_range(number_of(found), 0, MAX_INDEX)
}

/// How often an event happens: a last word, or once where there is none.
#[tactic(auto, unfolding(crate::specs::Grammar::times_at))]
pub fn times(words: &mut Words<'_>) -> Result<u64, Fault>
    ensures value { Takes words.new result (times_at words.old) }
    ensures within { IfOk result (λ n. (1 ≤ n) × (n ≤ max_repeats)) }
{
    match words.next_word() {
        None => Ok(1),
        Some(word) => {
            let n = in_range(number_of(word), 1, MAX_REPEATS)?;
            words.end_or(Fault::Grammar)?;
            Ok(n)
        }
    }
}
