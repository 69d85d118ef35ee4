// The readers of a line's words: each takes words from the front, and gives a value or the first fault.
ghost use Rattle.std.specs.Prelude.{◌≡◌, IfOk, true};
ghost use Rattle.text_words.specs.Reading.{Takes};
ghost use Rattle.trio_text.specs.Grammar.{ends_at, node_at, replica_at, target_at};
ghost use Rattle.trio_text.specs.Nodes.{has_trio_edge, has_trio_link, has_trio_node, has_trio_replica};

use crate::names::{Ends, ends_named, node_named};
use crate::nodes::{has_edge, has_link, has_node, has_replica};
use plan_reader::Plan;
use run_journal::Fault;
use text_words::Words;
use trio_machine::TrioNode;

// A node of the plan.
#[tactic(auto, unfolding(crate::specs::Grammar::node_at))]
pub(crate) fn node(words: &mut Words<'_>, plan: &Plan) -> Result<TrioNode, Fault>
    ensures value { Takes words.new result (node_at plan.now words.old) }
    ensures there { IfOk result (λ n. has_trio_node plan.now n ≡ true) }
{
    let found = words.word_or(Fault::Grammar)?;
    match node_named(found) {
        None => Err(Fault::Grammar),
        Some(node) => {
            if has_node(plan, node) {
                Ok(node)
            } else {
                Err(Fault::NoSuchNode)
            }
        }
    }
}

// A replica of the plan.
#[tactic(auto, unfolding(crate::specs::Grammar::replica_at))]
pub(crate) fn replica(words: &mut Words<'_>, plan: &Plan) -> Result<TrioNode, Fault>
    ensures value { Takes words.new result (replica_at plan.now words.old) }
    ensures there { IfOk result (λ n. has_trio_replica plan.now n ≡ true) }
{
    let found = words.word_or(Fault::Grammar)?;
    match node_named(found) {
        None => Err(Fault::Grammar),
        Some(node) => {
            if has_replica(plan, node) {
                Ok(node)
            } else {
                Err(Fault::NoSuchNode)
            }
        }
    }
}

// A node to which an edge leads from this one.
#[tactic(auto, unfolding(crate::specs::Grammar::target_at))]
pub(crate) fn target(words: &mut Words<'_>, plan: &Plan, from: TrioNode) -> Result<TrioNode, Fault>
    ensures value { Takes words.new result (target_at plan.now from words.old) }
    ensures there { IfOk result (λ to. has_trio_edge plan.now from to ≡ true) }
{
    let found = words.word_or(Fault::Grammar)?;
    match node_named(found) {
        None => Err(Fault::Grammar),
        Some(to) => {
            if has_edge(plan, from, to) {
                Ok(to)
            } else {
                Err(Fault::NoSuchNode)
            }
        }
    }
}

// The two nodes of a link of the plan.
#[tactic(auto, unfolding(crate::specs::Grammar::ends_at))]
pub(crate) fn ends(words: &mut Words<'_>, plan: &Plan) -> Result<Ends, Fault>
    ensures value { Takes words.new result (ends_at plan.now words.old) }
    ensures there { IfOk result (λ ends. has_trio_link plan.now ends.from ends.to ≡ true) }
{
    let found = words.word_or(Fault::Grammar)?;
    match ends_named(found) {
        None => Err(Fault::Grammar),
        Some(ends) => {
            if has_link(plan, ends.from, ends.to) {
                Ok(ends)
            } else {
                Err(Fault::NoSuchNode)
            }
        }
    }
}
