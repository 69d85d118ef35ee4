// The readers of a line's words: each takes words from the front, and gives a value or the first fault.
ghost use Rattle.std.specs.Prelude.{◌≡◌, true, IfOk, IfSome};
ghost use Rattle.text_words.specs.Reading.{Takes};
ghost use Rattle.plan_reader.specs.Nodes.{has_node, is_replica};
ghost use Rattle.failure_script.specs.Grammar.{back_at, is_kill, items_at, items_of, kill_at, order_at, replica_at};
ghost use Rattle.failure_script.specs.Orders.{IsItems, IsOrderOf};

use crate::error::Fault;
use crate::names::replica_named;
use pair_machine::Order;
use plan_reader::Plan;
use text_words::{Words, is_word, number_of};
use tuple_edge::NodeId;

// The most items after which an order is due.
const MAX_ITEMS: u64 = 1_000_000;

// Whether a first word is that of a failure; else it is that of a stop.
fn is_kill(word: &[u8]) -> Option<bool>
    ensures { result ≡ is_kill word.now }
{
    if is_word(word, "kill") {
        Some(true)
    } else if is_word(word, "stop") {
        Some(false)
    } else {
        None
    }
}

// Whether the replica fails; else it stops.
#[tactic(auto, unfolding(crate::specs::Grammar::kill_at))]
fn kill(words: &mut Words<'_>) -> Result<bool, Fault>
    ensures { Takes words.new result (kill_at words.old) }
{
    let found = words.word_or(Fault::Grammar)?;
    match is_kill(found) {
        None => Err(Fault::Grammar),
        Some(kill) => Ok(kill),
    }
}

// A replica of the plan.
#[tactic(auto, unfolding(crate::specs::Grammar::replica_at))]
fn replica(words: &mut Words<'_>, plan: &Plan) -> Result<NodeId, Fault>
    ensures value { Takes words.new result (replica_at plan.now words.old) }
    ensures there { IfOk result (λ n. has_node plan.now n ≡ true) }
    ensures replica { IfOk result (λ n. is_replica n ≡ true) }
{
    let found = words.word_or(Fault::Grammar)?;
    let Some(node) = replica_named(found) else {
        return Err(Fault::Grammar);
    };
    if plan.has(node) {
        Ok(node)
    } else {
        Err(Fault::NoSuchReplica)
    }
}

// The number of items that a word says.
#[tactic(auto, unfolding(crate::specs::Grammar::items_of))]
fn items_of(word: &[u8]) -> Result<u64, Fault>
    ensures value { result ≡ items_of word.now }
    ensures within { IfOk result IsItems }
{
    let Some(number) = number_of(word) else {
        return Err(Fault::Grammar);
    };
    if 1 <= number && number <= MAX_ITEMS {
        Ok(number)
    } else {
        Err(Fault::Range)
    }
}

// A number of items.
#[tactic(auto, unfolding(crate::specs::Grammar::items_at))]
fn items(words: &mut Words<'_>) -> Result<u64, Fault>
    ensures value { Takes words.new result (items_at words.old) }
    ensures within { IfOk result IsItems }
{
    let found = words.word_or(Fault::Grammar)?;
    items_of(found)
}

// A number of items, or `never`.
#[tactic(auto, unfolding(crate::specs::Grammar::back_at))]
fn back(words: &mut Words<'_>) -> Result<Option<u64>, Fault>
    ensures value { Takes words.new result (back_at words.old) }
    ensures within { IfOk result (λ back. IfSome back IsItems) }
{
    let found = words.word_or(Fault::Grammar)?;
    if is_word(found, "never") {
        return Ok(None);
    }
    let items = items_of(found)?;
    Ok(Some(items))
}

// An order for a replica of the plan.
#[tactic(auto, unfolding(crate::specs::Grammar::order_at))]
pub(crate) fn order(words: &mut Words<'_>, plan: &Plan) -> Result<Order, Fault>
    ensures value { Takes words.new result (order_at plan.now words.old) }
    ensures of_plan { IfOk result (IsOrderOf plan.now) }
{
    let kill = kill(words)?;
    let node = replica(words, plan)?;
    words.fixed_or("at", Fault::Grammar)?;
    let at = items(words)?;
    words.fixed_or("back", Fault::Grammar)?;
    let back = back(words)?;
    words.end_or(Fault::Grammar)?;
    Ok(Order {
        node,
        kill,
        at,
        back,
    })
}
