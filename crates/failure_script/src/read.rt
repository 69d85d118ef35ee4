// How a script is read.
ghost use Rattle.std.specs.Prelude.{All, IfOk};
ghost use Rattle.text_words.specs.Reading.{Takes};
ghost use Rattle.failure_script.specs.Orders.{IsOrderOf};
ghost use Rattle.failure_script.specs.Script.{Gives, next_order, orders_after, script_of, with_line};

use crate::error::Fault;
use crate::words::order;
use crate::{Script, ScriptError};
use pair_machine::Order;
use plan_reader::Plan;
use std::alloc::Global;
use text_words::{Line, Lines, Words};

/// The greatest length of a script's text, in bytes.
pub const MAX_SCRIPT_BYTES: u64 = 65_536;

// The order of a line, where the lines before it have none for its replica.
#[tactic(auto, unfolding(crate::specs::Script::next_order))]
fn next_order(words: &mut Words<'_>, plan: &Plan, before: &Script) -> Result<Order, Fault>
    ensures value { Takes words.new result (next_order plan.now before.now words.old) }
    ensures of_plan { IfOk result (IsOrderOf plan.now) }
{
    let order = order(words, plan)?;
    if before.has_order_for(order.node) {
        Err(Fault::Twice)
    } else {
        Ok(order)
    }
}

// Adds the order of a line.
#[tactic(auto, unfolding(crate::specs::Script::with_line))]
fn take(mut line: Line<'_>, plan: &Plan, script: &mut Script) -> Result<(), ScriptError>
    requires { All (IsOrderOf plan.now) script.old }
    ensures value { Gives (λ x. script.new) result (with_line plan.now script.old (record { number = line.entry.number; words = line.entry.words })) }
    ensures of_plan { All (IsOrderOf plan.now) script.new }
{
    match next_order(&mut line.words, plan, script) {
        Err(fault) => Err(fault.at(line.number)),
        Ok(order) => {
            script.push(order)?;
            Ok(())
        }
    }
}

// Adds the orders of all further lines.
#[tactic(auto, unfolding(crate::specs::Script::orders_after))]
fn take_all(lines: &mut Lines<'_>, plan: &Plan, script: &mut Script) -> Result<(), ScriptError>
    requires { All (IsOrderOf plan.now) script.old }
    ensures value { Gives (λ x. script.new) result (orders_after plan.now script.old lines.old) }
    ensures of_plan { All (IsOrderOf plan.now) script.new }
{
    while let Some(line) = lines.next_line() {
        take(line, plan, script)?;
    }
    Ok(())
}

/// The script that a text says, for this plan, or the first of its faults. A text without a line that
/// counts is the empty script.
#[tactic(auto, unfolding(crate::specs::Script::script_of))]
pub fn read_script(alloc: Global, bytes: &[u8], plan: &Plan) -> Result<Script, ScriptError>
    ensures reads { Gives (λ s. s) result (script_of plan.now bytes.now) }
    ensures of_plan { IfOk result (All (IsOrderOf plan.now)) }
{
    let length = bytes.len() as u64;
    if length > MAX_SCRIPT_BYTES {
        return Err(ScriptError::TooLong { bytes: length });
    }
    let mut script = Script::empty(alloc);
    take_all(&mut Lines::new(bytes), plan, &mut script)?;
    Ok(script)
}
