// What a script's orders ask for, in sentences.
ghost use Rattle.std.specs.Prelude.{◌≡◌, ◌++◌, flat_map, OnOk, option_map, string_bytes};
ghost use Rattle.plan_check.specs.Sentences.{asked_text, kind_text, order_sentence, orders_text, return_text, script_sentences};

use crate::words;
use failure_script::Script;
use pair_machine::Order;
use run_journal::push_node;
use tuple_edge::{NodeId, OutOfMemory};

// What may happen to the replica of an order.
fn kind_text(kill: bool) -> &'static str
    ensures { result.now ≡ kind_text kill }
{
    if kill {
        "may fail"
    } else {
        "may ask to be stopped"
    }
}

// Appends that a replica may be asked for by its partner.
fn push_asked(text: &mut String, partner: NodeId, back: u64) -> Result<(), OutOfMemory>
    ensures { OnOk result (string_bytes text.new ≡ string_bytes text.old ++ asked_text partner back) }
{
    text.push_str("; ")?;
    push_node(text, partner)?;
    write!(text, " may ask it back once it has merged {back}")?;
    Ok(())
}

// Appends when the replica of an order may be asked for again.
fn push_return(text: &mut String, order: &Order) -> Result<(), OutOfMemory>
    ensures { OnOk result (string_bytes text.new ≡ string_bytes text.old ++ return_text order.now order.now.back) }
{
    match order.back {
        None => text.push_str("; it isn't asked back")?,
        Some(back) => push_asked(text, order.node.partner(), back)?,
    }
    Ok(())
}

// Appends the sentence of an order.
fn push_order(text: &mut String, order: &Order) -> Result<(), OutOfMemory>
    ensures { OnOk result (string_bytes text.new ≡ string_bytes text.old ++ order_sentence order.now) }
{
    let at = order.at;
    let kind = kind_text(order.kill);
    text.push_str("  ")?;
    words::push_order(text, order)?;
    text.push_str(": ")?;
    push_node(text, order.node)?;
    write!(text, " {kind} once it has merged {at} items")?;
    push_return(text, order)?;
    text.push_str(".\n")?;
    Ok(())
}

// Appends the sentences of orders.
fn push_orders(text: &mut String, orders: &[Order]) -> Result<(), OutOfMemory>
    ensures { OnOk result (string_bytes text.new ≡ string_bytes text.old ++ flat_map order_sentence orders.now) }
{
    for order in orders {
        push_order(text, order)?;
    }
    Ok(())
}

// Appends how many orders there are, and the sentence of each.
fn push_given(text: &mut String, orders: &[Order]) -> Result<(), OutOfMemory>
    ensures { OnOk result (string_bytes text.new ≡ string_bytes text.old ++ orders_text orders.now) }
{
    let count = orders.len();
    write!(text, "Orders of the script: {count}.\n")?;
    push_orders(text, orders)?;
    Ok(())
}

/// Appends what a script asks for, where there is one.
pub fn push_script(text: &mut String, script: Option<&Script>) -> Result<(), OutOfMemory>
    ensures { OnOk result (string_bytes text.new ≡ string_bytes text.old ++ script_sentences (option_map (λ s. s.now) script.entry)) }
{
    match script {
        None => {}
        Some(script) => push_given(text, script.orders())?,
    }
    Ok(())
}
