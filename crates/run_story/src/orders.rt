// The orders of a script that never fired.
ghost use Rattle.run_story.specs.StoryText.{back_text, has_fired, is_back_asked, is_failure, is_stop_asked, order_text, order_word, unasked_text, unfired_text, was_told};
ghost use Rattle.std.specs.List.{flat_map};
ghost use Rattle.std.specs.Prelude.{◌≡◌, ◌++◌, OnOk, string_bytes};

use pair_machine::Order;
use run_journal::push_node;
use run_watch::{Happening, Told};
use tuple_edge::{NodeId, OutOfMemory};

// Whether a replica failed here.
fn is_failure(replica: NodeId, happening: &Happening) -> bool
    ensures { result ≡ is_failure replica happening.now }
{
    match *happening {
        Happening::Failed { node, .. } => node == replica,
        _ => false,
    }
}

// Whether it asked to be stopped here.
fn is_stop_asked(replica: NodeId, happening: &Happening) -> bool
    ensures { result ≡ is_stop_asked replica happening.now }
{
    match *happening {
        Happening::AskedStop { node, .. } => node == replica,
        _ => false,
    }
}

// Whether it was asked back here.
fn is_back_asked(replica: NodeId, happening: &Happening) -> bool
    ensures { result ≡ is_back_asked replica happening.now }
{
    match *happening {
        Happening::AskedBack { node } => node == replica,
        _ => false,
    }
}

// Whether a replica ever failed.
fn has_failed(told: &[Told], replica: NodeId) -> bool
    ensures { result ≡ was_told (is_failure replica) told.now }
{
    told.iter()
        .any(|happened| is_failure(replica, &happened.happening))
}

// Whether it ever asked to be stopped.
fn has_asked(told: &[Told], replica: NodeId) -> bool
    ensures { result ≡ was_told (is_stop_asked replica) told.now }
{
    told.iter()
        .any(|happened| is_stop_asked(replica, &happened.happening))
}

/// Whether a replica was ever asked back.
pub fn is_asked_back(told: &[Told], replica: NodeId) -> bool
    ensures { result ≡ was_told (is_back_asked replica) told.now }
{
    told.iter()
        .any(|happened| is_back_asked(replica, &happened.happening))
}

/// Whether what an order asks of its replica happened.
pub fn has_fired(told: &[Told], order: &Order) -> bool
    ensures { result ≡ has_fired order.now told.now }
{
    if order.kill {
        has_failed(told, order.node)
    } else {
        has_asked(told, order.node)
    }
}

/// Whether an order is to fail or to stop, in a word.
pub fn order_word(kill: bool) -> &'static str
    ensures { result.now ≡ order_word kill }
{
    if kill { "kill" } else { "stop" }
}

// Appends an order that never fired.
fn push_unfired(text: &mut String, order: &Order, fired: bool) -> Result<(), OutOfMemory>
    ensures { OnOk result (string_bytes text.new ≡ string_bytes text.old ++ unfired_text order.now fired) }
{
    if fired {
        return Ok(());
    }
    let word = order_word(order.kill);
    let at = order.at;
    write!(text, "never: {word} ")?;
    push_node(text, order.node)?;
    write!(text, " at {at}\n")?;
    Ok(())
}

// Appends that a replica was never asked back.
fn push_back(text: &mut String, replica: NodeId, back: u64) -> Result<(), OutOfMemory>
    ensures { OnOk result (string_bytes text.new ≡ string_bytes text.old ++ back_text replica back) }
{
    text.push_str("never: back ")?;
    push_node(text, replica)?;
    write!(text, " at {back}\n")?;
    Ok(())
}

// Appends an order whose replica was never asked back.
fn push_unasked(
    text: &mut String,
    replica: NodeId,
    back: Option<u64>,
    asked: bool,
) -> Result<(), OutOfMemory>
    ensures { OnOk result (string_bytes text.new ≡ string_bytes text.old ++ unasked_text replica back asked) }
{
    match back {
        Some(back) if !asked => push_back(text, replica, back),
        Some(_) | None => Ok(()),
    }
}

// Appends what of an order never happened.
fn push_order(text: &mut String, told: &[Told], order: &Order) -> Result<(), OutOfMemory>
    ensures { OnOk result (string_bytes text.new ≡ string_bytes text.old ++ order_text told.now order.now) }
{
    push_unfired(text, order, has_fired(told, order))?;
    push_unasked(
        text,
        order.node,
        order.back,
        is_asked_back(told, order.node),
    )
}

// Appends what of these orders never happened.
pub(crate) fn push_orders(
    text: &mut String,
    told: &[Told],
    orders: &[Order],
) -> Result<(), OutOfMemory>
    ensures { OnOk result (string_bytes text.new ≡ string_bytes text.old ++ flat_map (order_text told.now) orders.now) }
{
    for order in orders {
        push_order(text, told, order)?;
    }
    Ok(())
}
