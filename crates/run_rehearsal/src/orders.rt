// The lines of orders.
ghost use Rattle.run_rehearsal.specs.Fates.{asked_back_at, obeyed_at};
ghost use Rattle.run_rehearsal.specs.Merged.{merged_seen};
ghost use Rattle.run_rehearsal.specs.RehearsalText.{absent_text, asked_text, back_line, fate_text, never_text, order_line, order_text, order_word, place_text, reached_word};
ghost use Rattle.std.specs.List.{flat_map};
ghost use Rattle.std.specs.Prelude.{◌≡◌, ◌++◌, OnOk, Some, string_bytes};

use crate::fates::{asked_back_at, obeyed_at};
use crate::merged::merged_seen;
use flux_core::Core;
use pair_machine::Order;
use run_journal::push_node;
use run_watch::Told;
use tuple_edge::{NodeId, OutOfMemory};

// Appends where an order was obeyed.
fn push_place(text: &mut String, told: &Told) -> Result<(), OutOfMemory>
    ensures { OnOk result (string_bytes text.new ≡ string_bytes text.old ++ place_text told.now) }
{
    let (place, made, emitted) = (told.place, told.made, told.emitted);
    write!(text, "obeyed at event {place}")?;
    write!(text, ", in {made} out {emitted}")?;
    Ok(())
}

fn reached_word(reached: bool) -> &'static str
    ensures { result.now ≡ reached_word reached }
{
    if reached {
        "was reached"
    } else {
        "was not reached"
    }
}

// Appends that a replica didn't run at the end, for which an order waits.
fn push_absent(text: &mut String, replica: NodeId) -> Result<(), OutOfMemory>
    ensures { OnOk result (string_bytes text.new ≡ string_bytes text.old ++ absent_text replica) }
{
    text.push_str("never obeyed: ")?;
    push_node(text, replica)?;
    text.push_str(" did not run at the end")?;
    Ok(())
}

// Appends why an order was never obeyed that waits for so many items of a replica.
fn push_short(text: &mut String, replica: NodeId, least: u64, count: u64) -> Result<(), OutOfMemory>
    ensures { OnOk result (string_bytes text.new ≡ string_bytes text.old ++ never_text replica least (Some count)) }
{
    let word = reached_word(least <= count);
    write!(text, "never obeyed, and the count {word}: ")?;
    push_node(text, replica)?;
    write!(text, " had merged {count} items at the end")?;
    Ok(())
}

// Appends what became of an order that waits for so many items of a replica.
fn push_fate(
    text: &mut String,
    replica: NodeId,
    least: u64,
    merged: Option<u64>,
    obeyed: Option<Told>,
) -> Result<(), OutOfMemory>
    ensures { OnOk result (string_bytes text.new ≡ string_bytes text.old ++ fate_text replica least merged obeyed) }
{
    match (obeyed, merged) {
        (Some(told), _) => push_place(text, &told),
        (None, None) => push_absent(text, replica),
        (None, Some(count)) => push_short(text, replica, least, count),
    }
}

fn order_word(kill: bool) -> &'static str
    ensures { result.now ≡ order_word kill }
{
    if kill { "kill" } else { "stop" }
}

// Appends what is asked of a replica.
fn push_asked(text: &mut String, word: &str, replica: NodeId, least: u64) -> Result<(), OutOfMemory>
    ensures { OnOk result (string_bytes text.new ≡ string_bytes text.old ++ asked_text word.now replica least) }
{
    text.push_str(word)?;
    text.push_str(" ")?;
    push_node(text, replica)?;
    write!(text, " at {least}: ")?;
    Ok(())
}

// Appends the line of an order's failure or stop.
fn push_order_line(
    text: &mut String,
    told: &[Told],
    core: &Core,
    order: &Order,
) -> Result<(), OutOfMemory>
    ensures { OnOk result (string_bytes text.new ≡ string_bytes text.old ++ order_line told.now (merged_seen core.now) order.now) }
{
    let merged = merged_seen(core, order.node);
    push_asked(text, order_word(order.kill), order.node, order.at)?;
    push_fate(text, order.node, order.at, merged, obeyed_at(told, order))?;
    text.push_str("\n")?;
    Ok(())
}

// Appends the line of an order's way back.
fn push_back_at(
    text: &mut String,
    told: &[Told],
    merged: Option<u64>,
    order: &Order,
    back: u64,
) -> Result<(), OutOfMemory>
    ensures { OnOk result (string_bytes text.new ≡ string_bytes text.old ++ back_line told.now merged order.now (Some back)) }
{
    push_asked(text, "back", order.node, back)?;
    push_fate(
        text,
        order.node.partner(),
        back,
        merged,
        asked_back_at(told, order.node),
    )?;
    text.push_str("\n")?;
    Ok(())
}

// Appends the line of an order's way back, where it says one.
fn push_back_line(
    text: &mut String,
    told: &[Told],
    merged: Option<u64>,
    order: &Order,
) -> Result<(), OutOfMemory>
    ensures { OnOk result (string_bytes text.new ≡ string_bytes text.old ++ back_line told.now merged order.now order.now.back) }
{
    match order.back {
        None => Ok(()),
        Some(back) => push_back_at(text, told, merged, order, back),
    }
}

// Appends the lines of an order.
fn push_order(
    text: &mut String,
    told: &[Told],
    core: &Core,
    order: &Order,
) -> Result<(), OutOfMemory>
    ensures { OnOk result (string_bytes text.new ≡ string_bytes text.old ++ order_text told.now (merged_seen core.now) order.now) }
{
    let merged = merged_seen(core, order.node.partner());
    push_order_line(text, told, core, order)?;
    push_back_line(text, told, merged, order)
}

/// Appends the lines of all orders.
pub(crate) fn push_orders(
    text: &mut String,
    told: &[Told],
    core: &Core,
    orders: &[Order],
) -> Result<(), OutOfMemory>
    ensures { OnOk result (string_bytes text.new ≡ string_bytes text.old ++ flat_map (order_text told.now (merged_seen core.now)) orders.now) }
{
    for order in orders {
        push_order(text, told, core, order)?;
    }
    Ok(())
}
