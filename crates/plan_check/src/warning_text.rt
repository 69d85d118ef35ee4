// The lines of warnings.
ghost use Rattle.std.specs.Prelude.{◌≡◌, ◌++◌, flat_map, OnOk, string_bytes};
ghost use Rattle.plan_check.specs.Text.{alone_text, partitions_of, warned, warning_line};
ghost use Rattle.plan_check.specs.declared.warning.Warning.TheVariants as warning;

use crate::warning::{Numbered, Warning};
use crate::words::{push_order, push_stage};
use pair_machine::Order;
use plan_reader::column_name;
use tuple_edge::OutOfMemory;

// Appends that partitions wait long for an edge without rows.
fn push_long_mark(text: &mut String, mark: u64) -> Result<(), OutOfMemory>
    ensures { OnOk result (string_bytes text.new ≡ string_bytes text.old ++ warned (warning.LongMark mark)) }
{
    write!(
        text,
        "mark {mark}: a partition to which no row comes on some edge waits for up to so many rows"
    )?;
    Ok(())
}

// Appends that ingress stops in the midst of its turns.
fn push_short_hold(text: &mut String, hold: u64) -> Result<(), OutOfMemory>
    ensures { OnOk result (string_bytes text.new ≡ string_bytes text.old ++ warned (warning.ShortHold hold)) }
{
    write!(
        text,
        "hold {hold}: ingress stops once an edge holds so many items, and partitions wait for its next turn"
    )?;
    Ok(())
}

// Appends that rows of one key come to several partitions.
fn push_split(text: &mut String, stage: &Numbered) -> Result<(), OutOfMemory>
    ensures { OnOk result (string_bytes text.new ≡ string_bytes text.old ++ warned (warning.SplitKeys stage.now)) }
{
    let by = column_name(stage.stage.by);
    let parts = stage.stage.parts;
    push_stage(text, stage)?;
    write!(
        text,
        ": the key doesn't hold {by}, by which rows go to {parts} partitions; rows of one key come to several partitions, and each sums for itself"
    )?;
    Ok(())
}

// Appends that a stage adds up sums.
fn push_sums(text: &mut String, stage: &Numbered, sums: &Numbered) -> Result<(), OutOfMemory>
    ensures { OnOk result (string_bytes text.new ≡ string_bytes text.old ++ warned (warning.SumsOfSums stage.now sums.now)) }
{
    push_stage(text, stage)?;
    text.push_str(": it adds up rows that are sums already, those of ")?;
    push_stage(text, sums)?;
    Ok(())
}

// Appends that a stage adds up rows in the order in which windows close.
fn push_time(text: &mut String, stage: &Numbered, window: &Numbered) -> Result<(), OutOfMemory>
    ensures { OnOk result (string_bytes text.new ≡ string_bytes text.old ++ warned (warning.TimeOrder stage.now window.now)) }
{
    push_stage(text, stage)?;
    text.push_str(": it adds up rows of several keys of ")?;
    push_stage(text, window)?;
    text.push_str(
        ", and they come in the order in which its windows close, not in that of their times",
    )?;
    Ok(())
}

// Appends the partitions of a stage, and by which column rows go to them.
fn push_partitions(text: &mut String, stage: &Numbered) -> Result<(), OutOfMemory>
    ensures { OnOk result (string_bytes text.new ≡ string_bytes text.old ++ partitions_of stage.now) }
{
    let by = column_name(stage.stage.by);
    let parts = stage.stage.parts;
    write!(text, "of the {parts} partitions by {by} of ")?;
    push_stage(text, stage)?;
    Ok(())
}

// Appends that rows of one key come to a stage partition by partition.
fn push_dealt(text: &mut String, stage: &Numbered, dealt: &Numbered) -> Result<(), OutOfMemory>
    ensures { OnOk result (string_bytes text.new ≡ string_bytes text.old ++ warned (warning.PartOrder stage.now dealt.now)) }
{
    push_stage(text, stage)?;
    text.push_str(": rows of one key come from several ")?;
    push_partitions(text, dealt)?;
    text.push_str(
        "; at the end they come partition by partition, so what it tells depends on their number",
    )?;
    Ok(())
}

// Appends that rows of one key leave the plan partition by partition.
fn push_leaving(text: &mut String, dealt: &Numbered) -> Result<(), OutOfMemory>
    ensures { OnOk result (string_bytes text.new ≡ string_bytes text.old ++ warned (warning.LeavingOrder dealt.now)) }
{
    text.push_str("rows of one key leave the plan from several ")?;
    push_partitions(text, dealt)?;
    text.push_str(
        "; at the end they come partition by partition, so their order depends on their number",
    )?;
    Ok(())
}

// Appends that two orders aren't safe.
fn push_unsafe(text: &mut String, first: &Order, second: &Order) -> Result<(), OutOfMemory>
    ensures { OnOk result (string_bytes text.new ≡ string_bytes text.old ++ warned (warning.Unsafe first.now second.now)) }
{
    text.push_str("the script isn't safe, as ")?;
    push_order(text, first)?;
    text.push_str(" and ")?;
    push_order(text, second)?;
    text.push_str(" are of one pair; it may be lost")?;
    Ok(())
}

// What isn't done for want of a partner.
fn alone_text(back: bool) -> &'static str
    ensures { result.now ≡ alone_text back }
{
    if back {
        "isn't asked back"
    } else {
        "isn't stopped until its partner is up again"
    }
}

// Appends that the partner may be down when an order, or its back, is due.
fn push_alone(
    text: &mut String,
    order: &Order,
    back: bool,
    items: u64,
    partner: &Order,
) -> Result<(), OutOfMemory>
    ensures { OnOk result (string_bytes text.new ≡ string_bytes text.old ++ warned (warning.Alone order.now back items partner.now)) }
{
    let what = alone_text(back);
    push_order(text, order)?;
    text.push_str(": by ")?;
    push_order(text, partner)?;
    write!(
        text,
        " its partner may be down after {items} items, and then it {what}"
    )?;
    Ok(())
}

// Appends what is warned of.
fn push_warned(text: &mut String, warning: &Warning) -> Result<(), OutOfMemory>
    ensures { OnOk result (string_bytes text.new ≡ string_bytes text.old ++ warned warning.now) }
{
    match warning {
        Warning::LongMark { mark } => push_long_mark(text, *mark),
        Warning::ShortHold { hold } => push_short_hold(text, *hold),
        Warning::SplitKeys { stage } => push_split(text, stage),
        Warning::SumsOfSums { stage, sums } => push_sums(text, stage, sums),
        Warning::TimeOrder { stage, window } => push_time(text, stage, window),
        Warning::PartOrder { stage, dealt } => push_dealt(text, stage, dealt),
        Warning::LeavingOrder { dealt } => push_leaving(text, dealt),
        Warning::Unsafe { first, second } => push_unsafe(text, first, second),
        Warning::Alone {
            order,
            back,
            items,
            partner,
        } => push_alone(text, order, *back, *items, partner),
    }
}

// Appends the line of a warning.
fn push_line(text: &mut String, warning: &Warning) -> Result<(), OutOfMemory>
    ensures { OnOk result (string_bytes text.new ≡ string_bytes text.old ++ warning_line warning.now) }
{
    text.push_str("Warning: ")?;
    push_warned(text, warning)?;
    text.push_str(".\n")?;
    Ok(())
}

// Appends the lines of warnings.
pub(crate) fn push_lines(text: &mut String, warnings: &[Warning]) -> Result<(), OutOfMemory>
    ensures { OnOk result (string_bytes text.new ≡ string_bytes text.old ++ flat_map warning_line warnings.now) }
{
    for warning in warnings {
        push_line(text, warning)?;
    }
    Ok(())
}
