// The lines of warnings of a script's counts.
ghost use Rattle.std.specs.Prelude.{◌≡◌, ◌++◌, flat_map, OnOk, string_bytes};
ghost use Rattle.trade_check.specs.Text.{count_warned, order_line, reach_text};

use crate::warning::CountWarning;
use plan_check::push_order;
use run_journal::push_node;
use tuple_edge::OutOfMemory;

// Appends whether a replica that merges so many items comes to a count at all.
fn push_reach(text: &mut String, items: u64, count: u64) -> Result<(), OutOfMemory>
    ensures { OnOk result (string_bytes text.new ≡ string_bytes text.old ++ reach_text items count) }
{
    if items < count {
        write!(text, "never comes to {count}")?;
    } else {
        write!(
            text,
            "may come to {count} only in its last turn, which is too late"
        )?;
    }
    Ok(())
}

// Appends to which count of an order a replica doesn't come in time.
fn push_warned(text: &mut String, warning: &CountWarning) -> Result<(), OutOfMemory>
    ensures { OnOk result (string_bytes text.new ≡ string_bytes text.old ++ count_warned warning.now) }
{
    let items = warning.items;
    push_order(text, &warning.order)?;
    text.push_str(": ")?;
    push_node(text, warning.replica)?;
    write!(text, " merges {items} items with these inputs, so it ")?;
    push_reach(text, items, warning.count)?;
    Ok(())
}

// Appends the line of a warning.
fn push_line(text: &mut String, warning: &CountWarning) -> Result<(), OutOfMemory>
    ensures { OnOk result (string_bytes text.new ≡ string_bytes text.old ++ order_line warning.now) }
{
    text.push_str("Warning: ")?;
    push_warned(text, warning)?;
    text.push_str(".\n")?;
    Ok(())
}

/// Appends the lines of warnings.
pub(crate) fn push_lines(text: &mut String, warnings: &[CountWarning]) -> Result<(), OutOfMemory>
    ensures { OnOk result (string_bytes text.new ≡ string_bytes text.old ++ flat_map order_line warnings.now) }
{
    for warning in warnings {
        push_line(text, warning)?;
    }
    Ok(())
}
