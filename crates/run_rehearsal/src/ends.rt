// How a run ended.
ghost use Rattle.run_rehearsal.specs.RehearsalText.{counts_text, end_text};
ghost use Rattle.std.specs.Prelude.{◌≡◌, ◌++◌, OnOk, string_bytes};

use run_end::{RunEnd, push_run_end};
use tuple_edge::OutOfMemory;

// Appends how many orders were obeyed, and how many rows were emitted.
fn push_counts(
    text: &mut String,
    obeyed: usize,
    orders: usize,
    rows: u64,
) -> Result<(), OutOfMemory>
    ensures { OnOk result (string_bytes text.new ≡ string_bytes text.old ++ counts_text obeyed orders rows) }
{
    write!(text, "obeyed {obeyed} of {orders} orders\n")?;
    write!(text, "rows {rows}\n")?;
    Ok(())
}

/// Appends the last lines.
pub(crate) fn push_end(
    text: &mut String,
    obeyed: usize,
    orders: usize,
    rows: u64,
    end: RunEnd,
    all: u64,
) -> Result<(), OutOfMemory>
    ensures { OnOk result (string_bytes text.new ≡ string_bytes text.old ++ end_text obeyed orders rows end all) }
{
    push_counts(text, obeyed, orders, rows)?;
    push_run_end(text, end, rows, all)?;
    text.push_str("\n")?;
    Ok(())
}
