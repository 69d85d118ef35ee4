// How a run stands, in words.
ghost use Rattle.run_end.specs.Words.{end_words, lost_words};
ghost use Rattle.std.specs.Prelude.{◌≡◌, ◌++◌, OnOk, string_bytes};

use crate::ends::RunEnd;
use tuple_edge::OutOfMemory;

// Appends which pair is lost, and how many rows that cost.
fn push_lost(
    text: &mut String,
    stage: u32,
    part: u32,
    rows: u64,
    all: u64,
) -> Result<(), OutOfMemory>
    ensures { OnOk result (string_bytes text.new ≡ string_bytes text.old ++ lost_words stage part rows all) }
{
    write!(text, "pair {stage}.{part} is lost: ")?;
    write!(text, "{rows} rows, {all} with all")?;
    Ok(())
}

/// Appends how a run stands: "done", "not done", or which pair is lost, with the rows that egress has emitted and all
/// that the plan gives.
pub fn push_run_end(text: &mut String, end: RunEnd, rows: u64, all: u64) -> Result<(), OutOfMemory>
    ensures { OnOk result (string_bytes text.new ≡ string_bytes text.old ++ end_words end rows all) }
{
    match end {
        RunEnd::Done => {
            text.push_str("done")?;
            Ok(())
        }
        RunEnd::Lost { stage, part } => push_lost(text, stage, part, rows, all),
        RunEnd::NotDone => {
            text.push_str("not done")?;
            Ok(())
        }
    }
}
