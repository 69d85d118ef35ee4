// How a run stands at its end.
ghost use Rattle.run_story.specs.StoryText.{end_text, is_takeover};
ghost use Rattle.std.specs.Prelude.{◌≡◌, ◌++◌, OnOk, count_by, string_bytes};

use run_end::{RunEnd, push_run_end};
use run_watch::{Happening, Told};
use tuple_edge::OutOfMemory;

// Whether a leader was named.
fn is_takeover(told: &Told) -> bool
    ensures { result ≡ is_takeover told.now }
{
    match told.happening {
        Happening::Named { .. } => true,
        _ => false,
    }
}

/// How often a leader was named.
pub fn takeovers(told: &[Told]) -> usize
    ensures { result ≡ count_by is_takeover told.now }
{
    let mut count = 0;
    for happened in told {
        if is_takeover(happened) {
            count += 1;
        }
    }
    count
}

// Appends the last lines.
pub(crate) fn push_end(
    text: &mut String,
    takeovers: usize,
    rows: u64,
    end: RunEnd,
    all: u64,
) -> Result<(), OutOfMemory>
    ensures { OnOk result (string_bytes text.new ≡ string_bytes text.old ++ end_text takeovers rows end all) }
{
    write!(text, "takeovers {takeovers}\n")?;
    write!(text, "rows {rows}\nend: ")?;
    push_run_end(text, end, rows, all)?;
    text.push_str("\n")?;
    Ok(())
}
