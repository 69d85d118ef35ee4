// What is shown of a text.
use std::alloc::Global;
use tuple_edge::OutOfMemory;

/// A text of more lines is cut short, where it isn't to be shown whole.
pub(crate) const MAX_LINES: usize = 40;

/// So many of its lines are then shown, at its front and at its end.
const SHOWN_LINES: usize = 3;

/// Appends a line, with this at its front.
pub(crate) fn push_line(shown: &mut Vec<u8>, front: &str, line: &[u8]) -> Result<(), OutOfMemory> {
    shown.extend_from_slice(front.as_bytes())?;
    shown.extend_from_slice(line)?;
    shown.push(b'\n')?;
    Ok(())
}

// The sum of a text: 64 bits of FNV-1a.
fn sum_of(text: &[u8]) -> u64 {
    let mut sum = 0xcbf2_9ce4_8422_2325u64;
    for byte in text {
        sum = (sum ^ u64::from(*byte)).wrapping_mul(0x0000_0100_0000_01b3);
    }
    sum
}

// Appends the line that stands for all lines between.
fn push_cut(
    alloc: Global,
    shown: &mut Vec<u8>,
    text: &[u8],
    lines: usize,
) -> Result<(), OutOfMemory> {
    let more = lines.saturating_sub(2 * SHOWN_LINES);
    let sum = sum_of(text);
    let line = format!(in alloc; "{more} more lines, {sum:016x}")?;
    push_line(shown, ".. ", line.as_bytes())
}

/// Appends a text with this before each line. Of more lines than so many only a few are shown.
pub(crate) fn push_text(
    alloc: Global,
    shown: &mut Vec<u8>,
    most_lines: usize,
    front: &str,
    text: &[u8],
) -> Result<(), OutOfMemory> {
    if text.is_empty() {
        return Ok(());
    }
    let body = text.strip_suffix(b"\n").unwrap_or(text);
    let lines = body.split(|byte| *byte == b'\n').count();
    for (place, line) in body.split(|byte| *byte == b'\n').enumerate() {
        if lines <= most_lines
            || place < SHOWN_LINES
            || lines.saturating_sub(place) <= SHOWN_LINES
        {
            push_line(shown, front, line)?;
        } else if place == SHOWN_LINES {
            push_cut(alloc, shown, text, lines)?;
        }
    }
    if !text.ends_with(b"\n") {
        push_line(shown, "\\ ", b"no line end")?;
    }
    Ok(())
}

// A row of a line: `34200,7,-,1,100`, or that behind the word `row`.
fn row_of(line: &[u8]) -> Option<&[u8]> {
    let row = line.strip_prefix(b"row ").unwrap_or(line);
    let time = row.split(|byte| *byte == b',').next()?;
    let is_time = time.len() < row.len() && time.iter().all(|byte| byte.is_ascii_digit());
    if is_time { Some(row) } else { None }
}

/// The rows of a text: of an output, or of a state.
pub(crate) fn rows_of(alloc: Global, text: &[u8]) -> Result<Vec<u8>, OutOfMemory> {
    let mut rows = Vec::new(alloc);
    for line in text.split(|byte| *byte == b'\n') {
        if let Some(row) = row_of(line) {
            push_line(&mut rows, "", row)?;
        }
    }
    Ok(rows)
}

/// The last line of a text, with its end.
pub(crate) fn last_of(text: &[u8]) -> &[u8] {
    let last = text.split_inclusive(|byte| *byte == b'\n').last();
    last.unwrap_or(b"")
}
