// A file of cases: the lines before the first case, and the cases.
use crate::case::{Lines, run_case};
use crate::show::push_line;
use crate::stop::Stop;
use std::alloc::Global;
use std::thread::Threads;

// Whether a line begins a case, and with which name.
fn case_name(line: &str) -> Option<&str> {
    line.strip_prefix("case ")
}

// The place of the first line from here on that begins a case, or the end.
fn next_case(lines: &[&str], from: usize) -> usize {
    match lines
        .iter()
        .skip(from)
        .position(|line| case_name(line).is_some())
    {
        Some(ahead) => from.saturating_add(ahead),
        None => lines.len(),
    }
}

// The lines from one place to another.
fn lines_between<'a>(lines: &'a [&'a str], from: usize, to: usize) -> Lines<'a> {
    Lines {
        first: from.saturating_add(1),
        all: lines.get(from..to).unwrap_or(&[]),
    }
}

/// Appends what is shown of the cases of a file with this name and text. What a case writes of more lines than so many is cut short.
pub(crate) fn run_text<R: Threads + Sync>(
    rt: &R,
    alloc: Global,
    name: &str,
    text: &str,
    most_lines: usize,
    shown: &mut Vec<u8>,
) -> Result<(), Stop> {
    let lines: Vec<&str> = text.lines().collect(alloc)?;
    let lines = lines.as_slice();
    let head = lines_between(lines, 0, next_case(lines, 0));
    for (place, line) in lines.iter().enumerate() {
        if let Some(case) = case_name(line) {
            let title = format!(in alloc; "{name}: {case}")?;
            push_line(shown, "== ", title.as_bytes())?;
            let body = lines_between(lines, place, next_case(lines, place.saturating_add(1)));
            run_case(rt, alloc, head, body, most_lines, shown)?;
        }
    }
    Ok(())
}
