// One case: what its lines come to, once or for each of its values.
use crate::line::read_line;
use crate::show::push_line;
use crate::stage::Stage;
use crate::stop::Stop;
use crate::values::{filled, push_values};
use std::alloc::Global;
use std::thread::Threads;

/// Lines of a file that stand one behind the other, and the number of the first of them.
#[derive(Clone, Copy)]
pub(crate) struct Lines<'a> {
    pub(crate) first: usize,
    pub(crate) all: &'a [&'a str],
}

// The numbers of the calls of files that fail in a case.
fn fails_of(alloc: Global, body: Lines<'_>) -> Result<Vec<u64>, Stop> {
    let mut fails = Vec::new(alloc);
    for (place, line) in body.all.iter().enumerate() {
        if let Some(numbers) = line.strip_prefix("fails ") {
            for word in numbers.split(' ') {
                let Ok(number) = word.parse::<u64>() else {
                    return Err(no_form(body, place));
                };
                fails.push(number)?;
            }
        }
    }
    Ok(fails)
}

// The values of a case: none where it is made but once.
fn values_of(alloc: Global, body: Lines<'_>) -> Result<Vec<String>, Stop> {
    let mut values = Vec::new(alloc);
    for (place, line) in body.all.iter().enumerate() {
        if !push_values(alloc, line, &mut values)? {
            return Err(no_form(body, place));
        }
    }
    Ok(values)
}

// The fault of one of these lines.
fn no_form(lines: Lines<'_>, place: usize) -> Stop {
    Stop::NoForm {
        line: lines.first.saturating_add(place),
    }
}

// Takes these lines one after another, with values where there are some.
fn take_lines<R: Threads + Sync>(
    rt: &R,
    alloc: Global,
    stage: &mut Stage,
    lines: Lines<'_>,
    values: Option<&str>,
) -> Result<(), Stop> {
    for (place, line) in lines.all.iter().enumerate() {
        if !take_line(rt, alloc, stage, line, values)? {
            return Err(no_form(lines, place));
        }
    }
    Ok(())
}

// Takes a line, and says whether it has a form.
fn take_line<R: Threads + Sync>(
    rt: &R,
    alloc: Global,
    stage: &mut Stage,
    written: &str,
    values: Option<&str>,
) -> Result<bool, Stop> {
    match values {
        None => take_text(rt, stage, written, written),
        Some(values) => match filled(alloc, written, values)? {
            None => Ok(false),
            Some(text) => take_text(rt, stage, written, text.as_str()),
        },
    }
}

// Takes a line as it is with its values.
fn take_text<R: Threads + Sync>(
    rt: &R,
    stage: &mut Stage,
    written: &str,
    text: &str,
) -> Result<bool, Stop> {
    match read_line(text) {
        None => Ok(false),
        Some(line) => Ok(stage.take(rt, written, line)?),
    }
}

// What is shown of a case that is made once, with these values. The lines before the first case are taken first.
fn shown_once<R: Threads + Sync>(
    rt: &R,
    alloc: Global,
    head: Lines<'_>,
    body: Lines<'_>,
    values: Option<&str>,
    most_lines: usize,
) -> Result<Vec<u8>, Stop> {
    let mut stage = Stage::new(alloc, fails_of(alloc, body)?, most_lines);
    take_lines(rt, alloc, &mut stage, head, None)?;
    take_lines(rt, alloc, &mut stage, body, values)?;
    Ok(stage.into_shown())
}

// Appends what is shown of a case with other values than the first ones, where it is something else, and says whether
// it is.
fn push_other(values: &str, first: &[u8], other: &[u8], shown: &mut Vec<u8>) -> Result<bool, Stop> {
    if other == first {
        return Ok(false);
    }
    push_line(shown, "-- with ", values.as_bytes())?;
    shown.extend_from_slice(other)?;
    Ok(true)
}

// Appends what is shown of a case with its first values, each time that something else is shown with others, and how
// often it was the same.
fn run_each<R: Threads + Sync>(
    rt: &R,
    alloc: Global,
    head: Lines<'_>,
    body: Lines<'_>,
    values: &[String],
    most_lines: usize,
    shown: &mut Vec<u8>,
) -> Result<(), Stop> {
    let Some((value, others)) = values.split_first() else {
        return Ok(());
    };
    let first = shown_once(rt, alloc, head, body, Some(value.as_str()), most_lines)?;
    shown.extend_from_slice(first.as_slice())?;
    let mut alike = 0u32;
    for value in others {
        let other = shown_once(rt, alloc, head, body, Some(value.as_str()), most_lines)?;
        if !push_other(value.as_str(), first.as_slice(), other.as_slice(), shown)? {
            alike = alike.saturating_add(1);
        }
    }
    let line = format!(in alloc; "{alike} more alike")?;
    push_line(shown, "-- ", line.as_bytes())?;
    Ok(())
}

/// Appends what is shown of a case, with texts of more lines than so many cut short.
pub(crate) fn run_case<R: Threads + Sync>(
    rt: &R,
    alloc: Global,
    head: Lines<'_>,
    body: Lines<'_>,
    most_lines: usize,
    shown: &mut Vec<u8>,
) -> Result<(), Stop> {
    let values = values_of(alloc, body)?;
    if !values.is_empty() {
        return run_each(rt, alloc, head, body, values.as_slice(), most_lines, shown);
    }
    let once = shown_once(rt, alloc, head, body, None, most_lines)?;
    shown.extend_from_slice(once.as_slice())?;
    Ok(())
}
