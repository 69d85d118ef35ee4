// The values of a case that is made more than once.
use std::alloc::Global;
use tuple_edge::OutOfMemory;

/// Between two values of a line.
const BETWEEN: &str = " | ";

// The three numbers of a range.
fn read_range(text: &str) -> Option<(u32, u32, u32)> {
    let mut words = text.split(' ');
    let first = words.next()?.parse::<u32>().ok()?;
    let last = words.next()?.parse::<u32>().ok()?;
    let step = words.next()?.parse::<u32>().ok()?;
    if words.next().is_some() {
        return None;
    }
    Some((first, last, step))
}

// Appends the numbers of a range, and says whether it has a form.
fn push_range(alloc: Global, text: &str, into: &mut Vec<String>) -> Result<bool, OutOfMemory> {
    let Some((first, last, step)) = read_range(text) else {
        return Ok(false);
    };
    for number in first..=last {
        if number.wrapping_sub(first).checked_rem(step) == Some(0) {
            into.push(format!(in alloc; "{number}")?)?;
        }
    }
    Ok(true)
}

/// Appends the values that a line gives, and says whether it has a form. Most lines give none.
pub(crate) fn push_values(
    alloc: Global,
    line: &str,
    into: &mut Vec<String>,
) -> Result<bool, OutOfMemory> {
    if let Some(range) = line.strip_prefix("range ") {
        return push_range(alloc, range, into);
    }
    if let Some(values) = line.strip_prefix("with ") {
        into.push(String::from_str(alloc, values)?)?;
    }
    Ok(true)
}

// The value of this number, from 1.
fn value_of<'a>(values: &'a str, number: &str) -> Option<&'a str> {
    let place = number.parse::<usize>().ok()?.checked_sub(1)?;
    values.split(BETWEEN).nth(place)
}

/// A line with values in place of their numbers between two `@`. None where there is no such value.
pub(crate) fn filled(
    alloc: Global,
    line: &str,
    values: &str,
) -> Result<Option<String>, OutOfMemory> {
    let mut text = String::new(alloc);
    for (place, piece) in line.split('@').enumerate() {
        if place % 2 == 0 {
            text.push_str(piece)?;
        } else {
            let Some(value) = value_of(values, piece) else {
                return Ok(None);
            };
            text.push_str(value)?;
        }
    }
    Ok(Some(text))
}
