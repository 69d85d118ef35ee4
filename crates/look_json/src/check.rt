// The text of a check as JSON.
ghost use Rattle.look_json.specs.CheckJson.{check_data, check_json, check_line, sound_data, warning_in};
ghost use Rattle.serde_json.specs.View.{view};
ghost use Rattle.std.specs.List.{flat_map};
ghost use Rattle.std.specs.Prelude.{◌≡◌, ◌++◌, IfOk, OnOk, map, option_map};
ghost use Rattle.std.specs.Str.Lines.{lines};

use crate::line::push_line;
use serde_json::{Value, json};
use std::alloc::{AllocError, Global};
use tuple_edge::OutOfMemory;

// What a line warns of, if it is the line of a warning.
fn warning_in(line: &str) -> Option<&str>
    ensures { option_map (λ warning. warning.now) result ≡ warning_in line.now }
{
    line.strip_prefix("Warning: ")
}

// A warning, or else the line as it stands, as a value.
fn sound_value(alloc: Global, warning: Option<&str>, line: &str) -> Result<Value, OutOfMemory>
    ensures { IfOk result (λ value. view value ≡ sound_data (option_map (λ w. w.now) warning.entry) line.now) }
{
    match warning {
        Some(warning) => {
            let value = json!(in alloc; {"warning": warning})?;
            Ok(value)
        }
        None => {
            let value = json!(in alloc; {"says": line})?;
            Ok(value)
        }
    }
}

// A line, as a value.
fn check_value(alloc: Global, line: &str, faulty: bool) -> Result<Value, OutOfMemory>
    ensures { IfOk result (λ value. view value ≡ check_data faulty line.now) }
{
    if faulty {
        let value = json!(in alloc; {"fault": line})?;
        return Ok(value);
    }
    sound_value(alloc, warning_in(line), line)
}

// Appends a line.
#[tactic(auto, using(crate::proofs::Floats::check_has_none))]
fn push_check(
    text: &mut Vec<u8>,
    alloc: Global,
    line: &str,
    faulty: bool,
) -> Result<(), OutOfMemory>
    ensures { OnOk result (text.new.items ≡ text.old.items ++ check_line faulty line.now) }
{
    let value = check_value(alloc, line, faulty)?;
    push_line(text, alloc, &value)
}

// Appends these lines.
fn push_lines(
    text: &mut Vec<u8>,
    alloc: Global,
    lines: &[&str],
    faulty: bool,
) -> Result<(), OutOfMemory>
    ensures { OnOk result (text.new.items ≡ text.old.items ++ flat_map (λ line. check_line faulty line.now) lines.now) }
{
    for line in lines {
        push_check(text, alloc, line, faulty)?;
    }
    Ok(())
}

// The lines of a text.
fn lines_of(alloc: Global, text: &str) -> Result<Vec<&str>, AllocError>
    ensures { IfOk result (λ found. map (λ line. line.now) found.items ≡ lines text.now) }
{
    text.lines().collect(alloc)
}

/// The lines of a text of `check`, each by its kind: one of a fault, where the text tells why files are refused; or else
/// a warning or a sentence.
pub fn write_check_json(alloc: Global, text: &str, faulty: bool) -> Result<Vec<u8>, OutOfMemory>
    ensures { IfOk result (λ json. json.items ≡ check_json faulty text.now) }
{
    let lines = lines_of(alloc, text)?;
    let mut json = Vec::new(alloc);
    push_lines(&mut json, alloc, &lines, faulty)?;
    Ok(json)
}
