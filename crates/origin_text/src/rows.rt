// The lines of rows.
ghost use Rattle.origin_text.specs.Files.{files_in, texts_of};
ghost use Rattle.origin_text.specs.Text.{asked_in, came_text, is_number, more_line, part_text, place_text, role_text, shown_lines, some_lines, told_line, told_lines};
ghost use Rattle.std.specs.Prelude.{◌≡◌, ◌≤◌, ◌++◌, OnOk, length};

use crate::files::{InputFiles, push_input};
use crate::lines::InputLines;
use crate::told::ToldRow;
use crate::why::Question;
use op_spec::OpSpec;
use plan_reader::Stage;
use std::alloc::Global;
use trade_text::{push_number, push_row, push_text};
use tuple_edge::{OutOfMemory, Row, route};

// What stands behind the row by which the row of the output came.
fn came_text(op: &OpSpec) -> &'static str
    ensures { result.now ≡ came_text op.now }
{
    match op {
        OpSpec::Crossing { .. } => ", by which the sum crossed",
        _ => ", with which it came",
    }
}

// Whether a number is this one.
fn is_number(came: Option<usize>, number: usize) -> bool
    ensures { result ≡ is_number came number }
{
    match came {
        None => false,
        Some(n) => n == number,
    }
}

// What stands behind a row.
fn role_text(op: &OpSpec, came: Option<usize>, x: &ToldRow) -> &'static str
    ensures { result.now ≡ role_text op.now came x.now }
{
    if !x.counts {
        return ", which only closed the window";
    }
    if is_number(came, x.number) {
        return came_text(op);
    }
    ""
}

// Appends where the row of a number stands of those that come to a stage.
fn push_place(
    alloc: Global,
    text: &mut Vec<u8>,
    files: &InputFiles<'_>,
    lines: &mut InputLines<'_>,
    stage: usize,
    number: usize,
) -> Result<(), OutOfMemory>
    requires { lines.old ≡ texts_of (files_in files.now) }
    ensures text { OnOk result (text.new.items ≡ text.old.items ++ place_text (files_in files.now) stage number) }
    ensures same { lines.new ≡ lines.old }
{
    if stage == 1 {
        return push_input(alloc, text, files, lines, number.saturating_sub(1));
    }
    push_text(text, "row ")?;
    push_number(alloc, text, number as u64)
}

// Appends to which partition of a stage a row goes.
fn push_part(alloc: Global, text: &mut Vec<u8>, stage: &Stage, row: &Row) -> Result<(), OutOfMemory>
    requires { 1 ≤ stage.now.parts }
    ensures { OnOk result (text.new.items ≡ text.old.items ++ part_text stage.now row.now) }
{
    push_text(text, " in partition ")?;
    push_number(alloc, text, u64::from(route(row, stage.by, stage.parts)))?;
    push_text(text, ": ")
}

// Appends the line of a row of the stage of this number.
fn push_told(
    alloc: Global,
    text: &mut Vec<u8>,
    question: &Question<'_>,
    lines: &mut InputLines<'_>,
    number: usize,
    stage: &Stage,
    came: Option<usize>,
    x: &ToldRow,
) -> Result<(), OutOfMemory>
    requires parts { 1 ≤ stage.now.parts }
    requires texts { lines.old ≡ texts_of (files_in question.now.files) }
    ensures text { OnOk result (text.new.items ≡ text.old.items ++ told_line (asked_in question.now) number stage.now came x.now) }
    ensures same { lines.new ≡ lines.old }
{
    push_text(text, "  ")?;
    push_place(alloc, text, &question.files, lines, number, x.number)?;
    push_part(alloc, text, stage, &x.row)?;
    push_row(alloc, text, question.files.inputs, &x.row)?;
    push_text(text, role_text(&stage.op, came, x))?;
    push_text(text, "\n")
}

// Appends the lines of rows.
fn push_lines(
    alloc: Global,
    text: &mut Vec<u8>,
    question: &Question<'_>,
    lines: &mut InputLines<'_>,
    number: usize,
    stage: &Stage,
    came: Option<usize>,
    told: &[ToldRow],
) -> Result<(), OutOfMemory>
    requires parts { 1 ≤ stage.now.parts }
    requires texts { lines.old ≡ texts_of (files_in question.now.files) }
    ensures text { OnOk result (text.new.items ≡ text.old.items ++ told_lines (asked_in question.now) number stage.now came told.now) }
    ensures same { lines.new ≡ lines.old }
{
    for x in told {
        push_told(alloc, text, question, lines, number, stage, came, x)?;
    }
    Ok(())
}

// Appends that so many rows are left out.
fn push_more(alloc: Global, text: &mut Vec<u8>, count: u64) -> Result<(), OutOfMemory>
    ensures { OnOk result (text.new.items ≡ text.old.items ++ more_line count) }
{
    push_text(text, "  .. ")?;
    push_number(alloc, text, count)?;
    push_text(text, " more\n")
}

// Appends the lines of the first three and of the last three.
fn push_some(
    alloc: Global,
    text: &mut Vec<u8>,
    question: &Question<'_>,
    lines: &mut InputLines<'_>,
    number: usize,
    stage: &Stage,
    came: Option<usize>,
    told: &[ToldRow],
) -> Result<(), OutOfMemory>
    requires parts { 1 ≤ stage.now.parts }
    requires many { 7 ≤ length told.now }
    requires texts { lines.old ≡ texts_of (files_in question.now.files) }
    ensures text { OnOk result (text.new.items ≡ text.old.items ++ some_lines (asked_in question.now) number stage.now came told.now) }
    ensures same { lines.new ≡ lines.old }
{
    let count = told.len();
    push_lines(
        alloc,
        text,
        question,
        lines,
        number,
        stage,
        came,
        &told[..3],
    )?;
    push_more(alloc, text, count as u64 - 6)?;
    push_lines(
        alloc,
        text,
        question,
        lines,
        number,
        stage,
        came,
        &told[count - 3..],
    )
}

// Appends all lines, where they are asked for or are few, and else some.
pub(crate) fn push_shown(
    alloc: Global,
    text: &mut Vec<u8>,
    question: &Question<'_>,
    number: usize,
    stage: &Stage,
    came: Option<usize>,
    told: &[ToldRow],
) -> Result<(), OutOfMemory>
    requires { 1 ≤ stage.now.parts }
    ensures { OnOk result (text.new.items ≡ text.old.items ++ shown_lines (asked_in question.now) number stage.now came told.now) }
{
    let mut lines = InputLines::new(&question.files);
    if question.all || told.len() < 7 {
        return push_lines(alloc, text, question, &mut lines, number, stage, came, told);
    }
    push_some(alloc, text, question, &mut lines, number, stage, came, told)
}
