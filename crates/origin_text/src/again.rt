// The line that says whether the inputs on which a row rests give it again by themselves.
ghost use Rattle.origin_text.specs.Files.{files_in};
ghost use Rattle.origin_text.specs.Text.{again_line, among_text, asked_in, check_text, kinds_text, over_text};
ghost use Rattle.plan_reader.specs.PlanView.{IsStage};
ghost use Rattle.std.specs.Prelude.{◌≡◌, ◌++◌, All, OnOk, Some, slice_get};

use crate::alone::{Again, given_again};
use crate::files::InputFiles;
use crate::why::Question;
use std::alloc::Global;
use trade_text::{push_number, push_text};
use tuple_edge::{OutOfMemory, Row};

// What came in.
fn kinds_text(files: &InputFiles<'_>) -> &'static str
    ensures { result.now ≡ kinds_text (files_in files.now) }
{
    if files.movements.rows.is_empty() {
        "trades"
    } else {
        "trades and movements"
    }
}

// Appends over how many of the inputs alone.
fn push_over(
    alloc: Global,
    text: &mut Vec<u8>,
    files: &InputFiles<'_>,
    chosen: usize,
) -> Result<(), OutOfMemory>
    ensures { OnOk result (text.new.items ≡ text.old.items ++ over_text (files_in files.now) chosen) }
{
    push_text(text, "Over these ")?;
    push_text(text, kinds_text(files))?;
    push_text(text, " alone, ")?;
    push_number(alloc, text, chosen as u64)?;
    push_text(text, " of the ")?;
    push_number(alloc, text, files.inputs.rows().len() as u64)?;
    push_text(text, " that came in, ")
}

// Appends that the row is the one of this number among so many.
fn push_there(
    alloc: Global,
    text: &mut Vec<u8>,
    given: usize,
    number: usize,
) -> Result<(), OutOfMemory>
    ensures { OnOk result (text.new.items ≡ text.old.items ++ among_text given (Some number)) }
{
    push_text(text, "the plan gives this row again, as row ")?;
    push_number(alloc, text, number as u64)?;
    push_text(text, " of ")?;
    push_number(alloc, text, given as u64)?;
    push_text(text, ".\n")
}

// Appends that the row is one of so many, or that it isn't.
fn push_among(
    alloc: Global,
    text: &mut Vec<u8>,
    given: usize,
    number: Option<usize>,
) -> Result<(), OutOfMemory>
    ensures { OnOk result (text.new.items ≡ text.old.items ++ among_text given number) }
{
    if let Some(number) = number {
        return push_there(alloc, text, given, number);
    }
    push_text(text, "this row isn't among the ")?;
    push_number(alloc, text, given as u64)?;
    push_text(
        text,
        " that the plan gives: without the others a stage passes on other rows.\n",
    )
}

// Appends whether the plan gives the row again.
fn push_again(
    alloc: Global,
    text: &mut Vec<u8>,
    files: &InputFiles<'_>,
    again: &Again,
) -> Result<(), OutOfMemory>
    ensures { OnOk result (text.new.items ≡ text.old.items ++ again_line (files_in files.now) again.now) }
{
    push_over(alloc, text, files, again.chosen)?;
    push_among(alloc, text, again.given, again.number)
}

// Appends it of this row, if it is asked for.
fn push_if_asked(
    alloc: Global,
    text: &mut Vec<u8>,
    question: &Question<'_>,
    marks: &[bool],
    row: &Row,
) -> Result<(), OutOfMemory>
    requires { All IsStage question.now.stages.now }
    ensures { OnOk result (text.new.items ≡ text.old.items ++ check_text (asked_in question.now) marks.now (Some row.now)) }
{
    if !question.check {
        return Ok(());
    }
    let again = given_again(alloc, question.stages, question.files.inputs, marks, row)?;
    push_again(alloc, text, &question.files, &again)
}

// Appends it of the row at a place, if there is one.
pub(crate) fn push_check(
    alloc: Global,
    text: &mut Vec<u8>,
    question: &Question<'_>,
    marks: &[bool],
    rows: &[Row],
    place: usize,
) -> Result<(), OutOfMemory>
    requires { All IsStage question.now.stages.now }
    ensures { OnOk result (text.new.items ≡ text.old.items ++ check_text (asked_in question.now) marks.now (slice_get rows.now place)) }
{
    match rows.get(place) {
        None => Ok(()),
        Some(row) => push_if_asked(alloc, text, question, marks, row),
    }
}
