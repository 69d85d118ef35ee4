// How a row of the output came about, as text.
ghost use Rattle.origin_text.specs.Text.{asked_in, end_text, head_line, resting_text, rows_text, stage_text, stages_text, sum_line, why_text};
ghost use Rattle.plan_reader.specs.PlanView.{IsStage};
ghost use Rattle.plan_reader.specs.Text.{stage_words};
ghost use Rattle.std.specs.Prelude.{◌≡◌, ◌≤◌, ◌+◌, ◌-◌, ◌++◌, All, IfOk, OnOk, Some, length, slice_get};
ghost use Rattle.text_words.specs.Text.{line_text};

use crate::again::push_check;
use crate::alone::input_marks;
use crate::files::InputFiles;
use crate::rows::push_shown;
use crate::told::{ToldRow, came_at_end, came_by, counting, told_rows};
use op_spec::OpSpec;
use origin_finder::StageTold;
use plan_reader::{Stage, push_stage};
use std::alloc::Global;
use trade_text::{Trades, push_number, push_row, push_text};
use tuple_edge::{OutOfMemory, Row};

/// What is asked about: the stages of a plan, the files that it is fed with, whether all rows are told, and whether it is told if
/// those inputs alone give the row again on which it rests.
#[derive(Clone, Copy)]
pub struct Question<'a> {
    pub stages: &'a [Stage],
    pub files: InputFiles<'a>,
    pub all: bool,
    pub check: bool,
}

// Appends the line of a stage.
fn push_stage_line(
    alloc: Global,
    text: &mut Vec<u8>,
    number: usize,
    stage: &Stage,
) -> Result<(), OutOfMemory>
    ensures { OnOk result (text.new.items ≡ text.old.items ++ line_text (stage_words number stage.now)) }
{
    let mut line = String::new(alloc);
    push_stage(&mut line, number, stage)?;
    push_text(text, line.as_str())
}

// Who rests on rows.
fn resting_text(is_last: bool) -> &'static str
    ensures { result.now ≡ resting_text is_last }
{
    if is_last {
        "It rests on "
    } else {
        "They rest on "
    }
}

// That the row of the output came at the end.
fn end_text(at_end: bool) -> &'static str
    ensures { result.now ≡ end_text at_end }
{
    if at_end {
        " It came at the end.\n"
    } else {
        "\n"
    }
}

// Appends how many rows came in, on how many of them they rest, and how many of these count.
fn push_sum(
    alloc: Global,
    text: &mut Vec<u8>,
    is_last: bool,
    op: &OpSpec,
    rows: usize,
    told: &[ToldRow],
) -> Result<(), OutOfMemory>
    ensures { OnOk result (text.new.items ≡ text.old.items ++ sum_line is_last op.now rows told.now) }
{
    push_text(text, resting_text(is_last))?;
    push_number(alloc, text, told.len() as u64)?;
    push_text(text, " of the ")?;
    push_number(alloc, text, rows as u64)?;
    push_text(text, " rows that came in, and ")?;
    push_number(alloc, text, counting(told) as u64)?;
    push_text(text, " count.")?;
    push_text(text, end_text(came_at_end(is_last, op, told)))
}

// Appends what is told of the rows of a stage.
fn push_rows(
    alloc: Global,
    text: &mut Vec<u8>,
    question: &Question<'_>,
    number: usize,
    stage: &Stage,
    rows: usize,
    told: &[ToldRow],
) -> Result<(), OutOfMemory>
    requires { 1 ≤ stage.now.parts }
    ensures { OnOk result (text.new.items ≡ text.old.items ++ rows_text (asked_in question.now) number stage.now rows told.now) }
{
    let is_last = number == question.stages.len();
    push_sum(alloc, text, is_last, &stage.op, rows, told)?;
    let came = came_by(is_last, &stage.op, told);
    push_shown(alloc, text, question, number, stage, came, told)
}

// Appends what is told of a stage of this number.
fn push_present(
    alloc: Global,
    text: &mut Vec<u8>,
    question: &Question<'_>,
    number: usize,
    stage: &Stage,
    origin: &StageTold,
) -> Result<(), OutOfMemory>
    requires { 1 ≤ stage.now.parts }
    ensures { OnOk result (text.new.items ≡ text.old.items ++ stage_text (asked_in question.now) number (Some stage.now) origin.now) }
{
    push_stage_line(alloc, text, number, stage)?;
    let told = told_rows(alloc, origin)?;
    let rows = origin.rows().len();
    push_rows(alloc, text, question, number, stage, rows, &told)
}

// Appends what is told of the stage of this number, if there is one.
fn push_stage_text(
    alloc: Global,
    text: &mut Vec<u8>,
    question: &Question<'_>,
    number: usize,
    origin: &StageTold,
) -> Result<(), OutOfMemory>
    requires { All IsStage question.now.stages.now }
    ensures { OnOk result (text.new.items ≡ text.old.items ++ stage_text (asked_in question.now) number (slice_get question.now.stages.now (number - 1)) origin.now) }
{
    match question.stages.get(number.saturating_sub(1)) {
        None => Ok(()),
        Some(stage) => push_present(alloc, text, question, number, stage, origin),
    }
}

// Appends what is told of stages, from the last to the first.
fn push_stages(
    alloc: Global,
    text: &mut Vec<u8>,
    question: &Question<'_>,
    origins: &[StageTold],
) -> Result<(), OutOfMemory>
    requires { All IsStage question.now.stages.now }
    ensures { OnOk result (text.new.items ≡ text.old.items ++ stages_text (asked_in question.now) (length question.now.stages.now) origins.now) }
{
    let mut number = question.stages.len();
    for origin in origins {
        push_stage_text(alloc, text, question, number, origin)?;
        number = number.saturating_sub(1);
    }
    Ok(())
}

// Appends the row at a place, if it is there, with its number and how many there are.
fn push_head(
    alloc: Global,
    text: &mut Vec<u8>,
    trades: &Trades,
    place: usize,
    rows: &[Row],
) -> Result<(), OutOfMemory>
    ensures { OnOk result (text.new.items ≡ text.old.items ++ head_line trades.now.symbols (place + 1) (length rows.now) (slice_get rows.now place)) }
{
    match rows.get(place) {
        None => Ok(()),
        Some(row) => push_numbered(alloc, text, trades, place as u64 + 1, rows.len(), row),
    }
}

// Appends a row with its number and how many there are.
fn push_numbered(
    alloc: Global,
    text: &mut Vec<u8>,
    trades: &Trades,
    number: u64,
    count: usize,
    row: &Row,
) -> Result<(), OutOfMemory>
    ensures { OnOk result (text.new.items ≡ text.old.items ++ head_line trades.now.symbols number count (Some row.now)) }
{
    push_text(text, "Row ")?;
    push_number(alloc, text, number)?;
    push_text(text, " of ")?;
    push_number(alloc, text, count as u64)?;
    push_text(text, ": ")?;
    push_row(alloc, text, trades, row)?;
    push_text(text, "\n")
}

/// How the row at a place of the output came about, by what is told of the rows behind the last stage and of all stages from the last to the first:
/// the row, and for each stage its line of the plan, on how many of the rows that came in it rests, and those rows. Last, where that is asked for,
/// whether the inputs on which it rests give the row again by themselves.
pub fn write_why(
    alloc: Global,
    question: &Question<'_>,
    place: usize,
    told: &[StageTold],
) -> Result<Vec<u8>, OutOfMemory>
    requires { All IsStage question.now.stages.now }
    ensures { IfOk result (λ text. text.items ≡ why_text (asked_in question.now) place told.now) }
{
    let mut text = Vec::new(alloc);
    let Some((last, origins)) = told.split_first() else {
        return Ok(text);
    };
    push_head(alloc, &mut text, question.files.inputs, place, last.rows())?;
    push_stages(alloc, &mut text, question, origins)?;
    let marks = input_marks(told);
    push_check(alloc, &mut text, question, marks, last.rows(), place)?;
    Ok(text)
}
