// What became of a trade, as text.
ghost use Rattle.plan_reader.specs.PlanView.{IsStage};
ghost use Rattle.plan_reader.specs.Text.{stage_words};
ghost use Rattle.reach_finder.specs.Found.{passage_of};
ghost use Rattle.reach_finder.specs.Traced.{marks_in, rows_in};
ghost use Rattle.reach_text.specs.Trace.{asked_in, at_in, head_text, output_text, shown, stage_text, stages_text, sum_line, told_of, trace_text};
ghost use Rattle.row_reach.specs.Reach.{passage};
ghost use Rattle.std.specs.Fmt.{decimal};
ghost use Rattle.std.specs.Prelude.{◌≡◌, ◌≤◌, ◌<◌, ◌-◌, ◌++◌, All, IfOk, None, OnOk, Some, codes, length, map, option_map, slice_get};
ghost use Rattle.text_words.specs.Text.{line_text};

use crate::pieces::push_count;
use crate::rows::{StageAt, push_shown};
use crate::told::{ToldRow, told_rows};
use plan_reader::{Stage, push_stage};
use reach_finder::{Passage, Traced};
use std::alloc::Global;
use trade_text::{Trades, push_number, push_row, push_text};
use tuple_edge::OutOfMemory;

/// What is asked about: the line of a trade and the name of its file, the stages of a plan, and the inputs, which know the symbols.
#[derive(Clone, Copy)]
pub struct Question<'a> {
    pub line: u64,
    pub file: &'a str,
    pub stages: &'a [Stage],
    pub inputs: &'a Trades,
}

// Appends the line of a stage.
fn push_stage_line(
    alloc: Global,
    text: &mut Vec<u8>,
    number: usize,
    stage: &Stage,
) -> Result<(), OutOfMemory>
    ensures { OnOk result (text.new.items ≡ text.old.items ++ line_text (stage_words number stage.now)) }
{
    let mut line = String::new(alloc);
    push_stage(&mut line, number, stage)?;
    push_text(text, line.as_str())
}

// Appends how many rows came in, and how many of them rest on the trade.
fn push_sum(
    alloc: Global,
    text: &mut Vec<u8>,
    number: usize,
    told: usize,
    rows: usize,
) -> Result<(), OutOfMemory>
    ensures { OnOk result (text.new.items ≡ text.old.items ++ sum_line number told rows) }
{
    if number == 1 {
        return push_count(
            alloc,
            text,
            "It is one of the ",
            rows as u64,
            " rows that came in.\n",
        );
    }
    push_number(alloc, text, told as u64)?;
    push_count(
        alloc,
        text,
        " of the ",
        rows as u64,
        " rows that came in rest on it.\n",
    )
}

// Appends what is told of rows that come to the stage of this number.
fn push_coming(
    alloc: Global,
    text: &mut Vec<u8>,
    question: &Question<'_>,
    at: &StageAt<'_>,
    told: &[ToldRow],
) -> Result<(), OutOfMemory>
    requires { 1 ≤ at.now.stage.now.parts }
    ensures { OnOk result (text.new.items ≡ text.old.items ++ (sum_line at.now.number (length told.now) (length at.now.rows.now) ++ shown (asked_in question.now) (at_in (Some at.now)) told.now)) }
{
    push_sum(alloc, text, at.number, told.len(), at.rows.len())?;
    push_shown(alloc, text, question, &Some(*at), told)
}

// Appends what is told of the stage of this number.
fn push_present(
    alloc: Global,
    text: &mut Vec<u8>,
    question: &Question<'_>,
    number: usize,
    stage: &Stage,
    rows: &[Traced],
) -> Result<(), OutOfMemory>
    requires { 1 ≤ stage.now.parts }
    ensures { OnOk result (text.new.items ≡ text.old.items ++ stage_text (asked_in question.now) number stage.now (Some (passage (rows_in rows.now) (marks_in rows.now)))) }
{
    push_stage_line(alloc, text, number, stage)?;
    let told = told_rows(alloc, rows)?;
    let at = StageAt {
        number,
        stage,
        rows,
    };
    push_coming(alloc, text, question, &at, told.as_slice())
}

// Appends what is told of the stage of this number, if its rows are there.
fn push_stage_text(
    alloc: Global,
    text: &mut Vec<u8>,
    question: &Question<'_>,
    number: usize,
    stage: &Stage,
    passages: &[Passage],
) -> Result<(), OutOfMemory>
    requires number { 1 ≤ number }
    requires parts { 1 ≤ stage.now.parts }
    ensures { OnOk result (text.new.items ≡ text.old.items ++ stage_text (asked_in question.now) number stage.now (option_map passage_of (slice_get passages.now (number - 1)))) }
{
    match passages.get(number - 1) {
        None => Ok(()),
        Some(passage) => push_present(
            alloc,
            text,
            question,
            number,
            stage,
            passage.rows.as_slice(),
        ),
    }
}

// Appends what is told of all stages.
fn push_stages(
    alloc: Global,
    text: &mut Vec<u8>,
    question: &Question<'_>,
    passages: &[Passage],
) -> Result<(), OutOfMemory>
    requires { All IsStage question.now.stages.now }
    ensures { OnOk result (text.new.items ≡ text.old.items ++ stages_text (asked_in question.now) 1 question.now.stages.now (map passage_of passages.now)) }
{
    let mut number = 1;
    for stage in question.stages {
        push_stage_text(alloc, text, question, number, stage, passages)?;
        number += 1;
    }
    Ok(())
}

// Appends what is told of rows of the output.
fn push_going(
    alloc: Global,
    text: &mut Vec<u8>,
    question: &Question<'_>,
    rows: usize,
    told: &[ToldRow],
) -> Result<(), OutOfMemory>
    ensures { OnOk result (text.new.items ≡ text.old.items ++ (decimal (length told.now) ++ (codes " of the " ++ decimal rows ++ codes " rows of the output rest on it.\n") ++ shown (asked_in question.now) None told.now)) }
{
    push_number(alloc, text, told.len() as u64)?;
    push_count(
        alloc,
        text,
        " of the ",
        rows as u64,
        " rows of the output rest on it.\n",
    )?;
    push_shown(alloc, text, question, &None, told)
}

// Appends what is told of the output.
fn push_output(
    alloc: Global,
    text: &mut Vec<u8>,
    question: &Question<'_>,
    rows: &[Traced],
) -> Result<(), OutOfMemory>
    ensures { OnOk result (text.new.items ≡ text.old.items ++ output_text (asked_in question.now) (Some (passage (rows_in rows.now) (marks_in rows.now)))) }
{
    let told = told_rows(alloc, rows)?;
    push_going(alloc, text, question, rows.len(), told.as_slice())
}

// Appends what is told of the output, if its rows are there.
fn push_output_text(
    alloc: Global,
    text: &mut Vec<u8>,
    question: &Question<'_>,
    passages: &[Passage],
) -> Result<(), OutOfMemory>
    ensures { OnOk result (text.new.items ≡ text.old.items ++ output_text (asked_in question.now) (option_map passage_of (slice_get passages.now (length question.now.stages.now)))) }
{
    match passages.get(question.stages.len()) {
        None => Ok(()),
        Some(passage) => push_output(alloc, text, question, passage.rows.as_slice()),
    }
}

// Appends the trade.
fn push_head(
    alloc: Global,
    text: &mut Vec<u8>,
    question: &Question<'_>,
    x: &ToldRow,
) -> Result<(), OutOfMemory>
    ensures { OnOk result (text.new.items ≡ text.old.items ++ head_text (asked_in question.now) (Some x.now)) }
{
    push_count(alloc, text, "Line ", question.line, " of ")?;
    push_text(text, question.file)?;
    push_text(text, ": ")?;
    push_row(alloc, text, question.inputs, &x.row)?;
    push_text(text, "\n")
}

// Appends the trade, if it is there.
fn push_head_of(
    alloc: Global,
    text: &mut Vec<u8>,
    question: &Question<'_>,
    told: &[ToldRow],
) -> Result<(), OutOfMemory>
    ensures { OnOk result (text.new.items ≡ text.old.items ++ head_text (asked_in question.now) (slice_get told.now 0)) }
{
    match told.get(0) {
        None => Ok(()),
        Some(x) => push_head(alloc, text, question, x),
    }
}

// The rows that are told of the first passage, if it is there.
fn told_first(alloc: Global, passages: &[Passage]) -> Result<Vec<ToldRow>, OutOfMemory>
    ensures { IfOk result (λ told. told.items ≡ told_of (option_map passage_of (slice_get passages.now 0))) }
{
    match passages.get(0) {
        None => Ok(Vec::new(alloc)),
        Some(passage) => told_rows(alloc, passage.rows.as_slice()),
    }
}

// Appends the trade, if its row is there.
fn push_first(
    alloc: Global,
    text: &mut Vec<u8>,
    question: &Question<'_>,
    passages: &[Passage],
) -> Result<(), OutOfMemory>
    ensures { OnOk result (text.new.items ≡ text.old.items ++ head_text (asked_in question.now) (slice_get (told_of (option_map passage_of (slice_get passages.now 0))) 0)) }
{
    let told = told_first(alloc, passages)?;
    push_head_of(alloc, text, question, told.as_slice())
}

/// The text that says what became of a trade, by what came to each stage of a plan and left the last one.
pub fn write_trace(
    alloc: Global,
    question: &Question<'_>,
    passages: &[Passage],
) -> Result<Vec<u8>, OutOfMemory>
    requires { All IsStage question.now.stages.now }
    ensures { IfOk result (λ text. text.items ≡ trace_text (asked_in question.now) (map passage_of passages.now)) }
{
    let mut text = Vec::new(alloc);
    push_first(alloc, &mut text, question, passages)?;
    push_stages(alloc, &mut text, question, passages)?;
    push_output_text(alloc, &mut text, question, passages)?;
    Ok(text)
}
