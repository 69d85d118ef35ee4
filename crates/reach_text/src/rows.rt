// The lines of rows.
ghost use Rattle.op_spec.specs.declared.spec.By.TheVariants as by;
ghost use Rattle.reach_finder.specs.Traced.{rows_in};
ghost use Rattle.reach_text.specs.Told.{kept_by};
ghost use Rattle.reach_text.specs.Trace.{asked_in, at_in, behind_text, key_text, line_at, lines_at, place_text, shown};
ghost use Rattle.std.specs.Fmt.{decimal, signed_decimal};
ghost use Rattle.tuple_edge.specs.Row.{route_of};
ghost use Rattle.std.specs.Prelude.{◌≡◌, ◌≤◌, ◌<◌, ◌-◌, ◌++◌, IfSome, None, OnOk, Some, codes, drop, length, take};

use crate::pieces::push_count;
use crate::told::{ToldRow, kept_by, rows_before};
use crate::trace::Question;
use op_spec::By;
use plan_reader::Stage;
use reach_finder::Traced;
use std::alloc::Global;
use trade_text::{Trades, push_number, push_row, push_symbol, push_text};
use tuple_edge::{OutOfMemory, Row, route};

// Appends the account of a row in words, before a symbol.
fn push_account(alloc: Global, text: &mut Vec<u8>, row: &Row) -> Result<(), OutOfMemory>
    ensures { OnOk result (text.new.items ≡ text.old.items ++ (codes "account " ++ signed_decimal row.now.account ++ codes " and symbol ")) }
{
    let account = row.account;
    let said = format!(in alloc; "account {account} and symbol ")?;
    push_text(text, said.as_str())
}

// Appends an account and a symbol in words.
fn push_both(
    alloc: Global,
    text: &mut Vec<u8>,
    trades: &Trades,
    row: &Row,
) -> Result<(), OutOfMemory>
    ensures { OnOk result (text.new.items ≡ text.old.items ++ key_text by.Both trades.now.symbols row.now) }
{
    push_account(alloc, text, row)?;
    push_symbol(text, trades, row)
}

// Appends the key of a row in words.
fn push_key(
    alloc: Global,
    text: &mut Vec<u8>,
    trades: &Trades,
    by: By,
    row: &Row,
) -> Result<(), OutOfMemory>
    ensures { OnOk result (text.new.items ≡ text.old.items ++ key_text by trades.now.symbols row.now) }
{
    match by {
        By::Account => {
            let account = row.account;
            let said = format!(in alloc; "account {account}")?;
            push_text(text, said.as_str())
        }
        By::Symbol => {
            push_text(text, "symbol ")?;
            push_symbol(text, trades, row)
        }
        By::Both => push_both(alloc, text, trades, row),
    }
}

// Appends behind how many rows of its key a row is taken, where rows are kept by keys.
fn push_behind(
    alloc: Global,
    text: &mut Vec<u8>,
    question: &Question<'_>,
    stage: &Stage,
    rows: &[Traced],
    by: Option<By>,
    x: &ToldRow,
) -> Result<(), OutOfMemory>
    requires { 1 ≤ stage.now.parts }
    ensures { OnOk result (text.new.items ≡ text.old.items ++ behind_text (asked_in question.now) stage.now (rows_in rows.now) by x.now) }
{
    match by {
        None => Ok(()),
        Some(by) => {
            let before = rows_before(stage, by, rows, x);
            push_count(alloc, text, ", behind ", before, " rows of ")?;
            push_key(alloc, text, question.inputs, by, &x.row)
        }
    }
}

// The same by what the operator of the stage keeps rows together, if it does.
fn push_kept(
    alloc: Global,
    text: &mut Vec<u8>,
    question: &Question<'_>,
    stage: &Stage,
    rows: &[Traced],
    x: &ToldRow,
) -> Result<(), OutOfMemory>
    requires { 1 ≤ stage.now.parts }
    ensures { OnOk result (text.new.items ≡ text.old.items ++ behind_text (asked_in question.now) stage.now (rows_in rows.now) (kept_by stage.now.op) x.now) }
{
    let by = kept_by(&stage.op);
    push_behind(alloc, text, question, stage, rows, by, x)
}

// Appends to which partition of a stage a row goes.
fn push_part(alloc: Global, text: &mut Vec<u8>, stage: &Stage, row: &Row) -> Result<(), OutOfMemory>
    requires { 1 ≤ stage.now.parts }
    ensures { OnOk result (text.new.items ≡ text.old.items ++ (codes " in partition " ++ decimal (route_of row.now stage.now.by stage.now.parts) ++ codes ": ")) }
{
    let part = u64::from(route(row, stage.by, stage.parts));
    push_count(alloc, text, " in partition ", part, ": ")
}

// Appends where a row stands.
fn push_place(
    alloc: Global,
    text: &mut Vec<u8>,
    question: &Question<'_>,
    number: usize,
    x: &ToldRow,
) -> Result<(), OutOfMemory>
    ensures { OnOk result (text.new.items ≡ text.old.items ++ place_text (asked_in question.now) number x.now) }
{
    if number == 1 {
        push_count(alloc, text, "line ", question.line, " of ")?;
        return push_text(text, question.file);
    }
    push_text(text, "row ")?;
    push_number(alloc, text, x.number as u64)
}

/// A stage with its number, and the rows that come to it.
#[derive(Clone, Copy)]
pub(crate) struct StageAt<'a> {
    pub(crate) number: usize,
    pub(crate) stage: &'a Stage,
    pub(crate) rows: &'a [Traced],
}

// Appends the line of a row of the output.
fn push_output(
    alloc: Global,
    text: &mut Vec<u8>,
    question: &Question<'_>,
    x: &ToldRow,
) -> Result<(), OutOfMemory>
    ensures { OnOk result (text.new.items ≡ text.old.items ++ line_at (asked_in question.now) None x.now) }
{
    push_count(alloc, text, "  row ", x.number as u64, ": ")?;
    push_row(alloc, text, question.inputs, &x.row)?;
    push_text(text, "\n")
}

// Appends the line of a row that comes to a stage.
fn push_coming(
    alloc: Global,
    text: &mut Vec<u8>,
    question: &Question<'_>,
    at: &StageAt<'_>,
    x: &ToldRow,
) -> Result<(), OutOfMemory>
    requires { 1 ≤ at.now.stage.now.parts }
    ensures { OnOk result (text.new.items ≡ text.old.items ++ line_at (asked_in question.now) (at_in (Some at.now)) x.now) }
{
    push_text(text, "  ")?;
    push_place(alloc, text, question, at.number, x)?;
    push_part(alloc, text, at.stage, &x.row)?;
    push_row(alloc, text, question.inputs, &x.row)?;
    push_kept(alloc, text, question, at.stage, at.rows, x)?;
    push_text(text, "\n")
}

// Appends the line of a row.
fn push_line(
    alloc: Global,
    text: &mut Vec<u8>,
    question: &Question<'_>,
    at: &Option<StageAt<'_>>,
    x: &ToldRow,
) -> Result<(), OutOfMemory>
    requires { IfSome at.now (λ s. 1 ≤ s.stage.now.parts) }
    ensures { OnOk result (text.new.items ≡ text.old.items ++ line_at (asked_in question.now) (at_in at.now) x.now) }
{
    match at {
        None => push_output(alloc, text, question, x),
        Some(stage) => push_coming(alloc, text, question, stage, x),
    }
}

// Appends the lines of rows.
fn push_lines(
    alloc: Global,
    text: &mut Vec<u8>,
    question: &Question<'_>,
    at: &Option<StageAt<'_>>,
    told: &[ToldRow],
) -> Result<(), OutOfMemory>
    requires { IfSome at.now (λ s. 1 ≤ s.stage.now.parts) }
    ensures { OnOk result (text.new.items ≡ text.old.items ++ lines_at (asked_in question.now) (at_in at.now) told.now) }
{
    for x in told {
        push_line(alloc, text, question, at, x)?;
    }
    Ok(())
}

// Appends the lines of the last three.
fn push_last(
    alloc: Global,
    text: &mut Vec<u8>,
    question: &Question<'_>,
    at: &Option<StageAt<'_>>,
    told: &[ToldRow],
) -> Result<(), OutOfMemory>
    requires parts { IfSome at.now (λ s. 1 ≤ s.stage.now.parts) }
    requires many { 3 ≤ length told.now }
    ensures { OnOk result (text.new.items ≡ text.old.items ++ lines_at (asked_in question.now) (at_in at.now) (drop (length told.now - 3) told.now)) }
{
    let (_, last) = told.split_at(told.len() - 3);
    push_lines(alloc, text, question, at, last)
}

// Appends the lines of the first three, how many are left out, and the lines of the last three.
fn push_ends(
    alloc: Global,
    text: &mut Vec<u8>,
    question: &Question<'_>,
    at: &Option<StageAt<'_>>,
    told: &[ToldRow],
) -> Result<(), OutOfMemory>
    requires parts { IfSome at.now (λ s. 1 ≤ s.stage.now.parts) }
    requires many { 7 ≤ length told.now }
    ensures { OnOk result (text.new.items ≡ text.old.items ++ (lines_at (asked_in question.now) (at_in at.now) (take 3 told.now)
        ++ (codes "  .. " ++ decimal (length told.now - 6) ++ codes " more\n") ++ lines_at (asked_in question.now) (at_in at.now) (drop (length told.now - 3) told.now))) }
{
    let count = told.len();
    push_lines(alloc, text, question, at, &told[..3])?;
    push_count(alloc, text, "  .. ", count as u64 - 6, " more\n")?;
    push_last(alloc, text, question, at, told)
}

// Appends all lines, where they are few, and else some.
pub(crate) fn push_shown(
    alloc: Global,
    text: &mut Vec<u8>,
    question: &Question<'_>,
    at: &Option<StageAt<'_>>,
    told: &[ToldRow],
) -> Result<(), OutOfMemory>
    requires { IfSome at.now (λ s. 1 ≤ s.stage.now.parts) }
    ensures { OnOk result (text.new.items ≡ text.old.items ++ shown (asked_in question.now) (at_in at.now) told.now) }
{
    if told.len() < 7 {
        return push_lines(alloc, text, question, at, told);
    }
    push_ends(alloc, text, question, at, told)
}
