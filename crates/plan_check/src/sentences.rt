// What a plan does, in sentences.
ghost use Rattle.std.specs.Prelude.{◌≡◌, ◌++◌, OnOk, string_bytes};
ghost use Rattle.std.specs.Fmt.{signed_decimal};
ghost use Rattle.plan_check.specs.Words.{key_text};
ghost use Rattle.op_spec.specs.declared.spec.OpSpec.TheVariants as op;
ghost use Rattle.plan_check.specs.Sentences.{hold_sentence, mark_sentence, meaning, parts_text, plan_sentences, settings_text, several_text, sources_text, stage_sentences, stages_text, version_sentence};

use crate::warning::Numbered;
use crate::words;
use crate::words::key_text;
use op_spec::{By, Compare, OpSpec};
use plan_reader::{Plan, Stage, column_name, push_test};
use tuple_edge::{Column, OutOfMemory};

// What comes in.
fn sources_text(version: u32) -> &'static str
    ensures { result.now ≡ sources_text version }
{
    if version == 1 {
        "trades come in"
    } else {
        "trades and cash movements come in, by their times"
    }
}

// Appends the sentence of a plan's version.
fn push_version(text: &mut String, version: u32) -> Result<(), OutOfMemory>
    ensures { OnOk result (string_bytes text.new ≡ string_bytes text.old ++ version_sentence version) }
{
    let sources = sources_text(version);
    write!(text, "The plan is of version {version}: {sources}.\n")?;
    Ok(())
}

// Appends the sentence of a mark.
fn push_mark(text: &mut String, mark: u64) -> Result<(), OutOfMemory>
    ensures { OnOk result (string_bytes text.new ≡ string_bytes text.old ++ mark_sentence mark) }
{
    write!(
        text,
        "The mark is {mark}: after so many rows a mark goes on every edge, so that no partition waits longer for an edge without rows.\n"
    )?;
    Ok(())
}

// Appends the sentence of a hold.
fn push_hold(text: &mut String, hold: u64) -> Result<(), OutOfMemory>
    ensures { OnOk result (string_bytes text.new ≡ string_bytes text.old ++ hold_sentence hold) }
{
    write!(
        text,
        "The hold is {hold}: no further row comes in while an edge of ingress holds so many items.\n"
    )?;
    Ok(())
}

// Appends the sentences of a plan's version, mark and hold.
fn push_settings(text: &mut String, plan: &Plan) -> Result<(), OutOfMemory>
    ensures { OnOk result (string_bytes text.new ≡ string_bytes text.old ++ settings_text plan.now) }
{
    push_version(text, plan.version())?;
    push_mark(text, plan.mark())?;
    push_hold(text, plan.hold())?;
    Ok(())
}

// Appends that a stage runs in several partitions, and by which column rows go to them.
fn push_several(text: &mut String, parts: u32, by: Column) -> Result<(), OutOfMemory>
    ensures { OnOk result (string_bytes text.new ≡ string_bytes text.old ++ several_text parts by) }
{
    let by = column_name(by);
    write!(text, "in {parts} partitions by {by}")?;
    Ok(())
}

// Appends to which partitions a stage's rows go.
fn push_parts(text: &mut String, stage: &Stage) -> Result<(), OutOfMemory>
    ensures { OnOk result (string_bytes text.new ≡ string_bytes text.old ++ parts_text stage.now) }
{
    if stage.parts == 1 {
        text.push_str("in 1 partition")?;
    } else {
        push_several(text, stage.parts, stage.by)?;
    }
    Ok(())
}

// Appends what rows of one key have in common.
fn push_key(text: &mut String, by: By) -> Result<(), OutOfMemory>
    ensures { OnOk result (string_bytes text.new ≡ string_bytes text.old ++ key_text by) }
{
    text.push_str(key_text(by))?;
    Ok(())
}

// Appends a number.
fn push_number(text: &mut String, number: i64) -> Result<(), OutOfMemory>
    ensures { OnOk result (string_bytes text.new ≡ string_bytes text.old ++ signed_decimal number) }
{
    write!(text, "{number}")?;
    Ok(())
}

// Appends what a row of a filter means.
fn push_keep(
    text: &mut String,
    column: Column,
    compare: Compare,
    limit: i64,
) -> Result<(), OutOfMemory>
    ensures { OnOk result (string_bytes text.new ≡ string_bytes text.old ++ meaning (op.Keep column compare limit)) }
{
    text.push_str("is one that came in, where ")?;
    push_test(text, column, compare, limit)?;
    Ok(())
}

// Appends what a row of a join means.
fn push_join(
    text: &mut String,
    by: By,
    width: i64,
    rows: u32,
    column: Column,
    compare: Compare,
    limit: i64,
) -> Result<(), OutOfMemory>
    ensures { OnOk result (string_bytes text.new ≡ string_bytes text.old ++ meaning (op.Join by width rows column compare limit)) }
{
    text.push_str("has the sums of two rows of its ")?;
    push_key(text, by)?;
    text.push_str(" in a span of ")?;
    push_number(text, width)?;
    text.push_str(" s, of which just one has ")?;
    push_test(text, column, compare, limit)?;
    text.push_str(", the earlier one among the last ")?;
    write!(text, "{rows}")?;
    text.push_str(" of its kind")?;
    Ok(())
}

// Appends what a row of the sums so far means.
fn push_total(text: &mut String, by: By) -> Result<(), OutOfMemory>
    ensures { OnOk result (string_bytes text.new ≡ string_bytes text.old ++ meaning (op.Total by)) }
{
    let key = key_text(by);
    write!(text, "has the sums of all rows of its {key} so far")?;
    Ok(())
}

// Appends what a row of the sums of the last rows means.
fn push_last(text: &mut String, by: By, rows: u32) -> Result<(), OutOfMemory>
    ensures { OnOk result (string_bytes text.new ≡ string_bytes text.old ++ meaning (op.Last by rows)) }
{
    let key = key_text(by);
    write!(
        text,
        "has the sums of the last rows of its {key}, {rows} at most"
    )?;
    Ok(())
}

// Appends what a row of a window means.
fn push_window(text: &mut String, by: By, width: i64) -> Result<(), OutOfMemory>
    ensures { OnOk result (string_bytes text.new ≡ string_bytes text.old ++ meaning (op.Window by width)) }
{
    text.push_str("has the sums of the rows of its ")?;
    push_key(text, by)?;
    text.push_str(" in a span of ")?;
    push_number(text, width)?;
    text.push_str(" s, and comes once a row opens a later span, or at the end")?;
    Ok(())
}

// Appends what a row of a crossing means.
fn push_crossing(text: &mut String, by: By, limit: i64) -> Result<(), OutOfMemory>
    ensures { OnOk result (string_bytes text.new ≡ string_bytes text.old ++ meaning (op.Crossing by limit)) }
{
    text.push_str("has the sums of all rows of its ")?;
    push_key(text, by)?;
    text.push_str(" so far, and comes where the size of the value's sum goes above ")?;
    push_number(text, limit)?;
    text.push_str(" cents, or back")?;
    Ok(())
}

// Appends what a row of an operator means.
fn push_meaning(text: &mut String, op: &OpSpec) -> Result<(), OutOfMemory>
    ensures { OnOk result (string_bytes text.new ≡ string_bytes text.old ++ meaning op.now) }
{
    match op {
        OpSpec::Keep {
            column,
            compare,
            limit,
        } => push_keep(text, *column, *compare, *limit)?,
        OpSpec::Total { by } => push_total(text, *by)?,
        OpSpec::Last { by, rows } => push_last(text, *by, *rows)?,
        OpSpec::Window { by, width } => push_window(text, *by, *width)?,
        OpSpec::Crossing { by, limit } => push_crossing(text, *by, *limit)?,
        OpSpec::Join {
            by,
            width,
            rows,
            column,
            compare,
            limit,
        } => push_join(text, *by, *width, *rows, *column, *compare, *limit)?,
    }
    Ok(())
}

// Appends the sentences of a stage.
fn push_stage(text: &mut String, stage: &Numbered) -> Result<(), OutOfMemory>
    ensures { OnOk result (string_bytes text.new ≡ string_bytes text.old ++ stage_sentences stage.now) }
{
    text.push_str("There is ")?;
    words::push_stage(text, stage)?;
    text.push_str(", ")?;
    push_parts(text, &stage.stage)?;
    text.push_str(".\n  A row of it ")?;
    push_meaning(text, &stage.stage.op)?;
    text.push_str(".\n")?;
    Ok(())
}

// Appends the sentences of stages, numbered from 1.
fn push_stages(text: &mut String, stages: &[Stage]) -> Result<(), OutOfMemory>
    ensures { OnOk result (string_bytes text.new ≡ string_bytes text.old ++ stages_text 1 stages.now) }
{
    for (place, stage) in stages.iter().enumerate() {
        let numbered = Numbered {
            number: place + 1,
            stage: *stage,
        };
        push_stage(text, &numbered)?;
    }
    Ok(())
}

// Appends the sentences of a plan.
pub(crate) fn push_plan(text: &mut String, plan: &Plan) -> Result<(), OutOfMemory>
    ensures { OnOk result (string_bytes text.new ≡ string_bytes text.old ++ plan_sentences plan.now) }
{
    push_settings(text, plan)?;
    push_stages(text, plan.stages())
}
