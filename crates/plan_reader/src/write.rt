// The canonical text of a plan, and of its parts.
ghost use Rattle.std.specs.Prelude.{◌≡◌, ◌++◌, IfOk, OnOk, Ok, string_bytes};
ghost use Rattle.std.specs.List.{flat_map};
ghost use Rattle.text_words.specs.Text.{line_text};
ghost use Rattle.plan_reader.specs.Plan.{plan_of};
ghost use Rattle.plan_reader.specs.PlanView.{IsPlan, PlanView};
ghost use Rattle.plan_reader.specs.Text.{by_name, column_name, compare_name, op_text, plan_text, stage_lines, stage_words, test_text};
ghost use Rattle.op_spec.specs.declared.spec.OpSpec.TheVariants as op;

use crate::{Plan, Stage};
use op_spec::{By, Compare, OpSpec};
use std::alloc::Global;
use tuple_edge::{Column, OutOfMemory};

/// The word for a column.
pub fn column_name(column: Column) -> &'static str
    ensures { result.now ≡ column_name column }
{
    match column {
        Column::Time => "time",
        Column::Account => "account",
        Column::Symbol => "symbol",
        Column::Qty => "qty",
        Column::Value => "value",
    }
}

fn by_name(by: By) -> &'static str
    ensures { result.now ≡ by_name by }
{
    match by {
        By::Account => "account",
        By::Symbol => "symbol",
        By::Both => "both",
    }
}

fn compare_name(compare: Compare) -> &'static str
    ensures { result.now ≡ compare_name compare }
{
    match compare {
        Compare::Less => "<",
        Compare::AtMost => "<=",
        Compare::Equal => "=",
        Compare::Unequal => "!=",
        Compare::AtLeast => ">=",
        Compare::Greater => ">",
    }
}

/// Appends a comparison: the column, how it compares, and the limit.
#[tactic(auto, unfolding(crate::specs::Text::test_text))]
pub fn push_test(
    text: &mut String,
    column: Column,
    compare: Compare,
    limit: i64,
) -> Result<(), OutOfMemory>
    ensures { OnOk result (string_bytes text.new ≡ string_bytes text.old ++ test_text column compare limit) }
{
    let column = column_name(column);
    let compare = compare_name(compare);
    write!(text, "{column} {compare} {limit}")?;
    Ok(())
}

// Appends the words of a filter.
fn push_keep(
    text: &mut String,
    column: Column,
    compare: Compare,
    limit: i64,
) -> Result<(), OutOfMemory>
    ensures { OnOk result (string_bytes text.new ≡ string_bytes text.old ++ op_text (op.Keep column compare limit)) }
{
    let column = column_name(column);
    let compare = compare_name(compare);
    write!(text, "keep {column} {compare} {limit}")?;
    Ok(())
}

// Appends the words of a join.
fn push_join(
    text: &mut String,
    by: By,
    width: i64,
    rows: u32,
    column: Column,
    compare: Compare,
    limit: i64,
) -> Result<(), OutOfMemory>
    ensures { OnOk result (string_bytes text.new ≡ string_bytes text.old ++ op_text (op.Join by width rows column compare limit)) }
{
    let by = by_name(by);
    let column = column_name(column);
    let compare = compare_name(compare);
    write!(text, "join {by} {width} {rows} {column} {compare} {limit}")?;
    Ok(())
}

/// Appends an operator with its settings.
pub fn push_op(text: &mut String, op: &OpSpec) -> Result<(), OutOfMemory>
    ensures { OnOk result (string_bytes text.new ≡ string_bytes text.old ++ op_text op.now) }
{
    match op {
        OpSpec::Keep {
            column,
            compare,
            limit,
        } => push_keep(text, *column, *compare, *limit)?,
        OpSpec::Total { by } => {
            let by = by_name(*by);
            write!(text, "total {by}")?;
        }
        OpSpec::Last { by, rows } => {
            let by = by_name(*by);
            write!(text, "last {by} {rows}")?;
        }
        OpSpec::Window { by, width } => {
            let by = by_name(*by);
            write!(text, "window {by} {width}")?;
        }
        OpSpec::Crossing { by, limit } => {
            let by = by_name(*by);
            write!(text, "crossing {by} {limit}")?;
        }
        OpSpec::Join {
            by,
            width,
            rows,
            column,
            compare,
            limit,
        } => push_join(text, *by, *width, *rows, *column, *compare, *limit)?,
    }
    Ok(())
}

/// Appends the line of a stage with its number.
pub fn push_stage(text: &mut String, number: usize, stage: &Stage) -> Result<(), OutOfMemory>
    ensures { OnOk result (string_bytes text.new ≡ string_bytes text.old ++ line_text (stage_words number stage.now)) }
{
    let parts = stage.parts;
    let by = column_name(stage.by);
    write!(text, "stage {number} parts {parts} by {by} ")?;
    push_op(text, &stage.op)?;
    text.push_str("\n")?;
    Ok(())
}

// Appends the lines of stages, numbered from 1.
fn push_stages(text: &mut String, stages: &[Stage]) -> Result<(), OutOfMemory>
    ensures { OnOk result (string_bytes text.new ≡ string_bytes text.old ++ flat_map line_text (stage_lines 1 stages.now)) }
{
    for (place, stage) in stages.iter().enumerate() {
        push_stage(text, place + 1, stage)?;
    }
    Ok(())
}

// The canonical text of a plan.
#[tactic(auto, unfolding(crate::specs::Text::plan_text))]
fn text_of(alloc: Global, plan: &Plan) -> Result<String, OutOfMemory>
    ensures text { IfOk result (λ text. string_bytes text ≡ plan_text plan.now) }
    ensures limits { IsPlan plan.now }
{
    let version = plan.version();
    let mark = plan.mark();
    let hold = plan.hold();
    let mut text = String::new(alloc);
    write!(text, "flux {version}\nmark {mark}\nhold {hold}\n")?;
    push_stages(&mut text, plan.stages())?;
    Ok(text)
}

/// The canonical text of a plan: the version, the mark, the hold and the stages, each in a line that
/// ends in LF, with single spaces. It reads back as the plan.
#[tactic(auto, using(crate::proofs::CanonicalText::plan_text_reads_back))]
pub fn write_plan(alloc: Global, plan: &Plan) -> Result<Vec<u8>, OutOfMemory>
    ensures text { IfOk result (λ text. text.items ≡ plan_text plan.now) }
    ensures reads_back { IfOk result (λ text. plan_of text.items ≡ Ok plan.now) }
{
    let text = text_of(alloc, plan)?;
    Ok(text.into_bytes())
}

/// A law: every plan's canonical text reads back as the plan.
#[tactic(auto, using(crate::proofs::CanonicalText::plan_text_reads_back))]
pub fn canonical_text_reads_back()
    ensures { (plan : PlanView) → IsPlan plan → plan_of (plan_text plan) ≡ Ok plan }
{}
