// A plan as one SQL query.
ghost use Rattle.std.specs.Prelude.{◌≡◌, ◌+◌, ◌<◌, ◌^◌, ◌++◌, IfOk, OnOk, string_bytes};
ghost use Rattle.plan_sql.specs.Query.{head_sql, opened_sql, output_sql, sql_text, stage_sql, stages_sql};

use crate::forms::push_op;
use crate::inputs::{push_input, push_order, push_symbols};
use crate::loading::{push_intro, push_loading};
use crate::routed::{push_routed, push_rows_after};
use plan_reader::{Plan, Stage, push_stage};
use std::alloc::Global;
use tuple_edge::OutOfMemory;

// Appends what stands above the stages.
#[tactic(auto, unfolding(crate::specs::Query::head_sql))]
fn push_head(text: &mut String, version: u32) -> Result<(), OutOfMemory>
    ensures { OnOk result (string_bytes text.new ≡ string_bytes text.old ++ head_sql version) }
{
    push_intro(text)?;
    push_loading(text, version)?;
    push_order(text)?;
    push_symbols(text)?;
    push_input(text, version)
}

// Appends the line of a stage, and the name of its rows.
#[tactic(auto, unfolding(crate::specs::Query::opened_sql))]
fn push_opened(text: &mut String, number: usize, stage: &Stage) -> Result<(), OutOfMemory>
    ensures { OnOk result (string_bytes text.new ≡ string_bytes text.old ++ opened_sql number stage.now) }
{
    text.push_str(",\n-- ")?;
    push_stage(text, number, stage)?;
    push_rows_after(text, number)?;
    text.push_str(" AS (\n")?;
    Ok(())
}

// Appends a stage's rows, after so many stages.
#[tactic(auto, unfolding(crate::specs::Query::stage_sql))]
fn push_answers(text: &mut String, before: usize, stage: &Stage) -> Result<(), OutOfMemory>
    requires { before + 1 < 2 ^ 64 }
    ensures { OnOk result (string_bytes text.new ≡ string_bytes text.old ++ stage_sql before stage.now) }
{
    push_opened(text, before + 1, stage)?;
    push_routed(text, before, stage)?;
    push_op(text, &stage.op)?;
    text.push_str(")")?;
    Ok(())
}

// Appends stages, one after the other.
fn push_stages(text: &mut String, stages: &[Stage]) -> Result<(), OutOfMemory>
    ensures { OnOk result (string_bytes text.new ≡ string_bytes text.old ++ stages_sql 0 stages.now) }
{
    for (place, stage) in stages.iter().enumerate() {
        push_answers(text, place, stage)?;
    }
    Ok(())
}

// Appends the rows after so many stages, in their order.
#[tactic(auto, unfolding(crate::specs::Query::output_sql))]
fn push_output(text: &mut String, stages: usize) -> Result<(), OutOfMemory>
    ensures { OnOk result (string_bytes text.new ≡ string_bytes text.old ++ output_sql stages) }
{
    text.push_str("\nSELECT time, account, COALESCE(name, '-') AS symbol, qty, value\n")?;
    text.push_str("FROM ")?;
    push_rows_after(text, stages)?;
    text.push_str(" AS answers LEFT JOIN symbols ON symbols.number = answers.symbol\n")?;
    text.push_str("ORDER BY stamp, source, place;\n")?;
    Ok(())
}

// The query of a plan.
#[tactic(auto, unfolding(crate::specs::Query::sql_text))]
fn text_of(alloc: Global, plan: &Plan) -> Result<String, OutOfMemory>
    ensures { IfOk result (λ text. string_bytes text ≡ sql_text plan.now) }
{
    let mut text = String::new(alloc);
    let stages = plan.stages();
    push_head(&mut text, plan.version())?;
    push_stages(&mut text, stages)?;
    push_output(&mut text, stages.len())?;
    Ok(text)
}

/// A plan as one SQL query over a table of trades, in the part of SQL that PostgreSQL and SQLite both have. A comment at its head says where it
/// is right, and how its tables are made and loaded.
pub fn write_sql(alloc: Global, plan: &Plan) -> Result<Vec<u8>, OutOfMemory>
    ensures { IfOk result (λ text. text.items ≡ sql_text plan.now) }
{
    let text = text_of(alloc, plan)?;
    Ok(text.into_bytes())
}
