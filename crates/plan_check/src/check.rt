// What is said of a plan and of what is given with it, and the lines of its warnings.
ghost use Rattle.std.specs.Prelude.{◌≡◌, ◌++◌, ◌<◌, ◌^◌, flat_map, IfOk, length, OnOk, option_map, string_bytes};
ghost use Rattle.plan_check.specs.Sentences.{count_sentence, plan_sentences, trades_sentences};
ghost use Rattle.plan_check.specs.Text.{warning_line};
ghost use Rattle.plan_check.specs.Warnings.{warnings};

use crate::warning::Warning;
use crate::{plan_warnings, script_warnings, sentences, warning_text};
use failure_script::Script;
use plan_reader::Plan;
use std::alloc::Global;
use trade_text::Trades;
use tuple_edge::OutOfMemory;

// Appends how many rows come in.
fn push_count(text: &mut String, rows: usize) -> Result<(), OutOfMemory>
    ensures { OnOk result (string_bytes text.new ≡ string_bytes text.old ++ count_sentence rows) }
{
    write!(text, "Trades that come in: {rows}.\n")?;
    Ok(())
}

// Appends how many rows come in, where trades are given.
fn push_trades(text: &mut String, trades: Option<&Trades>) -> Result<(), OutOfMemory>
    ensures { OnOk result (string_bytes text.new ≡ string_bytes text.old ++ trades_sentences (option_map (λ t. t.now) trades.entry)) }
{
    match trades {
        None => {}
        Some(trades) => push_count(text, trades.rows().len())?,
    }
    Ok(())
}

/// Appends what a plan does, stage by stage, in plain sentences, and how many rows come in, where trades are given.
pub fn push_sentences(
    text: &mut String,
    plan: &Plan,
    trades: Option<&Trades>,
) -> Result<(), OutOfMemory>
    ensures { OnOk result (string_bytes text.new ≡ string_bytes text.old ++ plan_sentences plan.now ++ trades_sentences (option_map (λ t. t.now) trades.entry)) }
{
    sentences::push_plan(text, plan)?;
    push_trades(text, trades)
}

// The warnings of a plan, and of a script where there is one.
fn warnings_of(
    alloc: Global,
    plan: &Plan,
    script: Option<&Script>,
) -> Result<Vec<Warning>, OutOfMemory>
    ensures { IfOk result (λ found. found.items ≡ warnings plan.now (option_map (λ s. s.now) script.entry)) }
{
    let mut found = Vec::new(alloc);
    plan_warnings::push_plan(&mut found, plan)?;
    match script {
        None => {}
        Some(script) => script_warnings::push_script(&mut found, script.orders())?,
    }
    Ok(found)
}

/// Appends a line for each warning of a plan, and of a script where there is one, and gives how many there are. They are just those
/// that the definitions have, in their order.
pub fn push_warnings(
    alloc: Global,
    text: &mut String,
    plan: &Plan,
    script: Option<&Script>,
) -> Result<usize, OutOfMemory>
    ensures lines { OnOk result (string_bytes text.new ≡ string_bytes text.old ++ flat_map warning_line (warnings plan.now (option_map (λ s. s.now) script.entry))) }
    ensures count { IfOk result (λ count. count ≡ length (warnings plan.now (option_map (λ s. s.now) script.entry))) }
    ensures few { IfOk result (λ count. count < 2 ^ 63) }
{
    let found = warnings_of(alloc, plan, script)?;
    warning_text::push_lines(text, &found)?;
    Ok(found.len())
}
