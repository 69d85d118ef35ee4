// The text of a check.
ghost use Rattle.std.specs.Prelude.{◌≡◌, ◌++◌, ◌<◌, ◌^◌, flat_map, IfOk, length, OnOk, option_map, string_bytes};
ghost use Rattle.trade_check.specs.Counts.{script_warnings};
ghost use Rattle.trade_check.specs.Text.{check_text, count_line, order_line, sentences, trade_lines, warning_count, warning_lines};
ghost use Rattle.trade_check.specs.Warnings.{trade_warnings};

use crate::order_counts::script_warnings;
use crate::trade_warnings::trade_warnings;
use crate::{GivenTrades, order_lines, sentences, trade_lines};
use failure_script::Script;
use plan_check::{push_script, push_sentences, push_warnings};
use plan_reader::Plan;
use std::alloc::Global;
use trade_text::{Cash, Trades};
use tuple_edge::OutOfMemory;

/// What is said of a plan, and of what is given with it.
#[derive(Debug, Drop)]
pub struct Checked {
    /// The sentences, and a line for each warning.
    pub text: String,
    /// How many warnings there are.
    pub warnings: u64,
}

// The trades, where they are given.
fn trades_in(given: Option<&GivenTrades>) -> Option<&Trades>
    ensures { option_map (λ t. t.now) result ≡ option_map (λ g. g.trades) (option_map (λ g. g.now) given.entry) }
{
    match given {
        None => None,
        Some(given) => Some(given.trades()),
    }
}

// Appends the sentences on all that is given.
fn push_said(
    text: &mut String,
    plan: &Plan,
    trades: Option<&GivenTrades>,
    script: Option<&Script>,
) -> Result<(), OutOfMemory>
    ensures { OnOk result (string_bytes text.new ≡ string_bytes text.old ++ sentences plan.now (option_map (λ g. g.now) trades.entry) (option_map (λ s. s.now) script.entry)) }
{
    push_sentences(text, plan, trades_in(trades))?;
    sentences::push_symbols(text, trades, plan.stages())?;
    push_script(text, script)?;
    Ok(())
}

// Appends the lines of the warnings of trades, and gives how many there are.
fn push_of_trades(
    alloc: Global,
    text: &mut String,
    plan: &Plan,
    trades: Option<&GivenTrades>,
) -> Result<usize, OutOfMemory>
    ensures lines { OnOk result (string_bytes text.new ≡ string_bytes text.old
        ++ trade_lines (option_map (λ g. g.now) trades.entry) (trade_warnings plan.now (option_map (λ g. g.now) trades.entry))) }
    ensures count { IfOk result (λ count. count ≡ length (trade_warnings plan.now (option_map (λ g. g.now) trades.entry))) }
    ensures few { IfOk result (λ count. count < 2 ^ 62) }
{
    let found = trade_warnings(alloc, plan, trades)?;
    trade_lines::push_lines(text, trades, &found)?;
    Ok(found.len())
}

// Appends the lines of the warnings of a script's counts, and gives how many there are.
fn push_of_counts(
    alloc: Global,
    text: &mut String,
    plan: &Plan,
    trades: Option<GivenTrades>,
    cash: Option<&Cash>,
    script: Option<&Script>,
) -> Result<usize, OutOfMemory>
    ensures lines { OnOk result (string_bytes text.new ≡ string_bytes text.old
        ++ flat_map order_line (script_warnings plan.now trades (option_map (λ c. c.now) cash.entry) (option_map (λ s. s.now) script.entry))) }
    ensures count { IfOk result (λ count. count ≡ length (script_warnings plan.now trades (option_map (λ c. c.now) cash.entry) (option_map (λ s. s.now) script.entry))) }
    ensures few { IfOk result (λ count. count < 2 ^ 62) }
{
    let found = script_warnings(alloc, plan, trades, cash, script)?;
    order_lines::push_lines(text, &found)?;
    Ok(found.len())
}

// Appends the lines of all warnings, and gives how many there are.
fn push_warned(
    alloc: Global,
    text: &mut String,
    plan: &Plan,
    trades: Option<GivenTrades>,
    cash: Option<&Cash>,
    script: Option<&Script>,
) -> Result<u64, OutOfMemory>
    ensures lines { OnOk result (string_bytes text.new ≡ string_bytes text.old ++ warning_lines plan.now trades (option_map (λ c. c.now) cash.entry) (option_map (λ s. s.now) script.entry)) }
    ensures count { IfOk result (λ count. count ≡ warning_count plan.now trades (option_map (λ c. c.now) cash.entry) (option_map (λ s. s.now) script.entry)) }
{
    let of_plan = push_warnings(alloc, text, plan, script)?;
    let of_trades = push_of_trades(alloc, text, plan, trades.as_ref())?;
    let of_counts = push_of_counts(alloc, text, plan, trades, cash, script)?;
    Ok(of_plan as u64 + of_trades as u64 + of_counts as u64)
}

// Appends how many warnings there are.
fn push_count(text: &mut String, count: u64) -> Result<(), OutOfMemory>
    ensures { OnOk result (string_bytes text.new ≡ string_bytes text.old ++ count_line count) }
{
    write!(text, "Warnings: {count}.\n")?;
    Ok(())
}

// Appends the text of a check, and gives how many warnings there are.
fn push_check(
    alloc: Global,
    text: &mut String,
    plan: &Plan,
    trades: Option<GivenTrades>,
    cash: Option<&Cash>,
    script: Option<&Script>,
) -> Result<u64, OutOfMemory>
    ensures text { OnOk result (string_bytes text.new ≡ string_bytes text.old ++ check_text plan.now trades (option_map (λ c. c.now) cash.entry) (option_map (λ s. s.now) script.entry)) }
    ensures warnings { IfOk result (λ count. count ≡ warning_count plan.now trades (option_map (λ c. c.now) cash.entry) (option_map (λ s. s.now) script.entry)) }
{
    push_said(text, plan, trades.as_ref(), script)?;
    let warnings = push_warned(alloc, text, plan, trades, cash, script)?;
    push_count(text, warnings)?;
    Ok(warnings)
}

/// What a plan does, stage by stage, in plain sentences; how many rows come in, which symbols are kept by number and what a script asks
/// for, where these are given; a line for each warning, and how many there are. The warnings are just those that the definitions
/// have, in their order.
pub fn write_check(
    alloc: Global,
    plan: &Plan,
    trades: Option<GivenTrades>,
    cash: Option<&Cash>,
    script: Option<&Script>,
) -> Result<Checked, OutOfMemory>
    ensures text { IfOk result (λ checked. string_bytes checked.text ≡ check_text plan.now trades (option_map (λ c. c.now) cash.entry) (option_map (λ s. s.now) script.entry)) }
    ensures warnings { IfOk result (λ checked. checked.warnings ≡ warning_count plan.now trades (option_map (λ c. c.now) cash.entry) (option_map (λ s. s.now) script.entry)) }
{
    let mut text = String::new(alloc);
    let warnings = push_check(alloc, &mut text, plan, trades, cash, script)?;
    Ok(Checked { text, warnings })
}
