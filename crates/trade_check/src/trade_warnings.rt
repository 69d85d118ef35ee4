// The warnings of trades under a plan.
ghost use Rattle.std.specs.Prelude.{◌≡◌, ◌++◌, ◌∷◌, [], flat_map, IfOk, OnOk, option_map, take};
ghost use Rattle.trade_check.specs.Given.{line_of};
ghost use Rattle.trade_check.specs.Warnings.{fall_warning, fall_warnings, few_warning, few_warnings, given_warnings, max_falls, more_warnings, trade_warnings};

use crate::GivenTrades;
use crate::symbols::{has_symbol, kept_symbol, symbol_count};
use crate::times::{is_over_midnight, told_falls};
use crate::warning::{Fall, TradeWarning};
use plan_check::Numbered;
use plan_reader::{Plan, Stage};
use std::alloc::Global;
use tuple_edge::OutOfMemory;

// Of so many falls each is told at most.
const MAX_FALLS: usize = 100;

// A time that falls, in this line.
fn fall_warning(line: u64, fall: &Fall) -> TradeWarning
    ensures { result ≡ fall_warning line fall.now }
{
    let from = fall.from;
    let to = fall.to;
    if is_over_midnight(fall) {
        TradeWarning::Midnight { line, from, to }
    } else {
        TradeWarning::Falls { line, from, to }
    }
}

// The falls that are told one by one.
#[tactic(auto, using(crate::proofs::Facts::take_least))]
fn first_falls(found: &[Fall]) -> &[Fall]
    ensures { result.now ≡ take max_falls found.now }
{
    let (front, _) = found.split_at(MAX_FALLS.min(found.len()));
    front
}

// Appends the warning of each of these falls.
fn push_each(
    warnings: &mut Vec<TradeWarning>,
    given: &GivenTrades,
    found: &[Fall],
) -> Result<(), OutOfMemory>
    ensures { OnOk result (warnings.new.items ≡ warnings.old.items ++ flat_map (λ f. fall_warning (line_of given.now f.number) f ∷ []) found.now) }
{
    for fall in found {
        warnings.push(fall_warning(given.line_of(fall.number), fall))?;
    }
    Ok(())
}

// Appends that so many times fall, where they are too many to be told.
fn push_more(warnings: &mut Vec<TradeWarning>, count: usize) -> Result<(), OutOfMemory>
    ensures { OnOk result (warnings.new.items ≡ warnings.old.items ++ more_warnings count) }
{
    if count > MAX_FALLS {
        warnings.push(TradeWarning::MoreFalls { count })?;
    }
    Ok(())
}

// Appends the warnings of falls.
fn push_falls(
    warnings: &mut Vec<TradeWarning>,
    given: &GivenTrades,
    found: &[Fall],
) -> Result<(), OutOfMemory>
    ensures { OnOk result (warnings.new.items ≡ warnings.old.items ++ fall_warnings given.now found.now) }
{
    push_each(warnings, given, first_falls(found))?;
    push_more(warnings, found.len())
}

// Appends the warning of a stage that keeps a symbol which the trades don't have.
fn push_few(
    warnings: &mut Vec<TradeWarning>,
    given: &GivenTrades,
    stage: Numbered,
    kept: Option<i64>,
) -> Result<(), OutOfMemory>
    ensures { OnOk result (warnings.new.items ≡ warnings.old.items ++ few_warning given.now stage kept) }
{
    match kept {
        None => {}
        Some(number) => {
            let rows = given.trades().rows();
            if !has_symbol(rows, number) {
                let symbols = symbol_count(rows);
                warnings.push(TradeWarning::FewSymbols { stage, symbols })?;
            }
        }
    }
    Ok(())
}

// Appends the same of stages, numbered from 1.
fn push_stages(
    warnings: &mut Vec<TradeWarning>,
    given: &GivenTrades,
    stages: &[Stage],
) -> Result<(), OutOfMemory>
    ensures { OnOk result (warnings.new.items ≡ warnings.old.items ++ few_warnings given.now 1 stages.now) }
{
    for (place, stage) in stages.iter().enumerate() {
        let numbered = Numbered {
            number: place + 1,
            stage: *stage,
        };
        push_few(warnings, given, numbered, kept_symbol(&stage.op))?;
    }
    Ok(())
}

// The warnings of the trades of a file.
fn given_warnings(
    alloc: Global,
    plan: &Plan,
    given: &GivenTrades,
) -> Result<Vec<TradeWarning>, OutOfMemory>
    ensures { IfOk result (λ warnings. warnings.items ≡ given_warnings plan.now given.now) }
{
    let falls = told_falls(alloc, plan, given.trades().rows())?;
    let mut warnings = Vec::new(alloc);
    push_falls(&mut warnings, given, &falls)?;
    push_stages(&mut warnings, given, plan.stages())?;
    Ok(warnings)
}

/// The warnings of trades under a plan, where trades are given.
pub(crate) fn trade_warnings(
    alloc: Global,
    plan: &Plan,
    given: Option<&GivenTrades>,
) -> Result<Vec<TradeWarning>, OutOfMemory>
    ensures { IfOk result (λ warnings. warnings.items ≡ trade_warnings plan.now (option_map (λ g. g.now) given.entry)) }
{
    match given {
        None => Ok(Vec::new(alloc)),
        Some(given) => given_warnings(alloc, plan, given),
    }
}
