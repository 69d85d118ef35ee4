// The lines of warnings of trades.
ghost use Rattle.std.specs.Prelude.{◌≡◌, ◌++◌, flat_map, OnOk, option_map, string_bytes};
ghost use Rattle.trade_check.specs.Text.{fall_text, trade_line, trade_lines, trade_warned};
ghost use Rattle.trade_check.specs.declared.warning.TradeWarning.TheVariants as warning;

use crate::GivenTrades;
use crate::sentences::push_number;
use crate::warning::TradeWarning;
use plan_check::{Numbered, push_stage};
use tuple_edge::OutOfMemory;

// Appends that in this line of a file the time falls so.
fn push_fall(
    text: &mut String,
    name: &str,
    line: u64,
    from: i64,
    to: i64,
) -> Result<(), OutOfMemory>
    ensures { OnOk result (string_bytes text.new ≡ string_bytes text.old ++ fall_text name.now line from to) }
{
    write!(text, "{name}: line {line}: the time falls from ")?;
    push_number(text, from)?;
    text.push_str(" to ")?;
    push_number(text, to)?;
    Ok(())
}

// Appends that a window counts a trade into a span that isn't that of its time.
fn push_falls(
    text: &mut String,
    name: &str,
    line: u64,
    from: i64,
    to: i64,
) -> Result<(), OutOfMemory>
    ensures { OnOk result (string_bytes text.new ≡ string_bytes text.old ++ trade_warned name.now (warning.Falls line from to)) }
{
    push_fall(text, name, line, from, to)?;
    text.push_str(
        "; a window counts this trade into the latest span of its key, not into that of its time",
    )?;
    Ok(())
}

// Appends that times of day go over midnight.
fn push_midnight(
    text: &mut String,
    name: &str,
    line: u64,
    from: i64,
    to: i64,
) -> Result<(), OutOfMemory>
    ensures { OnOk result (string_bytes text.new ≡ string_bytes text.old ++ trade_warned name.now (warning.Midnight line from to)) }
{
    push_fall(text, name, line, from, to)?;
    text.push_str(", as over midnight; times of the next day have to go on, from 86400 on")?;
    Ok(())
}

// Appends how many times fall.
fn push_more(text: &mut String, name: &str, count: usize) -> Result<(), OutOfMemory>
    ensures { OnOk result (string_bytes text.new ≡ string_bytes text.old ++ trade_warned name.now (warning.MoreFalls count)) }
{
    write!(
        text,
        "{name}: the time falls {count} times; the first 100 stand above"
    )?;
    Ok(())
}

// Appends that a stage keeps a symbol which the trades don't have.
fn push_few(
    text: &mut String,
    name: &str,
    stage: &Numbered,
    symbols: i64,
) -> Result<(), OutOfMemory>
    ensures { OnOk result (string_bytes text.new ≡ string_bytes text.old ++ trade_warned name.now (warning.FewSymbols stage.now symbols)) }
{
    push_stage(text, stage)?;
    write!(text, ": {name} has ")?;
    push_number(text, symbols)?;
    text.push_str(" symbols, so no row passes")?;
    Ok(())
}

// Appends what is warned of.
fn push_warned(text: &mut String, name: &str, warning: &TradeWarning) -> Result<(), OutOfMemory>
    ensures { OnOk result (string_bytes text.new ≡ string_bytes text.old ++ trade_warned name.now warning.now) }
{
    match warning {
        TradeWarning::Falls { line, from, to } => push_falls(text, name, *line, *from, *to),
        TradeWarning::Midnight { line, from, to } => push_midnight(text, name, *line, *from, *to),
        TradeWarning::MoreFalls { count } => push_more(text, name, *count),
        TradeWarning::FewSymbols { stage, symbols } => push_few(text, name, stage, *symbols),
    }
}

// Appends the line of a warning.
fn push_line(text: &mut String, name: &str, warning: &TradeWarning) -> Result<(), OutOfMemory>
    ensures { OnOk result (string_bytes text.new ≡ string_bytes text.old ++ trade_line name.now warning.now) }
{
    text.push_str("Warning: ")?;
    push_warned(text, name, warning)?;
    text.push_str(".\n")?;
    Ok(())
}

// Appends the lines of warnings of the trades of a file.
fn push_each(text: &mut String, name: &str, warnings: &[TradeWarning]) -> Result<(), OutOfMemory>
    ensures { OnOk result (string_bytes text.new ≡ string_bytes text.old ++ flat_map (trade_line name.now) warnings.now) }
{
    for warning in warnings {
        push_line(text, name, warning)?;
    }
    Ok(())
}

/// Appends the lines of warnings, where trades are given.
pub(crate) fn push_lines(
    text: &mut String,
    given: Option<&GivenTrades>,
    warnings: &[TradeWarning],
) -> Result<(), OutOfMemory>
    ensures { OnOk result (string_bytes text.new ≡ string_bytes text.old ++ trade_lines (option_map (λ g. g.now) given.entry) warnings.now) }
{
    match given {
        None => Ok(()),
        Some(given) => push_each(text, given.name(), warnings),
    }
}
