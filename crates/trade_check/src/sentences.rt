// The sentences on symbols.
ghost use Rattle.std.specs.Prelude.{◌≡◌, ◌++◌, OnOk, option_map, string_bytes};
ghost use Rattle.std.specs.Fmt.{signed_decimal};
ghost use Rattle.trade_check.specs.Symbols.{kept_sentence, kept_sentences, place_text, symbol_sentences, symbol_text};

use crate::GivenTrades;
use crate::symbols::{before_symbol, has_symbol, kept_symbol};
use input_faults::push_shown;
use plan_check::{Numbered, push_stage};
use plan_reader::Stage;
use tuple_edge::OutOfMemory;

/// Appends a number.
pub(crate) fn push_number(text: &mut String, number: i64) -> Result<(), OutOfMemory>
    ensures { OnOk result (string_bytes text.new ≡ string_bytes text.old ++ signed_decimal number) }
{
    write!(text, "{number}")?;
    Ok(())
}

// Appends where in a file of this name a symbol first stands.
fn push_place(text: &mut String, name: &str, line: u64) -> Result<(), OutOfMemory>
    ensures { OnOk result (string_bytes text.new ≡ string_bytes text.old ++ place_text name.now line) }
{
    write!(text, ", which first stands in line {line} of {name}.\n")?;
    Ok(())
}

// Appends which symbol a stage keeps, and where it first stands.
fn push_symbol(
    text: &mut String,
    given: &GivenTrades,
    stage: &Numbered,
    number: i64,
) -> Result<(), OutOfMemory>
    ensures { OnOk result (string_bytes text.new ≡ string_bytes text.old ++ symbol_text given.now stage.now number) }
{
    let before = before_symbol(number, given.trades().rows());
    let line = given.line_of(before as u64 + 2);
    let name = given.name();
    text.push_str("Symbol ")?;
    push_number(text, number)?;
    text.push_str(" of ")?;
    push_stage(text, stage)?;
    text.push_str(", is ")?;
    push_shown(text, given.trades().symbol(number))?;
    push_place(text, name, line)?;
    Ok(())
}

// Appends the same, where a stage keeps one that the trades have.
fn push_kept(
    text: &mut String,
    given: &GivenTrades,
    stage: &Numbered,
    kept: Option<i64>,
) -> Result<(), OutOfMemory>
    ensures { OnOk result (string_bytes text.new ≡ string_bytes text.old ++ kept_sentence given.now stage.now kept) }
{
    match kept {
        None => Ok(()),
        Some(number) => {
            if has_symbol(given.trades().rows(), number) {
                return push_symbol(text, given, stage, number);
            }
            Ok(())
        }
    }
}

// Appends the sentences of stages, numbered from 1.
fn push_stages(text: &mut String, given: &GivenTrades, stages: &[Stage]) -> Result<(), OutOfMemory>
    ensures { OnOk result (string_bytes text.new ≡ string_bytes text.old ++ kept_sentences given.now 1 stages.now) }
{
    for (place, stage) in stages.iter().enumerate() {
        let numbered = Numbered {
            number: place + 1,
            stage: *stage,
        };
        push_kept(text, given, &numbered, kept_symbol(&stage.op))?;
    }
    Ok(())
}

/// Appends the sentences of stages that keep a symbol, where trades are given.
pub(crate) fn push_symbols(
    text: &mut String,
    given: Option<&GivenTrades>,
    stages: &[Stage],
) -> Result<(), OutOfMemory>
    ensures { OnOk result (string_bytes text.new ≡ string_bytes text.old ++ symbol_sentences (option_map (λ g. g.now) given.entry) stages.now) }
{
    match given {
        None => Ok(()),
        Some(given) => push_stages(text, given, stages),
    }
}
