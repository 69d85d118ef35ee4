// Values, and the lines that they make.
ghost use Rattle.look_json.specs.Lines.{line_of, number_or_null, word_or_null};
ghost use Rattle.serde_json.specs.View.{view};
ghost use Rattle.serde_json.specs.Written.{has_float};
ghost use Rattle.std.specs.Prelude.{◌≡◌, ◌++◌, IfOk, OnOk, false, option_map};

use serde_json::Value;
use std::alloc::Global;
use tuple_edge::OutOfMemory;

// A number that may not be there.
pub(crate) fn number_or_null(number: Option<u64>) -> Value
    ensures { view result ≡ number_or_null number }
{
    match number {
        Some(number) => Value::from(number),
        None => Value::Null,
    }
}

// A word that may not be there.
pub(crate) fn word_or_null(alloc: Global, word: Option<&str>) -> Result<Value, OutOfMemory>
    ensures { IfOk result (λ value. view value ≡ word_or_null (option_map (λ w. w.now) word.entry)) }
{
    match word {
        Some(word) => {
            let value = Value::try_from_str(alloc, word)?;
            Ok(value)
        }
        None => Ok(Value::Null),
    }
}

// Appends the line of a value.
pub(crate) fn push_line(text: &mut Vec<u8>, alloc: Global, value: &Value) -> Result<(), OutOfMemory>
    requires { has_float (view value.now) ≡ false }
    ensures { OnOk result (text.new.items ≡ text.old.items ++ line_of (view value.now)) }
{
    let line = value.to_string(alloc)?;
    text.extend_from_slice(line.as_bytes())?;
    text.push(b'\n')?;
    Ok(())
}
