// Numbers.
ghost use Rattle.std.specs.Fmt.{decimal, signed_decimal};
ghost use Rattle.std.specs.Prelude.{◌≡◌, ◌++◌, OnOk, string_bytes};

use tuple_edge::OutOfMemory;

// Appends a number.
pub(crate) fn push_number(text: &mut String, number: i64) -> Result<(), OutOfMemory>
    ensures { OnOk result (string_bytes text.new ≡ string_bytes text.old ++ signed_decimal number) }
{
    write!(text, "{number}")?;
    Ok(())
}

// Appends how many there are of something.
pub(crate) fn push_count(text: &mut String, count: u32) -> Result<(), OutOfMemory>
    ensures { OnOk result (string_bytes text.new ≡ string_bytes text.old ++ decimal count) }
{
    write!(text, "{count}")?;
    Ok(())
}
