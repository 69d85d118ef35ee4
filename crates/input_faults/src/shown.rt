// How bytes of a file are shown in a line of text.
ghost use Rattle.std.specs.Prelude.{◌≡◌, ◌++◌, ◌<◌, OnOk, string_bytes, take};
ghost use Rattle.std.specs.List.{flat_map};
ghost use Rattle.input_faults.specs.Shown.{closing, hex_digit, max_shown_bytes, shown, shown_byte, stands};

use std::alloc::AllocError;

// Of a word so many bytes are shown at most.
const MAX_SHOWN_BYTES: usize = 40;

// The digit of a number below 16.
fn hex_digit(number: u8) -> char
    requires { number < 16 }
    ensures digit { result ≡ hex_digit number }
    ensures ascii { result < 128 }
{
    if number < 10 {
        char::from(b'0' + number)
    } else {
        char::from(b'a' + (number - 10))
    }
}

// Appends a byte as it is shown.
fn push_byte(text: &mut String, byte: u8) -> Result<(), AllocError>
    ensures { OnOk result (string_bytes text.new ≡ string_bytes text.old ++ shown_byte byte) }
{
    if byte == b'"' {
        return text.push_str("\\\"");
    }
    if byte == b'\\' {
        return text.push_str("\\\\");
    }
    if b' ' <= byte && byte <= b'~' {
        return text.push(char::from(byte));
    }
    let high = hex_digit(byte / 16);
    let low = hex_digit(byte % 16);
    write!(text, "\\x{high}{low}")
}

// Appends each of these bytes as it is shown.
fn push_bytes(text: &mut String, bytes: &[u8]) -> Result<(), AllocError>
    ensures { OnOk result (string_bytes text.new ≡ string_bytes text.old ++ flat_map shown_byte bytes.now) }
{
    for byte in bytes {
        push_byte(text, *byte)?;
    }
    Ok(())
}

// The bytes of a word that are shown.
#[tactic(auto, using(crate::proofs::ShownFacts::take_least))]
fn front(word: &[u8]) -> &[u8]
    ensures { result.now ≡ take max_shown_bytes word.now }
{
    let (front, _) = word.split_at(MAX_SHOWN_BYTES.min(word.len()));
    front
}

// What stands behind the bytes of a word that are shown.
fn closing(word: &[u8]) -> &'static str
    ensures { result.now ≡ closing word.now }
{
    if word.len() > MAX_SHOWN_BYTES {
        "\"..."
    } else {
        "\""
    }
}

/// Appends a word as it is shown, between double quotes.
pub fn push_shown(text: &mut String, word: &[u8]) -> Result<(), AllocError>
    ensures { OnOk result (string_bytes text.new ≡ string_bytes text.old ++ shown word.now) }
{
    text.push_str("\"")?;
    push_bytes(text, front(word))?;
    text.push_str(closing(word))?;
    Ok(())
}

// Appends that a word stands somewhere.
pub(crate) fn push_stands(text: &mut String, word: &[u8]) -> Result<(), AllocError>
    ensures { OnOk result (string_bytes text.new ≡ string_bytes text.old ++ stands word.now) }
{
    push_shown(text, word)?;
    text.push_str(" stands here")?;
    Ok(())
}
