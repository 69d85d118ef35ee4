// The bytes that a text with escapes stands for: `\r`, `\n`, `\t`, `\\`, and `\xHH` for any byte.
use tuple_edge::OutOfMemory;

// What of an escape was read.
#[derive(Clone, Copy)]
enum Before {
    Nothing,
    Backslash,
    Hex,
    Digit(u8),
}

// What a byte comes to: the beginning of an escape, a byte that is meant, or nothing that has a form.
#[derive(Clone, Copy)]
enum Meant {
    Begins(Before),
    Is(u8),
    NoForm,
}

// The value of a hexadecimal digit.
fn digit_of(byte: u8) -> Option<u8> {
    match byte {
        b'0'..=b'9' => Some(byte - b'0'),
        b'a'..=b'f' => Some(byte - b'a' + 10),
        b'A'..=b'F' => Some(byte - b'A' + 10),
        _ => None,
    }
}

// What a byte behind a backslash comes to.
fn escaped(byte: u8) -> Meant {
    match byte {
        b'r' => Meant::Is(b'\r'),
        b'n' => Meant::Is(b'\n'),
        b't' => Meant::Is(b'\t'),
        b'\\' => Meant::Is(b'\\'),
        b'x' => Meant::Begins(Before::Hex),
        _ => Meant::NoForm,
    }
}

// What a byte comes to.
fn read(before: Before, byte: u8) -> Meant {
    match before {
        Before::Nothing if byte == b'\\' => Meant::Begins(Before::Backslash),
        Before::Nothing => Meant::Is(byte),
        Before::Backslash => escaped(byte),
        Before::Hex => match digit_of(byte) {
            Some(high) => Meant::Begins(Before::Digit(high)),
            None => Meant::NoForm,
        },
        Before::Digit(high) => match digit_of(byte) {
            Some(low) => Meant::Is(high.wrapping_mul(16).wrapping_add(low)),
            None => Meant::NoForm,
        },
    }
}

/// Appends what a text stands for, and says whether it has a form.
pub(crate) fn push_content(text: &str, into: &mut Vec<u8>) -> Result<bool, OutOfMemory> {
    let mut before = Before::Nothing;
    for byte in text.bytes() {
        match read(before, byte) {
            Meant::Begins(begun) => before = begun,
            Meant::Is(byte) => {
                into.push(byte)?;
                before = Before::Nothing;
            }
            Meant::NoForm => return Ok(false),
        }
    }
    Ok(matches!(before, Before::Nothing))
}

/// Appends so many times what a text stands for, each time with a line feed where it ends in one.
pub(crate) fn push_times(
    times: u32,
    text: &str,
    ends: bool,
    into: &mut Vec<u8>,
) -> Result<bool, OutOfMemory> {
    let mut once = Vec::new(*into.allocator());
    if !push_content(text, &mut once)? {
        return Ok(false);
    }
    if ends {
        once.push(b'\n')?;
    }
    for _time in 0..times {
        into.extend_from_slice(once.as_slice())?;
    }
    Ok(true)
}
