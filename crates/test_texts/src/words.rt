// Lines, words and number words.
use crate::fixture::none_is_wrong;
use std::alloc::Global;
use std::test::Fail;
use text_words::{Lines, number_of, signed_number_of};

// The lines that count, each with its number and its words in brackets.
fn lines_text(alloc: Global, bytes: &[u8]) -> Result<Vec<u8>, Fail> {
    let mut text = Vec::new(alloc);
    let mut lines = Lines::new(bytes);
    for _ in 0..9 {
        let Some(mut line) = lines.next_line() else {
            break;
        };
        let number = line.number;
        text.extend_from_slice(format!(in alloc; "{number}")?.as_bytes())?;
        for _ in 0..9 {
            let Some(word) = line.words.next_word() else {
                break;
            };
            text.push(b'[')?;
            text.extend_from_slice(word)?;
            text.push(b']')?;
        }
    }
    Ok(text)
}

const LINES: &[(&[u8], &str)] = &[
    (b"", ""),
    (b"a", "1[a]"),
    (b"a \tbc\r\n#d e\n \n #\n\re f\r", "1[a][bc]5[\re][f\r]"),
    (b"\n\n\na\n", "4[a]"),
    (b"a\r\r\nb", "1[a\r]2[b]"),
    (b" a#\n", "1[a#]"),
];

fn are_lines(alloc: Global, bytes: &[u8], wanted: &str) -> Result<bool, Fail> {
    let found = lines_text(alloc, bytes)?;
    Ok(found.as_slice() == wanted.as_bytes())
}

fn first_wrong(alloc: Global) -> Result<Option<usize>, Fail> {
    for (place, (text, wanted)) in LINES.iter().enumerate() {
        if !are_lines(alloc, text, wanted)? {
            return Ok(Some(place));
        }
    }
    Ok(None)
}

#[test]
fn reads_lines_and_words(rt: HostRuntime) -> Result<(), Fail> {
    none_is_wrong(first_wrong(rt.alloc())?)
}

const NUMBERS: &[(&str, Option<u64>)] = &[
    ("", None),
    ("0", Some(0)),
    ("007", Some(7)),
    ("9999999999999999999", Some(9_999_999_999_999_999_999)),
    ("09999999999999999999", None),
    ("12a", None),
    ("+1", None),
    ("-1", None),
];

#[test]
fn reads_numbers() -> Result<(), Fail> {
    let mut numbers = NUMBERS.iter();
    none_is_wrong(numbers.position(|(word, value)| number_of(word.as_bytes()) != *value))
}

const SIGNED: &[(&str, Option<i128>)] = &[
    ("", None),
    ("-", None),
    ("--1", None),
    ("+1", None),
    ("-0", Some(0)),
    ("-007", Some(-7)),
    ("12", Some(12)),
    ("-9999999999999999999", Some(-9_999_999_999_999_999_999)),
];

#[test]
fn reads_signed_numbers() -> Result<(), Fail> {
    let mut numbers = SIGNED.iter();
    none_is_wrong(numbers.position(|(word, value)| signed_number_of(word.as_bytes()) != *value))
}
