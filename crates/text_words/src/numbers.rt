// Number words.
ghost use Rattle.std.specs.Prelude.{◌≡◌};
ghost use Rattle.text_words.specs.Numbers.{number_of, signed_number_of};

/// The greatest number of digits of a number word.
pub const MAX_NUMBER_DIGITS: usize = 19;

/// The value of a number word: 1 to [`MAX_NUMBER_DIGITS`] digits, so that it never wraps. None for every other word.
pub fn number_of(word: &[u8]) -> Option<u64>
    ensures { result ≡ number_of word.now }
{
    if word.is_empty() || word.len() > MAX_NUMBER_DIGITS {
        return None;
    }
    let mut value = 0u64;
    for byte in word {
        if !byte.is_ascii_digit() {
            return None;
        }
        value = value * 10 + u64::from(*byte - b'0');
    }
    Some(value)
}

/// The value of a number word that may have a minus directly before it. None for every other word.
pub fn signed_number_of(word: &[u8]) -> Option<i128>
    ensures { result ≡ signed_number_of word.now }
{
    match word.split_first() {
        None => None,
        Some((first, digits)) => {
            if *first == b'-' {
                match number_of(digits) {
                    None => None,
                    Some(n) => Some(-i128::from(n)),
                }
            } else {
                match number_of(word) {
                    None => None,
                    Some(n) => Some(i128::from(n)),
                }
            }
        }
    }
}
