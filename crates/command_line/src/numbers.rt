// Numbers of a command line.
ghost use Rattle.std.specs.Prelude.{◌≡◌, ◌≤◌, IfSome};
ghost use Rattle.command_line.specs.Forms.{number_or, number_within};
ghost use Rattle.command_line.specs.Views.{text_in};

use text_words::number_of;

/// The most digits of a number.
const MAX_DIGITS: usize = 10;

/// The number that a word says, where it is in this range.
pub fn number_within(least: u32, most: u32, word: &str) -> Option<u32>
    ensures number { result ≡ number_within least most word.now }
    ensures within { IfSome result (λ n. (least ≤ n) × (n ≤ most)) }
{
    if word.len() > MAX_DIGITS {
        return None;
    }
    match number_of(word.as_bytes()) {
        None => None,
        Some(number) => {
            if u64::from(least) <= number && number <= u64::from(most) {
                Some(number as u32)
            } else {
                None
            }
        }
    }
}

/// The number of an option, or what holds without the option.
pub fn number_or(default: u32, least: u32, most: u32, word: Option<&str>) -> Option<u32>
    requires { (least ≤ default) × (default ≤ most) }
    ensures number { result ≡ number_or default least most (text_in word.entry) }
    ensures within { IfSome result (λ n. (least ≤ n) × (n ≤ most)) }
{
    match word {
        None => Some(default),
        Some(word) => number_within(least, most, word),
    }
}
