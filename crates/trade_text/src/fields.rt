// The fields of trades and cash movements, each from its text. The forms and limits are this crate's own.
ghost use Rattle.std.specs.List.{list_all};
ghost use Rattle.std.specs.Prelude.{◌==◌, ◌≡◌, neg_ℤ, pos, ◌+◌, ◌*◌, ◌<◌, ◌≤◌, IfOk, IfSome, IsTrue, Err, length, option_map, position};
ghost use Rattle.std.specs.Str.{str_eq_ignore_ascii_case};
ghost use Rattle.trade_text.specs.Fields.{account_of, amount_of, cents_of, clock_of, digits_of, drop_blanks, fraction_of, is_symbol, is_symbol_byte, number_between, one_or_two_digits, price_of, qty_of, ranged, seconds_of_day, side_of, split_once, time_of, trim_blanks, trim_end, two_digits};
ghost use Rattle.trade_text.specs.Limits.{max_account, max_amount, max_cents, max_qty, max_second_of_day, max_seconds};
ghost use Rattle.trade_text.specs.TradesView.{IsBetween};
ghost use Rattle.trade_text.specs.declared.fields.Fault.TheVariants as fault;

use text_words::{is_blank, number_of};

// The latest time, in seconds.
const MAX_SECONDS: u64 = 9_999_999_999;

const MAX_ACCOUNT: u64 = 1_000_000;

const MAX_QTY: u64 = 100_000;
// The highest price.
const MAX_CENTS: u64 = 100_000_000;
// The greatest amount, in cents.
const MAX_AMOUNT: u64 = 10_000_000_000;

/// The most bytes of a symbol.
pub const MAX_SYMBOL_BYTES: usize = 32;
// The most digits that a number may have.
const MAX_DIGITS: usize = 18;

// Why a field is refused.
#[derive(Clone, Copy)]
pub(crate) enum Fault {
    // It isn't of its form.
    Form,
    // Its value lies outside its limits.
    Range,
}

// What a trade does.
#[derive(Clone, Copy)]
pub(crate) enum Side {
    Buy,
    Sell,
}

// A text without blanks at its start.
fn without_front(text: &[u8]) -> &[u8]
    ensures { result.now ≡ drop_blanks text.now }
{
    let mut rest = text;
    while let Some((first, more)) = rest.split_first() {
        if !is_blank(*first) {
            break;
        }
        rest = more;
    }
    rest
}

// A text without blanks at its end.
fn without_back(text: &[u8]) -> &[u8]
    ensures { result.now ≡ trim_end text.now }
{
    let mut rest = text;
    while let Some((last, front)) = rest.split_last() {
        if !is_blank(*last) {
            break;
        }
        rest = front;
    }
    rest
}

// Whether a text begins with a byte above the blanks.
#[inline(always)]
fn begins_bare(text: &[u8]) -> bool
    ensures { IsTrue result → drop_blanks text.now ≡ text.now }
{
    match text.split_first() {
        None => false,
        Some((first, _)) => *first > b' ',
    }
}

// Whether a text ends with a byte above the blanks.
#[inline(always)]
fn ends_bare(text: &[u8]) -> bool
    ensures { IsTrue result → trim_end text.now ≡ text.now }
{
    match text.split_last() {
        None => false,
        Some((last, _)) => *last > b' ',
    }
}

// A text without blanks at either end, looked for byte by byte.
#[cold]
#[inline(never)]
fn without_blanks(text: &[u8]) -> &[u8]
    ensures { result.now ≡ trim_blanks text.now }
{
    without_back(without_front(text))
}

/// A text without blanks at either end.
// Most fields have none, which their first and last bytes tell.
#[inline(always)]
pub fn trimmed(text: &[u8]) -> &[u8]
    ensures { result.now ≡ trim_blanks text.now }
{
    if begins_bare(text) && ends_bare(text) {
        return text;
    }
    without_blanks(text)
}

// Whether a text is this word, in either case.
pub(crate) fn is_word(text: &[u8], word: &[u8]) -> bool
    ensures { result ≡ str_eq_ignore_ascii_case text.now word.now }
{
    text.eq_ignore_ascii_case(word)
}

// The place of the first of these bytes.
fn place_of_byte(text: &[u8], mark: u8) -> Option<usize>
    ensures value { result ≡ position (λ b. b == mark) text.now }
    ensures within { IfSome result (λ place. place < length text.now) }
{
    text.iter().position(|byte| *byte == mark)
}

// What stands before and after the first of these bytes.
fn split_once(text: &[u8], mark: u8) -> Option<(&[u8], &[u8])>
    ensures { option_map (λ parts. (parts.0.now, parts.1.now)) result ≡ split_once mark text.now }
{
    let place = place_of_byte(text, mark)?;
    let (front, _) = text.split_at(place);
    let (_, back) = text.split_at(place + 1);
    Some((front, back))
}

// The value of 1 to 18 digits.
fn digits_of(text: &[u8]) -> Option<u64>
    ensures { result ≡ digits_of text.now }
{
    if text.len() > MAX_DIGITS {
        return None;
    }
    number_of(text)
}

// The value of digits, within limits.
#[tactic(auto, unfolding(crate::specs::Fields::number_between))]
fn number_between(text: &[u8], least: u64, most: u64) -> Result<u64, Fault>
    ensures value { result ≡ number_between least most text.now }
    ensures within { IfOk result (λ n. (least ≤ n) × (n ≤ most)) }
{
    let Some(number) = digits_of(text) else {
        return Err(Fault::Form);
    };
    if number < least || number > most {
        return Err(Fault::Range);
    }
    Ok(number)
}

// The value of two digits.
fn two_digits(text: &[u8]) -> Option<u64>
    ensures value { result ≡ two_digits text.now }
    ensures within { IfSome result (λ n. n ≤ 99) }
{
    if text.len() != 2 {
        return None;
    }
    number_of(text)
}

// The value of one or two digits.
fn one_or_two_digits(text: &[u8]) -> Option<u64>
    ensures { result ≡ one_or_two_digits text.now }
{
    if text.len() > 2 {
        return None;
    }
    number_of(text)
}

// The seconds of the day at a time of day.
fn seconds_of_day(hours: u64, minutes: u64, seconds: u64) -> Result<u64, Fault>
    ensures value { result ≡ seconds_of_day hours minutes seconds }
    ensures within { IfOk result (λ time. time ≤ max_second_of_day) }
{
    if hours > 23 || minutes > 59 || seconds > 59 {
        return Err(Fault::Range);
    }
    Ok(hours * 3600 + minutes * 60 + seconds)
}

// The seconds of a time of day that is split at its first colon.
#[tactic(auto, unfolding(crate::specs::Fields::clock_of))]
fn clock_of(front: &[u8], back: &[u8]) -> Result<u64, Fault>
    ensures value { result ≡ clock_of front.now back.now }
    ensures within { IfOk result (λ time. time ≤ max_second_of_day) }
{
    let Some((middle, end)) = split_once(back, b':') else {
        return Err(Fault::Form);
    };
    let Some(hours) = one_or_two_digits(front) else {
        return Err(Fault::Form);
    };
    let Some(minutes) = two_digits(middle) else {
        return Err(Fault::Form);
    };
    let Some(seconds) = two_digits(end) else {
        return Err(Fault::Form);
    };
    seconds_of_day(hours, minutes, seconds)
}

// A time of a text that is no number.
#[inline(never)]
fn time_of_day(text: &[u8]) -> Result<u64, Fault>
    requires { number_between 0 max_seconds text.now ≡ Err fault.Form }
    ensures value { result ≡ time_of text.now }
    ensures within { IfOk result (λ time. time ≤ max_seconds) }
{
    match split_once(text, b':') {
        None => Err(Fault::Form),
        Some((front, back)) => clock_of(front, back),
    }
}

// A time in seconds: a number of them, or a time of day. Most are numbers, in which no colon is looked for.
#[inline(always)]
pub(crate) fn time_of(text: &[u8]) -> Result<u64, Fault>
    ensures value { result ≡ time_of text.now }
    ensures within { IfOk result (λ time. time ≤ max_seconds) }
{
    match number_between(text, 0, MAX_SECONDS) {
        Ok(seconds) => Ok(seconds),
        Err(Fault::Range) => Err(Fault::Range),
        Err(Fault::Form) => time_of_day(text),
    }
}

// The number of an account.
pub(crate) fn account_of(text: &[u8]) -> Result<u64, Fault>
    ensures value { result ≡ account_of text.now }
    ensures within { IfOk result (λ account. (1 ≤ account) × (account ≤ max_account)) }
{
    number_between(text, 1, MAX_ACCOUNT)
}

// How many shares.
pub(crate) fn qty_of(text: &[u8]) -> Result<u64, Fault>
    ensures value { result ≡ qty_of text.now }
    ensures within { IfOk result (λ qty. (1 ≤ qty) × (qty ≤ max_qty)) }
{
    number_between(text, 1, MAX_QTY)
}

// A byte of a symbol: printed ASCII, and neither comma nor double quote.
fn is_symbol_byte(byte: u8) -> bool
    ensures { result ≡ is_symbol_byte byte }
{
    0x20 <= byte && byte <= 0x7e && byte != b',' && byte != b'"'
}

fn has_symbol_bytes(text: &[u8]) -> bool
    ensures { result ≡ list_all is_symbol_byte text.now }
{
    text.iter().all(|byte| is_symbol_byte(*byte))
}

// Whether a text may be a symbol: 1 to 32 of these bytes.
pub(crate) fn is_symbol(text: &[u8]) -> bool
    ensures { result ≡ is_symbol text.now }
{
    !text.is_empty() && text.len() <= MAX_SYMBOL_BYTES && has_symbol_bytes(text)
}

// Whether a trade buys or sells.
#[tactic(auto, unfolding(crate::specs::Fields::side_of))]
pub(crate) fn side_of(text: &[u8]) -> Result<Side, Fault>
    ensures { result ≡ side_of text.now }
{
    if is_word(text, b"b") || is_word(text, b"buy") {
        return Ok(Side::Buy);
    }
    if is_word(text, b"s") || is_word(text, b"sell") {
        return Ok(Side::Sell);
    }
    Err(Fault::Form)
}

// The cents that one or two digits behind the point mean.
fn fraction_of(text: &[u8]) -> Option<u64>
    ensures value { result ≡ fraction_of text.now }
    ensures within { IfSome result (λ cents. cents ≤ 99) }
{
    match text.len() {
        1 => match number_of(text) {
            Some(tens) => Some(tens * 10),
            None => None,
        },
        _ => two_digits(text),
    }
}

// The cents of whole units and of a fraction, up to a limit.
fn total_of(most: u64, units: u64, cents: u64) -> Result<u64, Fault>
    requires most { most ≤ max_amount }
    requires cents { cents ≤ 99 }
    ensures value { result ≡ ranged 0 most (units * 100 + cents) }
    ensures within { IfOk result (λ total. total ≤ most) }
{
    // Beyond this many units the product might wrap.
    if units > most / 100 {
        return Err(Fault::Range);
    }
    let total = units * 100 + cents;
    if total > most {
        return Err(Fault::Range);
    }
    Ok(total)
}

// Money in cents, up to a limit: digits, or digits with a point and one or two digits.
#[inline(always)]
fn cents_of(most: u64, text: &[u8]) -> Result<u64, Fault>
    requires { most ≤ max_amount }
    ensures value { result ≡ cents_of most text.now }
    ensures within { IfOk result (λ cents. cents ≤ most) }
{
    let Some((whole, fraction)) = split_once(text, b'.') else {
        let Some(units) = digits_of(text) else {
            return Err(Fault::Form);
        };
        return total_of(most, units, 0);
    };
    let Some(units) = digits_of(whole) else {
        return Err(Fault::Form);
    };
    let Some(cents) = fraction_of(fraction) else {
        return Err(Fault::Form);
    };
    total_of(most, units, cents)
}

// A price in cents.
#[inline(always)]
pub(crate) fn price_of(text: &[u8]) -> Result<u64, Fault>
    ensures value { result ≡ price_of text.now }
    ensures within { IfOk result (λ cents. cents ≤ max_cents) }
{
    cents_of(MAX_CENTS, text)
}

// An amount in cents: money, below zero behind a minus, with or without a plus else.
pub(crate) fn amount_of(text: &[u8]) -> Result<i64, Fault>
    ensures value { result ≡ amount_of text.now }
    ensures within { IfOk result (λ amount. IsBetween (neg_ℤ (pos max_amount)) (pos max_amount) amount) }
{
    match text.split_first() {
        None => Err(Fault::Form),
        Some((b'-', money)) => Ok(-(cents_of(MAX_AMOUNT, money)? as i64)),
        Some((b'+', money)) => Ok(cents_of(MAX_AMOUNT, money)? as i64),
        Some(_) => Ok(cents_of(MAX_AMOUNT, text)? as i64),
    }
}
