// What a word may look like by itself.
ghost use Rattle.std.specs.Prelude.{◌≡◌, option_map, string_bytes};
ghost use Rattle.std.specs.List.{list_all};
ghost use Rattle.command_line.specs.Words.{behind_dash, behind_dashes, is_plain, may_stand, may_stand_behind, value_in};

/// Whether a word may be a positional word or a value: it is not empty, and doesn't begin with `-`.
pub fn is_plain(word: &str) -> bool
    ensures { result ≡ is_plain word.now }
{
    match word.as_bytes().first() {
        None => false,
        Some(byte) => *byte != b'-',
    }
}

// What stands behind a first `-`.
fn behind_dash(word: &str) -> Option<&str>
    ensures { option_map (λ text. text.now) result ≡ behind_dash word.now }
{
    word.strip_prefix('-')
}

/// What stands behind a first `--`, if a word begins so.
pub fn behind_dashes(word: &str) -> Option<&str>
    ensures { option_map (λ text. text.now) result ≡ behind_dashes word.now }
{
    behind_dash(behind_dash(word)?)
}

// What stands behind the first `=`.
fn value_in(text: &str) -> Option<&str>
    ensures { option_map (λ value. value.now) result ≡ value_in text.now }
{
    match text.split_once('=') {
        None => None,
        Some((_, value)) => Some(value),
    }
}

// Whether this may stand behind `--` in a word.
fn may_stand_behind(text: &str) -> bool
    ensures { result ≡ may_stand_behind text.now }
{
    if text.is_empty() {
        return false;
    }
    match value_in(text) {
        None => true,
        Some(value) => is_plain(value),
    }
}

/// Whether a word can stand somewhere behind a command: it is plain, or it is `--` with more behind it,
/// and with a plain value if it has one.
fn may_stand(word: &str) -> bool
    ensures { result ≡ may_stand word.now }
{
    if is_plain(word) {
        return true;
    }
    match behind_dashes(word) {
        None => false,
        Some(text) => may_stand_behind(text),
    }
}

/// Whether each word can stand somewhere behind a command.
pub(crate) fn may_all_stand(words: &[String]) -> bool
    ensures { result ≡ list_all (λ word. may_stand (string_bytes word)) words.now }
{
    words.iter().all(|word| may_stand(word.as_str()))
}
