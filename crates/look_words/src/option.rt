// An option: its name, and its value where that stands in the same word.
ghost use Rattle.command_line.specs.Words.{option_of, value_in};
ghost use Rattle.look_words.specs.Parts.{named_of};
ghost use Rattle.std.specs.List.{before_first};
ghost use Rattle.std.specs.Prelude.{◌≡◌, ◌==◌, option_map};

use command_line::behind_dashes;

/// A name and, behind `=`, a value.
#[derive(Clone, Copy)]
pub(crate) struct Named<'a> {
    pub(crate) name: &'a str,
    pub(crate) value: Option<&'a str>,
}

// The name and the value in a text.
fn named_in(text: &str) -> Named<'_>
    ensures { named_of result ≡ (before_first (λ b. b == 61) text.now, value_in text.now) }
{
    match text.split_once('=') {
        None => Named {
            name: text,
            value: None,
        },
        Some((name, value)) => Named {
            name,
            value: Some(value),
        },
    }
}

/// The option that a word is: `--NAME` or `--NAME=VALUE`.
pub(crate) fn option_of(word: &str) -> Option<Named<'_>>
    ensures { option_map named_of result ≡ option_of word.now }
{
    Some(named_in(behind_dashes(word)?))
}
