// Words read from left to right.
ghost use Rattle.command_line.specs.Views.{text_in};
ghost use Rattle.look_words.specs.Parts.{parts_in};
ghost use Rattle.look_words.specs.Reading.{after_kind, after_option, after_word, parts_at_end, reading_in, settled, start};
ghost use Rattle.std.specs.Prelude.{◌≡◌, option_map};

use crate::kind::{OptionKind, Valued, option_kind};
use crate::option::{Named, option_of};
use crate::parts::Parts;
use command_line::is_plain;

/// What the next word is to be: a name or an option, or the value of the option before it.
#[derive(Clone, Copy)]
pub(crate) enum Awaited {
    Any,
    Value(Valued),
}

/// What the words so far gave.
#[derive(Clone, Copy)]
pub(crate) struct Reading<'a> {
    pub(crate) parts: Parts<'a>,
    pub(crate) awaited: Awaited,
}

// These parts, of which no option awaits its value.
fn settled<'a>(parts: Option<Parts<'a>>) -> Option<Reading<'a>>
    ensures { option_map reading_in result ≡ settled (option_map parts_in parts.entry) }
{
    let parts = parts?;
    Some(Reading {
        parts,
        awaited: Awaited::Any,
    })
}

// After an option of this kind, whose value may be the next word.
fn after_kind<'a>(parts: Parts<'a>, kind: OptionKind, value: Option<&'a str>) -> Option<Reading<'a>>
    ensures { option_map reading_in result ≡ after_kind kind (text_in value.entry) (parts_in parts.entry) }
{
    match (kind, value) {
        (OptionKind::Alone(flag), value) => settled(parts.with_flag(flag, value)),
        (OptionKind::WithValue(option), Some(value)) => settled(parts.with_value(option, value)),
        (OptionKind::WithValue(option), None) => Some(Reading {
            parts,
            awaited: Awaited::Value(option),
        }),
    }
}

// After an option, if the command has it.
fn after_option<'a>(command: &str, parts: Parts<'a>, option: Named<'a>) -> Option<Reading<'a>>
    ensures { option_map reading_in result ≡ after_option command.now option.entry.name.now (text_in option.entry.value) (parts_in parts.entry) }
{
    after_kind(parts, option_kind(command, option.name)?, option.value)
}

impl<'a> Reading<'a> {
    /// Before any word.
    pub(crate) fn start() -> Reading<'a>
        ensures { reading_in result ≡ start }
    {
        Reading {
            parts: Parts::none(),
            awaited: Awaited::Any,
        }
    }

    /// After one more word behind a command.
    pub(crate) fn after_word(self, command: &str, word: &'a str) -> Option<Reading<'a>>
        ensures { option_map reading_in result ≡ after_word command.now word.now (reading_in self.entry) }
    {
        match self.awaited {
            Awaited::Value(option) => settled(self.parts.with_value(option, word)),
            Awaited::Any => {
                if is_plain(word) {
                    return settled(self.parts.with_name(word));
                }
                after_option(command, self.parts, option_of(word)?)
            }
        }
    }

    /// What the words gave, where no option awaits its value.
    pub(crate) fn parts_at_end(self) -> Option<Parts<'a>>
        ensures { option_map parts_in result ≡ parts_at_end (reading_in self.entry) }
    {
        match self.awaited {
            Awaited::Any => Some(self.parts),
            Awaited::Value(_) => None,
        }
    }
}
