// The words behind a command by what they are.
ghost use Rattle.command_line.specs.Views.{text_in};
ghost use Rattle.look_words.specs.Parts.{flag_given, name_given, no_parts, parts_in, raised, taken, value_given};
ghost use Rattle.std.specs.Prelude.{◌≡◌, option_map};

use crate::kind::{Flag, Valued};
use command_line::is_plain;

/// Up to three names in order, the values of the options that have one, and which of the others stand among the words.
#[derive(Clone, Copy)]
pub(crate) struct Parts<'a> {
    pub(crate) first: Option<&'a str>,
    pub(crate) second: Option<&'a str>,
    pub(crate) third: Option<&'a str>,
    pub(crate) cash: Option<&'a str>,
    pub(crate) script: Option<&'a str>,
    pub(crate) rejects: Option<&'a str>,
    pub(crate) picture: Option<&'a str>,
    pub(crate) threads: Option<&'a str>,
    pub(crate) turns: Option<&'a str>,
    pub(crate) svg: bool,
    pub(crate) json: bool,
    pub(crate) only: bool,
    pub(crate) all: bool,
    pub(crate) check: bool,
}

// The value of an option, which is given once.
fn taken<'a>(before: Option<&'a str>, value: &'a str) -> Option<&'a str>
    ensures { text_in result ≡ taken (text_in before.entry) value.now }
{
    if before.is_some() || !is_plain(value) {
        return None;
    }
    Some(value)
}

// That an option stands among the words, which is given once and has no value.
fn raised(before: bool, value: Option<&str>) -> Option<bool>
    ensures { result ≡ raised before (text_in value.entry) }
{
    if before || value.is_some() {
        return None;
    }
    Some(true)
}

impl<'a> Parts<'a> {
    /// What no words give.
    pub(crate) fn none() -> Parts<'a>
        ensures { parts_in result ≡ no_parts }
    {
        Parts {
            first: None,
            second: None,
            third: None,
            cash: None,
            script: None,
            rejects: None,
            picture: None,
            threads: None,
            turns: None,
            svg: false,
            json: false,
            only: false,
            all: false,
            check: false,
        }
    }

    /// With one more name, where there are fewer than three.
    pub(crate) fn with_name(self, name: &'a str) -> Option<Parts<'a>>
        ensures { option_map parts_in result ≡ name_given name.now (parts_in self.entry) }
    {
        match (self.first, self.second, self.third) {
            (None, _, _) => Some(Parts {
                first: Some(name),
                ..self
            }),
            (Some(_), None, _) => Some(Parts {
                second: Some(name),
                ..self
            }),
            (Some(_), Some(_), None) => Some(Parts {
                third: Some(name),
                ..self
            }),
            _ => None,
        }
    }

    /// With the value of an option.
    pub(crate) fn with_value(self, option: Valued, value: &'a str) -> Option<Parts<'a>>
        ensures { option_map parts_in result ≡ value_given option value.now (parts_in self.entry) }
    {
        match option {
            Valued::Cash => Some(Parts {
                cash: Some(taken(self.cash, value)?),
                ..self
            }),
            Valued::Script => Some(Parts {
                script: Some(taken(self.script, value)?),
                ..self
            }),
            Valued::Rejects => Some(Parts {
                rejects: Some(taken(self.rejects, value)?),
                ..self
            }),
            Valued::Picture => Some(Parts {
                picture: Some(taken(self.picture, value)?),
                ..self
            }),
            Valued::Threads => Some(Parts {
                threads: Some(taken(self.threads, value)?),
                ..self
            }),
            Valued::Turns => Some(Parts {
                turns: Some(taken(self.turns, value)?),
                ..self
            }),
        }
    }

    /// With an option that has no value.
    pub(crate) fn with_flag(self, option: Flag, value: Option<&str>) -> Option<Parts<'a>>
        ensures { option_map parts_in result ≡ flag_given option (text_in value.entry) (parts_in self.entry) }
    {
        match option {
            Flag::Svg => Some(Parts {
                svg: raised(self.svg, value)?,
                ..self
            }),
            Flag::Json => Some(Parts {
                json: raised(self.json, value)?,
                ..self
            }),
            Flag::Only => Some(Parts {
                only: raised(self.only, value)?,
                ..self
            }),
            Flag::All => Some(Parts {
                all: raised(self.all, value)?,
                ..self
            }),
            Flag::Check => Some(Parts {
                check: raised(self.check, value)?,
                ..self
            }),
        }
    }
}
