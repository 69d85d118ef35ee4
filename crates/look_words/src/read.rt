// The reading of a command line.
ghost use Rattle.look_words.specs.Forms.{IsInRange, form, request_of};
ghost use Rattle.look_words.specs.Parts.{parts_in};
ghost use Rattle.look_words.specs.Reading.{after_words, given, reading_in};
ghost use Rattle.std.specs.Prelude.{◌≡◌, IfSome, map, option_map, string_bytes};

use crate::LookCommand;
use crate::forms::request;
use crate::parts::Parts;
use crate::reading::Reading;

// After these words too. There are few before one that can't be read, as each name and option is given once.
fn after_words<'a>(command: &str, reading: Reading<'a>, words: &'a [String]) -> Option<Reading<'a>>
    ensures { option_map reading_in result ≡ after_words command.now (map string_bytes words.now) (reading_in reading.entry) }
{
    match words {
        [] => Some(reading),
        [word, rest @ ..] => after_words(
            command,
            reading.after_word(command, word.as_str())?,
            rest,
        ),
    }
}

// What the words behind a command give, if they can be read.
fn given<'a>(command: &str, words: &'a [String]) -> Option<Parts<'a>>
    ensures { option_map parts_in result ≡ given command.now (map string_bytes words.now) }
{
    after_words(command, Reading::start(), words)?.parts_at_end()
}

/// What the words after the program's name ask for. None where they have no form.
#[tactic(auto, unfolding(crate::specs::Forms::form))]
pub fn read_words(words: &[String]) -> Option<LookCommand<'_>>
    ensures form { option_map request_of result ≡ form (map string_bytes words.now) }
    ensures within { IfSome result IsInRange }
{
    let (command, rest) = words.split_first()?;
    request(command.as_str(), &given(command.as_str(), rest)?)
}
