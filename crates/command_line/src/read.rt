// The reading of a command line.
ghost use Rattle.std.specs.Prelude.{◌≡◌, IfOk, IfSome, map, option_map, string_bytes};
ghost use Rattle.command_line.specs.Forms.{form};
ghost use Rattle.command_line.specs.Views.{IsInRange, request_of};

use crate::Command;
use crate::forms::request;
use crate::parse::parse;
use std::alloc::Global;
use tuple_edge::OutOfMemory;

/// What the words after the program's name ask for. None where they have no form.
#[tactic(auto, unfolding(crate::specs::Forms::form))]
pub fn read_words<'a>(
    alloc: Global,
    words: &'a [String],
) -> Result<Option<Command<'a>>, OutOfMemory>
    ensures form { IfOk result (λ command. option_map request_of command ≡ form (map string_bytes words.now)) }
    ensures within { IfOk result (λ command. IfSome command IsInRange) }
{
    let Some((command, rest)) = words.split_first() else {
        return Ok(None);
    };
    match parse(alloc, rest)? {
        None => Ok(None),
        Some(parts) => Ok(request(command.as_str(), &parts)),
    }
}
