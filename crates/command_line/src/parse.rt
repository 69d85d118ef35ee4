// The words split by `clap`.
ghost use Rattle.std.specs.Prelude.{◌≡◌, IfOk, map, option_map, string_bytes};
ghost use Rattle.clap.specs.Words.{found_of};
ghost use Rattle.command_line.specs.Forms.{parts_in};
ghost use Rattle.command_line.specs.Syntax.{parts_found};
ghost use Rattle.command_line.specs.Views.{parts_of};
ghost use Rattle.command_line.specs.Words.{given};

use crate::parts::Parts;
use crate::syntax::syntax;
use crate::word::may_all_stand;
use clap::ArgMatches;
use clap::error::ErrorKind;
use std::alloc::Global;
use tuple_edge::OutOfMemory;

// The parts by their names.
fn parts_found<'a>(matches: &ArgMatches<'a>) -> Parts<'a>
    ensures { parts_of result ≡ parts_found (found_of matches.now) }
{
    Parts {
        first: matches.get_str("first"),
        second: matches.get_str("second"),
        third: matches.get_str("third"),
        cash: matches.get_str("cash"),
        script: matches.get_str("script"),
        threads: matches.get_str("threads"),
        turns: matches.get_str("turns"),
        journal: matches.get_str("journal"),
    }
}

/// The words behind a command, split into positional words and options, if they can be.
pub(crate) fn parse<'a>(
    alloc: Global,
    words: &'a [String],
) -> Result<Option<Parts<'a>>, OutOfMemory>
    ensures { IfOk result (λ parts. option_map parts_of parts ≡ option_map parts_in (given (map string_bytes words.now))) }
{
    if !may_all_stand(words) {
        return Ok(None);
    }
    match syntax(alloc)?.try_get_matches_from(words) {
        Ok(matches) => Ok(Some(parts_found(&matches))),
        Err(error) => match error.kind() {
            ErrorKind::OutOfMemory => Err(OutOfMemory),
            _ => Ok(None),
        },
    }
}
