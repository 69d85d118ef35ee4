// Numbers among the words.
ghost use Rattle.command_line.specs.Forms.{max_threads, max_turns};
ghost use Rattle.look_words.specs.Forms.{numbers_in, numbers_of};
ghost use Rattle.look_words.specs.Parts.{parts_in};
ghost use Rattle.std.specs.Prelude.{◌≡◌, ◌≤◌, IfSome, option_map};

use crate::parts::Parts;
use command_line::{DEFAULT_THREADS, DEFAULT_TURNS, MAX_TURNS, MIN_THREADS, number_or};
use tuple_edge::MAX_THREADS;

/// How many threads a rehearsal has, and how many turns each of them does at most.
#[derive(Clone, Copy)]
pub(crate) struct RunNumbers {
    pub(crate) threads: u32,
    pub(crate) turns: u32,
}

/// The greatest number by which a row may be asked about.
pub(crate) const MAX_ROW_NUMBER: u32 = 4_294_967_295;

/// The numbers of a rehearsal.
pub(crate) fn numbers_of(parts: &Parts<'_>) -> Option<RunNumbers>
    ensures numbers { option_map numbers_in result ≡ numbers_of (parts_in parts.now) }
    ensures within { IfSome result (λ n. (1 ≤ n.threads) × (n.threads ≤ max_threads) × (n.turns ≤ max_turns)) }
{
    let threads = number_or(DEFAULT_THREADS, MIN_THREADS, MAX_THREADS, parts.threads)?;
    let turns = number_or(DEFAULT_TURNS, 0, MAX_TURNS, parts.turns)?;
    Some(RunNumbers { threads, turns })
}
