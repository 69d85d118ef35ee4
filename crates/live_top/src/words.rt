// The words of the program.
ghost use Rattle.live_top.specs.Words.{files_in, files_of};
ghost use Rattle.std.specs.Prelude.{◌≡◌, ◌∷◌, [], map, option_map, string_bytes};

use command_line::is_plain;

/// The files of a live run: a plan, its trades and, where one is named, a failure script.
#[derive(Clone, Copy)]
pub(crate) struct Named<'a> {
    pub(crate) plan: &'a str,
    pub(crate) trades: &'a str,
    pub(crate) script: Option<&'a str>,
}

// A plan and its trades.
fn two<'a>(plan: &'a str, trades: &'a str) -> Option<Named<'a>>
    ensures { option_map files_in result ≡ files_of (plan.now ∷ trades.now ∷ []) }
{
    if is_plain(plan) && is_plain(trades) {
        return Some(Named {
            plan,
            trades,
            script: None,
        });
    }
    None
}

// A plan, its trades and a script.
fn three<'a>(plan: &'a str, trades: &'a str, script: &'a str) -> Option<Named<'a>>
    ensures { option_map files_in result ≡ files_of (plan.now ∷ trades.now ∷ script.now ∷ []) }
{
    if is_plain(plan) && is_plain(trades) && is_plain(script) {
        return Some(Named {
            plan,
            trades,
            script: Some(script),
        });
    }
    None
}

/// The files that words name, where they have a form: `PLAN TRADES` or `PLAN TRADES SCRIPT`.
pub(crate) fn read_words(words: &[String]) -> Option<Named<'_>>
    ensures { option_map files_in result ≡ files_of (map string_bytes words.now) }
{
    match words {
        [plan, trades] => two(plan.as_str(), trades.as_str()),
        [plan, trades, script] => three(plan.as_str(), trades.as_str(), script.as_str()),
        _ => None,
    }
}
