// The form of each command.
ghost use Rattle.std.specs.Prelude.{◌≡◌, ◌≤◌, IfSome, option_map};
ghost use Rattle.command_line.specs.Forms.{eval_form, has_cash_alone, has_no_option, made_of, make_form, max_count, max_start, move_form, options_of, replay_form, request, run_form, three_of, trial_form, trio_form, two_of};
ghost use Rattle.command_line.specs.Views.{AreInRange, IsInRange, options_in, parts_of, request_of};

use crate::numbers::{number_or, number_within};
use crate::parts::Parts;
use crate::{Command, RunOptions};
use tuple_edge::MAX_THREADS;

/// How many threads there are at least.
pub const MIN_THREADS: u32 = 1;

/// How many threads there are where the option isn't given.
pub const DEFAULT_THREADS: u32 = 4;

/// How many turns each thread does at most.
pub const MAX_TURNS: u32 = 10_000_000;

/// How many turns that are where the option isn't given.
pub const DEFAULT_TURNS: u32 = 200_000;

/// The greatest number from which trades are made.
const MAX_START: u32 = 2_147_483_647;

/// The most trades that are made.
const MAX_COUNT: u32 = 100_000;

// The positional words, where there are exactly two.
fn two_of<'a>(parts: &Parts<'a>) -> Option<(&'a str, &'a str)>
    ensures { option_map (λ words. (words.0.now, words.1.now)) result ≡ two_of (parts_of parts.now) }
{
    match (parts.first, parts.second, parts.third) {
        (Some(first), Some(second), None) => Some((first, second)),
        _ => None,
    }
}

// The positional words, where there are exactly three.
fn three_of<'a>(parts: &Parts<'a>) -> Option<(&'a str, &'a str, &'a str)>
    ensures { option_map (λ words. (words.0.now, words.1.now, words.2.now)) result ≡ three_of (parts_of parts.now) }
{
    match (parts.first, parts.second, parts.third) {
        (Some(first), Some(second), Some(third)) => Some((first, second, third)),
        _ => None,
    }
}

// Whether no option is given but `--cash`, which may be.
fn has_cash_alone(parts: &Parts<'_>) -> bool
    ensures { result ≡ has_cash_alone (parts_of parts.now) }
{
    parts.script.is_none()
        && parts.threads.is_none()
        && parts.turns.is_none()
        && parts.journal.is_none()
}

// Whether no option is given.
fn has_no_option(parts: &Parts<'_>) -> bool
    ensures { result ≡ has_no_option (parts_of parts.now) }
{
    parts.cash.is_none() && has_cash_alone(parts)
}

// What the options say, where their numbers are in range.
fn options_of<'a>(parts: &Parts<'a>) -> Option<RunOptions<'a>>
    ensures options { option_map options_in result ≡ options_of (parts_of parts.now) }
    ensures within { IfSome result AreInRange }
{
    let threads = number_or(DEFAULT_THREADS, MIN_THREADS, MAX_THREADS, parts.threads)?;
    let turns = number_or(DEFAULT_TURNS, 0, MAX_TURNS, parts.turns)?;
    Some(RunOptions {
        cash: parts.cash,
        script: parts.script,
        threads,
        turns,
        journal: parts.journal,
    })
}

// The numbers from which trades are made.
fn made_of(start: &str, count: &str) -> Option<(u32, u32)>
    ensures numbers { result ≡ made_of start.now count.now }
    ensures within { IfSome result (λ made. (made.0 ≤ max_start) × (made.1 ≤ max_count)) }
{
    let start = number_within(0, MAX_START, start)?;
    let count = number_within(0, MAX_COUNT, count)?;
    Some((start, count))
}

#[tactic(auto, unfolding(crate::specs::Forms::eval_form))]
fn eval_of<'a>(parts: &Parts<'a>) -> Option<Command<'a>>
    ensures form { option_map request_of result ≡ eval_form (parts_of parts.now) }
    ensures within { IfSome result IsInRange }
{
    if !has_cash_alone(parts) {
        return None;
    }
    let (plan, trades) = two_of(parts)?;
    let cash = parts.cash;
    Some(Command::Eval { plan, trades, cash })
}

#[tactic(auto, unfolding(crate::specs::Forms::run_form))]
fn run_of<'a>(parts: &Parts<'a>) -> Option<Command<'a>>
    ensures form { option_map request_of result ≡ run_form (parts_of parts.now) }
    ensures within { IfSome result IsInRange }
{
    let (plan, trades) = two_of(parts)?;
    let options = options_of(parts)?;
    Some(Command::Run {
        plan,
        trades,
        options,
    })
}

#[tactic(auto, unfolding(crate::specs::Forms::replay_form))]
fn replay_of<'a>(parts: &Parts<'a>) -> Option<Command<'a>>
    ensures form { option_map request_of result ≡ replay_form (parts_of parts.now) }
    ensures within { IfSome result IsInRange }
{
    if !has_cash_alone(parts) {
        return None;
    }
    let (plan, trades, events) = three_of(parts)?;
    let cash = parts.cash;
    Some(Command::Replay {
        plan,
        trades,
        events,
        cash,
    })
}

#[tactic(auto, unfolding(crate::specs::Forms::make_form))]
fn make_of<'a>(parts: &Parts<'a>) -> Option<Command<'a>>
    ensures form { option_map request_of result ≡ make_form (parts_of parts.now) }
    ensures within { IfSome result IsInRange }
{
    if !has_no_option(parts) {
        return None;
    }
    let (start, count) = two_of(parts)?;
    let (start, count) = made_of(start, count)?;
    Some(Command::Make { start, count })
}

#[tactic(auto, unfolding(crate::specs::Forms::trial_form))]
fn trial_of<'a>(parts: &Parts<'a>) -> Option<Command<'a>>
    ensures form { option_map request_of result ≡ trial_form (parts_of parts.now) }
    ensures within { IfSome result IsInRange }
{
    let (plan, start, count) = three_of(parts)?;
    let (start, count) = made_of(start, count)?;
    let options = options_of(parts)?;
    Some(Command::Trial {
        plan,
        start,
        count,
        options,
    })
}

#[tactic(auto, unfolding(crate::specs::Forms::move_form))]
fn move_of<'a>(parts: &Parts<'a>) -> Option<Command<'a>>
    ensures form { option_map request_of result ≡ move_form (parts_of parts.now) }
    ensures within { IfSome result IsInRange }
{
    if !has_no_option(parts) {
        return None;
    }
    let (plan, trades, moves) = three_of(parts)?;
    Some(Command::Move {
        plan,
        trades,
        moves,
    })
}

#[tactic(auto, unfolding(crate::specs::Forms::trio_form))]
fn trio_of<'a>(parts: &Parts<'a>) -> Option<Command<'a>>
    ensures form { option_map request_of result ≡ trio_form (parts_of parts.now) }
    ensures within { IfSome result IsInRange }
{
    if !has_no_option(parts) {
        return None;
    }
    let (plan, trades, events) = three_of(parts)?;
    Some(Command::Trio {
        plan,
        trades,
        events,
    })
}

/// What a command of this name asks for with these parts.
#[tactic(auto, unfolding(crate::specs::Forms::request))]
pub(crate) fn request<'a>(command: &str, parts: &Parts<'a>) -> Option<Command<'a>>
    ensures form { option_map request_of result ≡ request command.now (parts_of parts.now) }
    ensures within { IfSome result IsInRange }
{
    match command {
        "eval" => eval_of(parts),
        "run" => run_of(parts),
        "replay" => replay_of(parts),
        "make" => make_of(parts),
        "trial" => trial_of(parts),
        "move" => move_of(parts),
        "trio" => trio_of(parts),
        _ => None,
    }
}
