// The form of each command.
ghost use Rattle.look_words.specs.Forms.{IsInRange, check_form, one, rehearse_form, request, request_of, sift_form, sql_form, story_form, timeline_form, trace_form, why_form};
ghost use Rattle.command_line.specs.Views.{text_in};
ghost use Rattle.look_words.specs.Parts.{parts_in};
ghost use Rattle.command_line.specs.Forms.{three};
ghost use Rattle.std.specs.Prelude.{◌≡◌, IfSome, option_map};

use crate::LookCommand;
use crate::numbers::{MAX_ROW_NUMBER, numbers_of};
use crate::parts::Parts;
use command_line::number_within;

// The name, where there is exactly one.
fn one<'a>(parts: &Parts<'a>) -> Option<&'a str>
    ensures { text_in result ≡ one (parts_in parts.now).first (parts_in parts.now).second }
{
    match (parts.first, parts.second) {
        (Some(first), None) => Some(first),
        _ => None,
    }
}

// The names, where there are exactly three.
fn three<'a>(parts: &Parts<'a>) -> Option<(&'a str, &'a str, &'a str)>
    ensures { option_map (λ words. (words.0.now, words.1.now, words.2.now)) result ≡ three (parts_in parts.now).first (parts_in parts.now).second (parts_in parts.now).third }
{
    match (parts.first, parts.second, parts.third) {
        (Some(first), Some(second), Some(third)) => Some((first, second, third)),
        _ => None,
    }
}

#[tactic(auto, unfolding(crate::specs::Forms::check_form))]
fn check_of<'a>(parts: &Parts<'a>) -> Option<LookCommand<'a>>
    ensures form { option_map request_of result ≡ check_form (parts_in parts.now) }
    ensures within { IfSome result IsInRange }
{
    if parts.third.is_some() {
        return None;
    }
    let plan = parts.first?;
    Some(LookCommand::Check {
        plan,
        trades: parts.second,
        cash: parts.cash,
        script: parts.script,
        all: parts.all,
        json: parts.json,
    })
}

#[tactic(auto, unfolding(crate::specs::Forms::story_form))]
fn story_of<'a>(parts: &Parts<'a>) -> Option<LookCommand<'a>>
    ensures form { option_map request_of result ≡ story_form (parts_in parts.now) }
    ensures within { IfSome result IsInRange }
{
    let (plan, trades, events) = three(parts)?;
    Some(LookCommand::Story {
        plan,
        trades,
        events,
        cash: parts.cash,
        script: parts.script,
        json: parts.json,
    })
}

#[tactic(auto, unfolding(crate::specs::Forms::timeline_form))]
fn timeline_of<'a>(parts: &Parts<'a>) -> Option<LookCommand<'a>>
    ensures form { option_map request_of result ≡ timeline_form (parts_in parts.now) }
    ensures within { IfSome result IsInRange }
{
    if parts.svg && parts.json {
        return None;
    }
    let (plan, trades, events) = three(parts)?;
    Some(LookCommand::Timeline {
        plan,
        trades,
        events,
        cash: parts.cash,
        svg: parts.svg,
        json: parts.json,
        only: parts.only,
    })
}

#[tactic(auto, unfolding(crate::specs::Forms::rehearse_form))]
fn rehearse_of<'a>(parts: &Parts<'a>) -> Option<LookCommand<'a>>
    ensures form { option_map request_of result ≡ rehearse_form (parts_in parts.now) }
    ensures within { IfSome result IsInRange }
{
    let (plan, trades, script) = three(parts)?;
    let numbers = numbers_of(parts)?;
    Some(LookCommand::Rehearse {
        plan,
        trades,
        script,
        cash: parts.cash,
        threads: numbers.threads,
        turns: numbers.turns,
        picture: parts.picture,
    })
}

#[tactic(auto, unfolding(crate::specs::Forms::why_form))]
fn why_of<'a>(parts: &Parts<'a>) -> Option<LookCommand<'a>>
    ensures form { option_map request_of result ≡ why_form (parts_in parts.now) }
    ensures within { IfSome result IsInRange }
{
    let (plan, trades, number) = three(parts)?;
    let number = number_within(0, MAX_ROW_NUMBER, number)?;
    Some(LookCommand::Why {
        plan,
        trades,
        number,
        cash: parts.cash,
        all: parts.all,
        check: parts.check,
    })
}

#[tactic(auto, unfolding(crate::specs::Forms::trace_form))]
fn trace_of<'a>(parts: &Parts<'a>) -> Option<LookCommand<'a>>
    ensures form { option_map request_of result ≡ trace_form (parts_in parts.now) }
    ensures within { IfSome result IsInRange }
{
    let (plan, trades, line) = three(parts)?;
    let line = number_within(0, MAX_ROW_NUMBER, line)?;
    Some(LookCommand::Trace {
        plan,
        trades,
        line,
        cash: parts.cash,
    })
}

#[tactic(auto, unfolding(crate::specs::Forms::sift_form))]
fn sift_of<'a>(parts: &Parts<'a>) -> Option<LookCommand<'a>>
    ensures form { option_map request_of result ≡ sift_form (parts_in parts.now) }
    ensures within { IfSome result IsInRange }
{
    let trades = one(parts)?;
    let rejects = parts.rejects?;
    Some(LookCommand::Sift { trades, rejects })
}

#[tactic(auto, unfolding(crate::specs::Forms::sql_form))]
fn sql_of<'a>(parts: &Parts<'a>) -> Option<LookCommand<'a>>
    ensures form { option_map request_of result ≡ sql_form (parts_in parts.now) }
    ensures within { IfSome result IsInRange }
{
    let plan = one(parts)?;
    Some(LookCommand::Sql { plan })
}

/// What a command of this name asks for with these parts.
#[tactic(auto, unfolding(crate::specs::Forms::request))]
pub(crate) fn request<'a>(command: &str, parts: &Parts<'a>) -> Option<LookCommand<'a>>
    ensures form { option_map request_of result ≡ request command.now (parts_in parts.now) }
    ensures within { IfSome result IsInRange }
{
    match command {
        "check" => check_of(parts),
        "story" => story_of(parts),
        "timeline" => timeline_of(parts),
        "rehearse" => rehearse_of(parts),
        "why" => why_of(parts),
        "trace" => trace_of(parts),
        "sift" => sift_of(parts),
        "sql" => sql_of(parts),
        _ => None,
    }
}
