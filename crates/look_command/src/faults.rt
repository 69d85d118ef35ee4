// What is said of files that were read: their faults, or what they ask for.
ghost use Rattle.look_command.specs.Check.{accepted, check_as, ending_after, fault_line, fault_lines, faulty_answer, given_of, has_fault, is_faulty, is_named_faulty, judged, judgement, named_line, sound_answer};
ghost use Rattle.command_course.specs.Answers.{answer_of};
ghost use Rattle.look_command.specs.Trying.{named_of, tried_of};
ghost use Rattle.std.specs.Prelude.{◌≡◌, ◌++◌, IfOk, Ok, OnOk, option_map, string_bytes};

use command_course::{Answer, Ending};
use failure_script::Script;
use look_json::write_check_json;
use plan_reader::Plan;
use std::alloc::Global;
use trade_check::{GivenTrades, write_check};
use trade_text::Cash;
use tuple_edge::OutOfMemory;

/// What files say, or the lines of their faults; those that aren't named say nothing.
#[derive(Drop)]
pub(crate) struct Said {
    pub(crate) plan: Result<Plan, String>,
    pub(crate) trades: Option<Result<GivenTrades, String>>,
    pub(crate) cash: Option<Result<Cash, String>>,
    pub(crate) script: Option<Result<Script, String>>,
}

// Whether a file has a fault.
fn is_faulty<T>(said: &Result<T, String>) -> bool
    ensures { result ≡ is_faulty (tried_of said.now) }
{
    match said {
        Ok(_) => false,
        Err(_) => true,
    }
}

// The same of a file that may be named.
fn is_named_faulty<T>(said: &Option<Result<T, String>>) -> bool
    ensures { result ≡ is_named_faulty (named_of said.now) }
{
    match said {
        None => false,
        Some(said) => is_faulty(said),
    }
}

// Whether one of the files has a fault.
fn has_fault(said: &Said) -> bool
    ensures { result ≡ has_fault (given_of said.now) }
{
    is_faulty(&said.plan)
        || is_named_faulty(&said.trades)
        || is_named_faulty(&said.cash)
        || is_named_faulty(&said.script)
}

// Appends the line of a fault.
fn push_fault<T>(text: &mut String, said: &Result<T, String>) -> Result<(), OutOfMemory>
    ensures { OnOk result (string_bytes text.new ≡ string_bytes text.old ++ fault_line (tried_of said.now)) }
{
    match said {
        Ok(_) => Ok(()),
        Err(line) => {
            text.push_str(line)?;
            Ok(())
        }
    }
}

// The same of a file that may be named.
fn push_named<T>(text: &mut String, said: &Option<Result<T, String>>) -> Result<(), OutOfMemory>
    ensures { OnOk result (string_bytes text.new ≡ string_bytes text.old ++ named_line (named_of said.now)) }
{
    match said {
        None => Ok(()),
        Some(said) => push_fault(text, said),
    }
}

// The lines of all faults.
fn fault_text(alloc: Global, said: &Said) -> Result<String, OutOfMemory>
    ensures { IfOk result (λ text. string_bytes text ≡ fault_lines (given_of said.now)) }
{
    let mut text = String::new(alloc);
    push_fault(&mut text, &said.plan)?;
    push_named(&mut text, &said.trades)?;
    push_named(&mut text, &said.cash)?;
    push_named(&mut text, &said.script)?;
    Ok(text)
}

// A text as it stands, or as JSON.
fn written(alloc: Global, text: String, json: bool, faulty: bool) -> Result<Vec<u8>, OutOfMemory>
    ensures { IfOk result (λ bytes. bytes.items ≡ check_as json faulty (string_bytes text)) }
{
    if json {
        return write_check_json(alloc, &text, faulty);
    }
    Ok(text.into_bytes())
}

// What is said of files one of which has a fault.
fn faulty(alloc: Global, said: &Said, json: bool) -> Result<Answer, OutOfMemory>
    ensures { IfOk result (λ it. answer_of it ≡ faulty_answer json (given_of said.now)) }
{
    let lines = fault_text(alloc, said)?;
    let text = written(alloc, lines, json, true)?;
    Ok(Answer {
        text,
        ending: Ending::Faulty,
        saved: None,
    })
}

// What a file says that has no fault.
fn accepted<T>(said: &Option<Result<T, String>>) -> Option<&T>
    ensures { option_map (λ value. value.now) result ≡ accepted (named_of said.now) }
{
    match said {
        None => None,
        Some(Err(_)) => None,
        Some(Ok(value)) => Some(value),
    }
}

// The same, handed on.
fn taken(said: Option<Result<GivenTrades, String>>) -> Option<GivenTrades>
    ensures { result ≡ accepted (named_of said) }
{
    match said {
        None => None,
        Some(Err(_)) => None,
        Some(Ok(value)) => Some(value),
    }
}

// How a check ends that found so many warnings.
fn ending_after(count: u64) -> Ending
    ensures { result ≡ ending_after count }
{
    if count == 0 {
        Ending::Done
    } else {
        Ending::Warned
    }
}

// What is said of a plan, where no file has a fault.
fn sound(
    alloc: Global,
    plan: &Plan,
    trades: Option<GivenTrades>,
    cash: Option<&Cash>,
    script: Option<&Script>,
    json: bool,
) -> Result<Answer, OutOfMemory>
    ensures { IfOk result (λ it. answer_of it ≡ sound_answer json plan.now trades (option_map (λ c. c.now) cash.entry) (option_map (λ s. s.now) script.entry)) }
{
    let checked = write_check(alloc, plan, trades, cash, script)?;
    let ending = ending_after(checked.warnings);
    let text = written(alloc, checked.text, json, false)?;
    Ok(Answer {
        text,
        ending,
        saved: None,
    })
}

/// What is said of files, as text or as JSON: the faults, where one of them has any.
pub(crate) fn judged(alloc: Global, said: Said, json: bool) -> Result<Answer, OutOfMemory>
    ensures { IfOk result (λ it. answer_of it ≡ judgement json (given_of said)) }
{
    if has_fault(&said) {
        return faulty(alloc, &said, json);
    }
    let trades = taken(said.trades);
    let cash = accepted(&said.cash);
    let script = accepted(&said.script);
    match &said.plan {
        Ok(plan) => sound(alloc, plan, trades, cash, script, json),
        // No plan without a fault is refused.
        Err(_) => Ok(Answer {
            text: Vec::new(alloc),
            ending: Ending::Faulty,
            saved: None,
        }),
    }
}
