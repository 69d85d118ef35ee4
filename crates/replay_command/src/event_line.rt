// What is said of an event that is refused.
ghost use Rattle.std.specs.Fmt.{decimal};
ghost use Rattle.std.specs.Prelude.{◌≡◌, ◌++◌, IfOk, codes, string_bytes};
ghost use Rattle.command_course.specs.Lines.{line_of};
ghost use Rattle.command_course.specs.Steps.{IsRefusedBy};
ghost use Rattle.text_words.specs.Messages.{at_line};
ghost use Rattle.replay_command.specs.Replaying.{error_text};
ghost use Rattle.std.specs.Prelude.{◌≢◌};

use command_course::{Stop, refused};
use flux_core::{ApplyError, Stopped};
use std::alloc::Global;
use tuple_edge::OutOfMemory;

// No such packet was sent, in words.
fn not_sent(alloc: Global, index: u64, sent: u64) -> Result<String, OutOfMemory>
    ensures { IfOk result (λ text. string_bytes text ≡ codes "not sent, index " ++ decimal index ++ codes ", sent " ++ decimal sent) }
{
    let mut text = String::new(alloc);
    write!(text, "not sent, index {index}")?;
    write!(text, ", sent {sent}")?;
    Ok(text)
}

// An item isn't held, in words.
fn not_held(alloc: Global, low: u64, mark: u64, produced: u64) -> Result<String, OutOfMemory>
    ensures { IfOk result (λ text. string_bytes text ≡ codes "not held, low " ++ decimal low ++ codes ", mark " ++ decimal mark ++ codes ", produced " ++ decimal produced) }
{
    let mut text = String::new(alloc);
    write!(text, "not held, low {low}")?;
    write!(text, ", mark {mark}")?;
    write!(text, ", produced {produced}")?;
    Ok(text)
}

// The reason, in words.
fn reason(alloc: Global, error: ApplyError) -> Result<String, OutOfMemory>
    ensures { IfOk result (λ text. string_bytes text ≡ error_text error) }
{
    match error {
        ApplyError::NotSent { index, sent, .. } => not_sent(alloc, index, sent),
        ApplyError::NothingDue => {
            let text = format!(in alloc; "nothing due")?;
            Ok(text)
        }
        ApplyError::NotRunning => {
            let text = format!(in alloc; "not running")?;
            Ok(text)
        }
        ApplyError::NoMoreRows => {
            let text = format!(in alloc; "no more rows")?;
            Ok(text)
        }
        ApplyError::NotHeld {
            low,
            mark,
            produced,
        } => not_held(alloc, low, mark, produced),
        ApplyError::OutOfMemory => Err(OutOfMemory),
    }
}

// The same, with the line of the event.
fn reason_at(alloc: Global, stopped: Stopped) -> Result<String, OutOfMemory>
    ensures { IfOk result (λ text. string_bytes text ≡ at_line stopped.line (error_text stopped.error)) }
{
    let line = stopped.line;
    let text = reason(alloc, stopped.error)?;
    let whole = format!(in alloc; "line {line}: {text}")?;
    Ok(whole)
}

/// Why a command stops at an event of a file that is refused, or for want of memory where it was applied.
pub fn refused_event(alloc: Global, name: &str, stopped: Stopped) -> Stop
    ensures { IsRefusedBy result (line_of name.now (at_line stopped.line (error_text stopped.error))) (stopped.error ≢ ApplyError.OutOfMemory) }
{
    if stopped.error == ApplyError::OutOfMemory {
        return Stop::OutOfMemory;
    }
    match reason_at(alloc, stopped) {
        Ok(text) => refused(alloc, name, text),
        Err(_) => Stop::OutOfMemory,
    }
}
