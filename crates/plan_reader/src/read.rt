// How a plan is read.
ghost use Rattle.std.specs.Prelude.{◌≤◌, IfOk};
ghost use Rattle.text_words.specs.Reading.{Reads, Takes};
ghost use Rattle.plan_reader.specs.Draft.{drafted_plan, said_after};
ghost use Rattle.plan_reader.specs.Plan.{body_of, plan_of, version_at};
ghost use Rattle.plan_reader.specs.PlanView.{IsPlan};
ghost use Rattle.plan_reader.specs.Reading.{Gives};
ghost use Rattle.plan_reader.specs.Limits.{max_version};

use crate::draft::Draft;
use crate::error::Fault;
use crate::words::number_from;
use crate::{MAX_PLAN_BYTES, MAX_VERSION, Plan, PlanError};
use std::alloc::Global;
use text_words::{Lines, Words};

// The version that the first line that counts says.
#[tactic(auto, unfolding(crate::specs::Plan::version_at))]
fn version(words: &mut Words<'_>) -> Result<u32, Fault>
    ensures value { Takes words.new result (version_at words.old) }
    ensures within { IfOk result (λ n. (1 ≤ n) × (n ≤ max_version)) }
{
    words.fixed_or("flux", Fault::Grammar)?;
    let n = number_from(words, 1, u64::from(MAX_VERSION))?;
    words.end_or(Fault::Grammar)?;
    Ok(n as u32)
}

// Passes the first line that counts, and gives the version that it says.
#[tactic(auto, unfolding(crate::specs::Plan::body_of))]
fn pass_version(lines: &mut Lines<'_>) -> Result<u32, PlanError>
    ensures value { Reads (λ version. (version, lines.new)) result (body_of lines.old) }
    ensures within { IfOk result (λ n. (1 ≤ n) × (n ≤ max_version)) }
{
    match lines.next_line() {
        None => Err(PlanError::Grammar { line: 1 }),
        Some(mut line) => match version(&mut line.words) {
            Err(fault) => Err(fault.at(line.number)),
            Ok(version) => Ok(version),
        },
    }
}

// Adds what all further lines say.
#[tactic(auto, unfolding(crate::specs::Draft::said_after))]
fn take_all(lines: &mut Lines<'_>, draft: &mut Draft) -> Result<(), PlanError>
    ensures { Gives (λ x. draft.new) result (said_after draft.old lines.old) }
{
    while let Some(line) = lines.next_line() {
        draft.take(line)?;
    }
    Ok(())
}

// The plan that lines say.
#[tactic(auto, unfolding(crate::specs::Draft::drafted_plan))]
fn plan_of_lines(alloc: Global, mut lines: Lines<'_>) -> Result<Plan, PlanError>
    ensures reads { Gives (λ p. p) result (drafted_plan lines.entry) }
    ensures limits { IfOk result IsPlan }
{
    let version = pass_version(&mut lines)?;
    let mut draft = Draft::new(alloc);
    take_all(&mut lines, &mut draft)?;
    draft.finish(version)
}

/// The plan that a text says, or the first of its faults.
#[tactic(auto, unfolding(crate::specs::Plan::plan_of))]
pub fn read_plan(alloc: Global, bytes: &[u8]) -> Result<Plan, PlanError>
    ensures reads { Gives (λ p. p) result (plan_of bytes.now) }
    ensures limits { IfOk result IsPlan }
{
    let length = bytes.len() as u64;
    if length > MAX_PLAN_BYTES {
        return Err(PlanError::TooLong { bytes: length });
    }
    plan_of_lines(alloc, Lines::new(bytes))
}
