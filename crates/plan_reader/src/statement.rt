// What a line after the first one says: a setting or a stage.
ghost use Rattle.std.specs.Prelude.{◌≡◌, ◌≤◌, ◌<◌, IfOk, OnOk, false, length};
ghost use Rattle.std.specs.List.{list_any};
ghost use Rattle.text_words.specs.Reading.{Takes};
ghost use Rattle.plan_reader.specs.Limits.{max_parts, max_stages};
ghost use Rattle.plan_reader.specs.Plan.{routing_at, setting_at, stage_at, stage_number_at};
ghost use Rattle.plan_reader.specs.PlanView.{IsStage, is_joining};

use crate::error::Fault;
use crate::operators::op;
use crate::words::{column, number, number_from};
use crate::{MAX_PARTS, MAX_STAGES, Stage};
use text_words::Words;
use tuple_edge::Column;

// What a line after the first one says.
#[derive(Drop)]
pub(crate) enum Statement {
    Mark(u64),
    Hold(u64),
    Stage(Stage),
}

// What follows `mark` or `hold`, where the setting stood before or not, after these stages.
#[tactic(auto, unfolding(crate::specs::Plan::setting_at))]
pub(crate) fn setting(
    words: &mut Words<'_>,
    before: Option<u64>,
    stages: &[Stage],
    low: u64,
    high: u64,
) -> Result<u64, Fault>
    ensures value { Takes words.new result (setting_at before stages.now low high words.old) }
    ensures within { IfOk result (λ n. (low ≤ n) × (n ≤ high)) }
    ensures unset { OnOk result (before ≡ None) }
{
    if before.is_some() || !stages.is_empty() {
        return Err(Fault::Grammar);
    }
    let n = number_from(words, low, high)?;
    words.end_or(Fault::Grammar)?;
    Ok(n)
}

// Whether one of these stages joins.
fn any_joins(stages: &[Stage]) -> bool
    ensures { result ≡ list_any is_joining stages.now }
{
    stages.iter().any(|stage| stage.op.is_join())
}

// The number of the stage after these, where one may follow them.
#[tactic(auto, unfolding(crate::specs::Plan::stage_number_at))]
fn stage_number(words: &mut Words<'_>, before: &[Stage]) -> Result<(), Fault>
    ensures value { Takes words.new result (stage_number_at before.now words.old) }
    ensures room { OnOk result (length before.now < max_stages) }
    ensures no_join { OnOk result (list_any is_joining before.now ≡ false) }
{
    if before.len() >= MAX_STAGES {
        return Err(Fault::TooMany);
    }
    if any_joins(before) {
        return Err(Fault::JoinNotLast);
    }
    let n = number(words)?;
    if n == before.len() as u64 + 1 {
        Ok(())
    } else {
        Err(Fault::Grammar)
    }
}

// In how many partitions a stage runs, and by which column rows are routed to them.
#[tactic(auto, unfolding(crate::specs::Plan::routing_at))]
fn routing(words: &mut Words<'_>) -> Result<(u32, Column), Fault>
    ensures value { Takes words.new result (routing_at words.old) }
    ensures within { IfOk result (λ x. (1 ≤ x.0) × (x.0 ≤ max_parts)) }
{
    words.fixed_or("parts", Fault::Grammar)?;
    let parts = number_from(words, 1, u64::from(MAX_PARTS))?;
    words.fixed_or("by", Fault::Grammar)?;
    let by = column(words)?;
    Ok((parts as u32, by))
}

// What follows `stage`, after these stages.
#[tactic(auto, unfolding(crate::specs::Plan::stage_at))]
pub(crate) fn stage(words: &mut Words<'_>, before: &[Stage]) -> Result<Stage, Fault>
    ensures value { Takes words.new result (stage_at before.now words.old) }
    ensures within { IfOk result IsStage }
    ensures room { OnOk result (length before.now < max_stages) }
    ensures no_join { OnOk result (list_any is_joining before.now ≡ false) }
{
    stage_number(words, before)?;
    let (parts, by) = routing(words)?;
    let op = op(words)?;
    words.end_or(Fault::Grammar)?;
    Ok(Stage { parts, by, op })
}
