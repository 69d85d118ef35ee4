// How a row of the output came about: what is told of each stage.
ghost use Rattle.evaluation.specs.StageRows.{HasTime, early_replies, late_replies};
ghost use Rattle.plan_reader.specs.PlanView.{IsStage};
ghost use Rattle.origin_finder.specs.Said.{AreCaused};
ghost use Rattle.row_origin.specs.Origins.{last_origin, only, origins, rests};
ghost use Rattle.row_origin.specs.Stages.{stage_causes};
ghost use Rattle.std.specs.Prelude.{◌≡◌, ◌≤◌, ◌++◌, ◌∷◌, [], All, IfOk, OnOk, drop, length, take};

use crate::marks::RowRoles;
use crate::passing::{opened_states, pass_early, pass_late};
use crate::said::Speaker;
use crate::telling::told_roles;
use plan_reader::{Plan, Stage};
use std::alloc::Global;
use std::marker::Model;
use trade_text::Trades;
use tuple_edge::{OutOfMemory, Row};

/// What is told of a stage: the rows that came to it, or after the last one to egress, and their roles.
#[derive(Drop)]
pub struct StageTold {
    rows: Vec<Row>,
    roles: RowRoles,
}

impl Model for StageTold {
    ghost use Rattle.row_origin.specs.Origins.{StageOrigin};

    ghost Value = { StageOrigin };

    ghost view = { λ t. record { rows = t.rows.items; roles = t.roles } };
}

impl StageTold {
    ghost use Rattle.std.specs.Prelude.{◌≡◌};

    /// The rows that came to it.
    pub fn rows(&self) -> &[Row]
        ensures { result.now ≡ self.now.rows }
    {
        &self.rows
    }

    /// Their roles.
    pub fn roles(&self) -> &RowRoles
        ensures { result.now ≡ self.now.roles }
    {
        &self.roles
    }
}

// The rows that a stage passes on, of which so many are early ones, and what made its operators give each of them.
#[derive(Drop)]
pub(crate) struct Passed {
    pub(crate) rows: Vec<Row>,
    pub(crate) early: usize,
    said: Vec<Speaker>,
}

// The rows that a stage passes on of those that come to it, of which so many are early ones.
pub(crate) fn pass_stage(
    alloc: Global,
    stage: &Stage,
    rows: &[Row],
    early: usize,
) -> Result<Passed, OutOfMemory>
    requires stage { IsStage stage.now }
    requires times { All HasTime rows.now }
    requires early { early ≤ length rows.now }
    ensures early { IfOk result (λ p. take p.early p.rows.items ≡ early_replies stage.now [] (take early rows.now)) }
    ensures late { IfOk result (λ p. drop p.early p.rows.items ≡ late_replies stage.now (take early rows.now) (drop early rows.now) 0 stage.now.parts) }
    ensures few { IfOk result (λ p. p.early ≤ length p.rows.items) }
    ensures times { IfOk result (λ p. All HasTime p.rows.items) }
    ensures said { IfOk result (λ p. AreCaused stage.now rows.now p.said.items (stage_causes stage.now (take early rows.now) (drop early rows.now))) }
{
    let mut states = opened_states(alloc, stage)?;
    // Room for an answer to each row. A join may answer with more, and the lists grow.
    let mut said = Vec::with_capacity(alloc, rows.len())?;
    let mut out = Vec::with_capacity(alloc, rows.len())?;
    pass_early(&mut states, stage, &rows[..early], &mut out, &mut said)?;
    let passed_early = out.len();
    pass_late(&mut states, stage, rows, early, &mut out, &mut said)?;
    Ok(Passed {
        rows: out,
        early: passed_early,
        said,
    })
}

// Tells of the stages through which rows go, of which so many come early, the last one first; and on which of these rows
// the row of this number rests that the last stage passes on.
fn tell_stages(
    alloc: Global,
    stages: &[Stage],
    rows: Vec<Row>,
    early: usize,
    number: usize,
    told: &mut Vec<StageTold>,
) -> Result<Vec<bool>, OutOfMemory>
    requires stages { All IsStage stages.now }
    requires times { All HasTime rows.items }
    requires early { early ≤ length rows.items }
    ensures told { OnOk result (told.new.items ≡ told.old.items ++ origins number stages.now (take early rows.items) (drop early rows.items)) }
    ensures rests { IfOk result (λ marks. marks.items ≡ rests number stages.now (take early rows.items) (drop early rows.items)) }
{
    let Some((stage, later)) = stages.split_first() else {
        return tell_last(alloc, rows, number, told);
    };
    let Passed {
        rows: next,
        early: next_early,
        said,
    } = pass_stage(alloc, stage, &rows, early)?;
    let asked = tell_stages(alloc, later, next, next_early, number, told)?;
    let roles = told_roles(alloc, stage, &rows, &said, &asked)?;
    let rests = copied(alloc, roles.rests())?;
    told.push(StageTold { rows, roles })?;
    Ok(rests)
}

// Tells of the rows after the last stage, of which the one of this number is asked about.
fn tell_last(
    alloc: Global,
    rows: Vec<Row>,
    number: usize,
    told: &mut Vec<StageTold>,
) -> Result<Vec<bool>, OutOfMemory>
    ensures told { OnOk result (told.new.items ≡ told.old.items ++ last_origin number rows.items ∷ []) }
    ensures rests { IfOk result (λ marks. marks.items ≡ only number (length rows.items)) }
{
    let roles = RowRoles::of_one(alloc, rows.len(), number)?;
    let rests = copied(alloc, roles.rests())?;
    told.push(StageTold { rows, roles })?;
    Ok(rests)
}

// A copy of rows.
fn copied_rows(alloc: Global, rows: &[Row]) -> Result<Vec<Row>, OutOfMemory>
    ensures { IfOk result (λ copy. copy.items ≡ rows.now) }
{
    let mut copy = Vec::with_capacity(alloc, rows.len())?;
    copy.extend_from_slice(rows)?;
    Ok(copy)
}

// A copy of marks.
fn copied(alloc: Global, marks: &[bool]) -> Result<Vec<bool>, OutOfMemory>
    ensures { IfOk result (λ copy. copy.items ≡ marks.now) }
{
    let mut copy = Vec::with_capacity(alloc, marks.len())?;
    copy.extend_from_slice(marks)?;
    Ok(copy)
}

/// How the row of this number, from 0, came about among those that a plan gives for trades and the movements merged with them: of each stage, from
/// the last to the first, the rows that came to it and their roles, behind the rows that the last one passes on.
pub fn origins_of(
    alloc: Global,
    plan: &Plan,
    trades: &Trades,
    number: usize,
) -> Result<Vec<StageTold>, OutOfMemory>
    ensures { IfOk result (λ told. told.items ≡ origins number plan.now.stages trades.now.rows []) }
{
    let mut told = Vec::new(alloc);
    let rows = copied_rows(alloc, trades.rows())?;
    let early = rows.len();
    tell_stages(alloc, plan.stages(), rows, early, number, &mut told)?;
    Ok(told)
}
