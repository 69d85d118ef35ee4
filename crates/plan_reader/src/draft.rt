// What the lines of a plan have said so far.
ghost use Rattle.std.specs.Prelude.{◌≡◌, ◌∷◌, ◌≤◌, [], length, All, IfOk, OnOk};
ghost use Rattle.text_words.specs.Reading.{Takes};
ghost use Rattle.plan_reader.specs.Plan.{hold_at, mark_at, next_stage_at, plan_said, statement_at, whole};
ghost use Rattle.plan_reader.specs.PlanView.{IsPlan, IsStage, edges};
ghost use Rattle.plan_reader.specs.Draft.{MayFollow, nothing_said, said_with, said_with_line};
ghost use Rattle.plan_reader.specs.Reading.{Gives};
ghost use Rattle.plan_reader.specs.Limits.{max_stages, max_version};

use crate::error::Fault;
use crate::statement::{Statement, setting, stage};
use crate::{
    DEFAULT_HOLD, DEFAULT_MARK, EDGES_PER_MARK, Line, MAX_HOLD, MAX_MARK, MIN_HOLD, Plan,
    PlanError, Stage, Words, is_word,
};
use std::alloc::Global;
use std::marker::Model;
use tuple_edge::OutOfMemory;

/// What the lines so far have said.
#[derive(Drop)]
pub(crate) struct Draft {
    mark: Option<u64>,
    hold: Option<u64>,
    stages: Vec<Stage>,
}

impl Model for Draft {
    ghost use Rattle.plan_reader.specs.Draft.{IsDraft};
    ghost use Rattle.plan_reader.specs.Plan.{Said};

    ghost Value = { Said };

    ghost view = { λ d. record { mark = d.mark; hold = d.hold; stages = d.stages.items } };

    ghost invariant = { λ d. IsDraft (record { mark = d.mark; hold = d.hold; stages = d.stages.items }) };
}

// The number of edges between ingress, which has so many sources, these stages and egress.
fn edge_count(sources: u32, stages: &[Stage]) -> u64
    requires sources { sources ≤ max_version }
    requires few { length stages.now ≤ max_stages }
    requires each { All IsStage stages.now }
    ensures { result ≡ edges sources stages.now }
{
    let mut count = 0u64;
    let mut before = u64::from(sources);
    for stage in stages {
        count += before * u64::from(stage.parts);
        before = u64::from(stage.parts);
    }
    count + before
}

impl Draft {
    // Nothing was said.
    pub(crate) fn new(alloc: Global) -> Draft
        ensures { result ≡ nothing_said }
    {
        Draft {
            mark: None,
            hold: None,
            stages: Vec::new(alloc),
        }
    }

    #[tactic(auto, unfolding(crate::specs::Plan::mark_at))]
    fn mark_line(&self, words: &mut Words<'_>) -> Result<Statement, Fault>
        ensures value { Takes words.new result (mark_at self.now words.old) }
        ensures within { IfOk result (MayFollow self.now) }
    {
        let n = setting(words, self.mark, &self.stages, 1, MAX_MARK)?;
        Ok(Statement::Mark(n))
    }

    #[tactic(auto, unfolding(crate::specs::Plan::hold_at))]
    fn hold_line(&self, words: &mut Words<'_>) -> Result<Statement, Fault>
        ensures value { Takes words.new result (hold_at self.now words.old) }
        ensures within { IfOk result (MayFollow self.now) }
    {
        let n = setting(words, self.hold, &self.stages, MIN_HOLD, MAX_HOLD)?;
        Ok(Statement::Hold(n))
    }

    #[tactic(auto, unfolding(crate::specs::Plan::next_stage_at))]
    fn stage_line(&self, words: &mut Words<'_>) -> Result<Statement, Fault>
        ensures value { Takes words.new result (next_stage_at self.now words.old) }
        ensures within { IfOk result (MayFollow self.now) }
    {
        let stage = stage(words, &self.stages)?;
        Ok(Statement::Stage(stage))
    }

    // What a further line says.
    #[tactic(auto, unfolding(crate::specs::Plan::statement_at))]
    pub(crate) fn statement(&self, words: &mut Words<'_>) -> Result<Statement, Fault>
        ensures value { Takes words.new result (statement_at self.now words.old) }
        ensures within { IfOk result (MayFollow self.now) }
    {
        let first = words.word_or(Fault::Grammar)?;
        if is_word(first, "mark") {
            return self.mark_line(words);
        }
        if is_word(first, "hold") {
            return self.hold_line(words);
        }
        if is_word(first, "stage") {
            return self.stage_line(words);
        }
        Err(Fault::UnknownWord)
    }

    // Adds a statement.
    #[tactic(auto, using(crate::proofs::Joins::one_more))]
    pub(crate) fn add(&mut self, statement: Statement) -> Result<(), OutOfMemory>
        requires { MayFollow self.old statement }
        ensures { OnOk result (self.new ≡ said_with self.old statement) }
    {
        match statement {
            Statement::Mark(n) => {
                self.mark = Some(n);
                Ok(())
            }
            Statement::Hold(n) => {
                self.hold = Some(n);
                Ok(())
            }
            Statement::Stage(stage) => {
                self.stages.push(stage)?;
                Ok(())
            }
        }
    }

    // Adds what a line says.
    #[tactic(auto, unfolding(crate::specs::Draft::said_with_line))]
    pub(crate) fn take(&mut self, line: Line<'_>) -> Result<(), PlanError>
        ensures { Gives (λ x. self.new) result (said_with_line self.old (record { number = line.entry.number; words = line.entry.words })) }
    {
        let Line { number, mut words } = line;
        match self.statement(&mut words) {
            Err(fault) => Err(fault.at(number)),
            Ok(statement) => {
                self.add(statement)?;
                Ok(())
            }
        }
    }

    // The plan of this version and what was said.
    pub(crate) fn finish(self, version: u32) -> Result<Plan, PlanError>
        requires low { 1 ≤ version }
        requires high { version ≤ max_version }
        ensures reads { Gives (λ p. p) result (whole (plan_said version self)) }
        ensures limits { IfOk result IsPlan }
    {
        let mark = self.mark.unwrap_or(DEFAULT_MARK);
        let hold = self.hold.unwrap_or(DEFAULT_HOLD);
        if self.stages.is_empty() {
            return Err(PlanError::NoStage);
        }
        let edges = edge_count(version, &self.stages);
        if EDGES_PER_MARK * mark < edges {
            return Err(PlanError::Crowded { edges, mark });
        }
        Ok(Plan::new(version, self.stages, mark, hold))
    }
}
