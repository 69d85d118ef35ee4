// A plan.
ghost use Rattle.std.specs.Prelude.{◌≡◌, IfOk};
ghost use Rattle.plan_reader.specs.PlanView.{IsPlan};

use crate::Stage;
use std::alloc::Global;
use std::marker::Model;
use tuple_edge::OutOfMemory;

/// The stages of a dataflow, its version and its settings.
///
/// Contracts see its version, stages, mark and hold, and every plan is within the limits.
#[derive(Debug, Drop)]
pub struct Plan {
    version: u32,
    stages: Vec<Stage>,
    mark: u64,
    hold: u64,
}

impl Model for Plan {
    ghost use Rattle.plan_reader.specs.PlanView.{IsPlan, PlanView};

    ghost Value = { PlanView };

    ghost view = { λ p. record { version = p.version; stages = p.stages.items; mark = p.mark; hold = p.hold } };

    ghost invariant = { λ p. IsPlan (record { version = p.version; stages = p.stages.items; mark = p.mark; hold = p.hold }) };
}

impl Plan {
    // A plan of a version, stages and settings that are within the limits.
    pub(crate) fn new(version: u32, stages: Vec<Stage>, mark: u64, hold: u64) -> Plan
        requires { IsPlan (record { version = version; stages = stages.items; mark = mark; hold = hold }) }
        ensures { result ≡ record { version = version; stages = stages.items; mark = mark; hold = hold } }
    {
        Plan {
            version,
            stages,
            mark,
            hold,
        }
    }

    /// The version: 1, in which ingress has one source, the trades, or 2, in which it also has the
    /// cash movements.
    pub fn version(&self) -> u32
        ensures value { result ≡ self.now.version }
        ensures limits { IsPlan self.now }
    {
        self.version
    }

    /// The stages, in order: 1 to [`MAX_STAGES`](crate::MAX_STAGES).
    pub fn stages(&self) -> &[Stage]
        ensures value { result.now ≡ self.now.stages }
        ensures limits { IsPlan self.now }
    {
        &self.stages
    }

    /// After how many rows ingress puts a mark: 1 to [`MAX_MARK`](crate::MAX_MARK).
    pub fn mark(&self) -> u64
        ensures value { result ≡ self.now.mark }
        ensures limits { IsPlan self.now }
    {
        self.mark
    }

    /// How many items an edge of ingress may hold: [`MIN_HOLD`](crate::MIN_HOLD) to
    /// [`MAX_HOLD`](crate::MAX_HOLD).
    pub fn hold(&self) -> u64
        ensures value { result ≡ self.now.hold }
        ensures limits { IsPlan self.now }
    {
        self.hold
    }

    /// A copy of the plan.
    pub fn copied(&self, alloc: Global) -> Result<Plan, OutOfMemory>
        ensures { IfOk result (λ copy. copy ≡ self.now) }
    {
        let stages = Vec::from_slice(alloc, &self.stages)?;
        Ok(Plan {
            version: self.version,
            stages,
            mark: self.mark,
            hold: self.hold,
        })
    }
}
