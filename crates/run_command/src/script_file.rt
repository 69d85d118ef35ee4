// The file of a failure script.
ghost use Rattle.std.specs.Prelude.{IfErr, IfOk, option_map};
ghost use Rattle.failure_script.specs.Limits.{max_script_bytes};
ghost use Rattle.command_course.specs.Steps.{GivesBy, OnlyReads, StopsBy};
ghost use Rattle.run_command.specs.Scripts.{script_from, with_script};

use command_course::{Input, Stop, input_at, refused};
use failure_script::{MAX_SCRIPT_BYTES, Script, ScriptError, read_script};
use flux_outside::Files;
use plan_reader::Plan;
use std::alloc::Global;

/// A file with the failure script for a plan.
#[derive(Drop)]
pub struct ScriptFile<'a> {
    pub plan: &'a Plan,
}

impl<'a> Input for ScriptFile<'a> {
    type Value = Script;

    ghost most = { λ _. max_script_bytes };

    ghost reading = { λ file. script_from file.plan.now };

    ghost keeps = { λ _ _. Unit {0} };

    fn most(&self) -> u64 {
        MAX_SCRIPT_BYTES
    }

    #[tactic(auto, using(crate::proofs::ScriptFaults::script_refused))]
    fn value(&self, alloc: Global, name: &str, bytes: &[u8]) -> Result<Script, Stop> {
        match read_script(alloc, bytes, self.plan) {
            Ok(script) => Ok(script),
            Err(ScriptError::OutOfMemory) => Err(Stop::OutOfMemory),
            Err(error) => Err(refused(alloc, name, error)),
        }
    }

    #[tactic(auto, using(crate::proofs::ScriptFaults::long_script))]
    fn too_long(&self, alloc: Global, name: &str, seen: u64) -> Stop {
        refused(alloc, name, ScriptError::TooLong { bytes: seen })
    }
}

/// Reads the failure script for a plan, where a file of it is named; else there are no orders.
#[tactic(auto, using(crate::proofs::Ways::reads_none))]
pub fn script_at<F: Files>(
    alloc: Global,
    files: &mut F,
    plan: &Plan,
    script: Option<&str>,
) -> Result<Script, Stop>
    ensures gives { IfOk result (λ orders. GivesBy (F.told files.old) (F.told files.new) (with_script (option_map (λ name. name.now) script.entry) plan.now) orders) }
    ensures stops { IfErr result (λ stop. StopsBy (F.told files.old) (F.told files.new) (with_script (option_map (λ name. name.now) script.entry) plan.now) stop) }
    ensures reads { OnlyReads (F.told files.old) (F.told files.new) result }
{
    match script {
        None => Ok(Script::empty(alloc)),
        Some(name) => input_at(alloc, files, name, &ScriptFile { plan }),
    }
}
