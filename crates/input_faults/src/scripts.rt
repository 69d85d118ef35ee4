// What is said of a script that is refused.
ghost use Rattle.std.specs.Prelude.{◌≡◌, IfOk, is_none, is_ok, option_map, string_bytes};
ghost use Rattle.failure_script.specs.Script.{script_of};
ghost use Rattle.input_faults.specs.WordFaults.{replica_spot, script_fault, script_line};

use crate::lines::line_of;
use crate::place::Place;
use crate::spot::{Spot, spot_of};
use crate::told::{length_line, spot_line};
use failure_script::{MAX_SCRIPT_BYTES, ScriptError, read_script};
use plan_reader::Plan;
use std::alloc::Global;
use tuple_edge::OutOfMemory;

// The replica of an order, which is its second word.
fn replica_spot(place: Place) -> Spot
    ensures { result ≡ replica_spot place }
{
    Spot { passed: 1, place }
}

// The line that is said of a refused script.
fn script_line(
    alloc: Global,
    name: &str,
    bytes: &[u8],
    error: ScriptError,
) -> Result<String, OutOfMemory>
    ensures { IfOk result (λ said. string_bytes said ≡ script_line name.now bytes.now error) }
{
    match error {
        ScriptError::Grammar { line: number } | ScriptError::Range { line: number } => {
            let line = line_of(bytes, number);
            spot_line(alloc, name, number, line, spot_of(line, Place::Event))
        }
        ScriptError::NoSuchReplica { line: number } => {
            let line = line_of(bytes, number);
            spot_line(alloc, name, number, line, replica_spot(Place::Replica))
        }
        ScriptError::Twice { line: number } => {
            let line = line_of(bytes, number);
            spot_line(alloc, name, number, line, replica_spot(Place::OtherReplica))
        }
        ScriptError::TooLong { bytes } => length_line(alloc, name, bytes, MAX_SCRIPT_BYTES),
        ScriptError::OutOfMemory => Err(OutOfMemory),
    }
}

/// What is said of the bytes of a script for a plan, as [`plan_fault`](crate::plan_fault) says it of a
/// plan. None where the bytes are a script for it.
#[tactic(auto, unfolding(crate::specs::WordFaults::script_fault))]
pub fn script_fault(
    alloc: Global,
    name: &str,
    bytes: &[u8],
    plan: &Plan,
) -> Result<Option<String>, OutOfMemory>
    ensures line { IfOk result (λ fault. option_map string_bytes fault ≡ script_fault plan.now name.now bytes.now) }

    // Nothing is said exactly where the bytes are a script for the plan.
    ensures accepted { IfOk result (λ fault. is_none fault ≡ is_ok (script_of plan.now bytes.now)) }
{
    match read_script(alloc, bytes, plan) {
        Ok(_) => Ok(None),
        Err(ScriptError::OutOfMemory) => Err(OutOfMemory),
        Err(error) => {
            let line = script_line(alloc, name, bytes, error)?;
            Ok(Some(line))
        }
    }
}
