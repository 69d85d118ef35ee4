// What is said of a plan that is refused.
ghost use Rattle.std.specs.Prelude.{◌≡◌, IfOk, is_none, is_ok, option_map, string_bytes};
ghost use Rattle.plan_reader.specs.Plan.{plan_of};
ghost use Rattle.input_faults.specs.WordFaults.{crowded_line, plan_fault, plan_line, plan_line_at};

use crate::lines::{first_place, has_lines, line_of};
use crate::spot::spot_of;
use crate::told::{length_line, plain_line, spot_line};
use plan_reader::{MAX_PLAN_BYTES, PlanError, read_plan};
use std::alloc::Global;
use tuple_edge::OutOfMemory;

// The line that is said of the line of this number.
fn line_at(alloc: Global, name: &str, bytes: &[u8], number: u64) -> Result<String, OutOfMemory>
    ensures { IfOk result (λ said. string_bytes said ≡ plan_line_at name.now bytes.now number) }
{
    if !has_lines(bytes) {
        return plain_line(
            alloc,
            name,
            ": no line counts; the first has to be: flux 1, or flux 2",
        );
    }
    let line = line_of(bytes, number);
    let spot = spot_of(line, first_place(bytes, number));
    spot_line(alloc, name, number, line, spot)
}

// The line that is said of a plan with too many edges.
fn crowded_line(alloc: Global, name: &str, edges: u64, mark: u64) -> Result<String, OutOfMemory>
    ensures { IfOk result (λ said. string_bytes said ≡ crowded_line name.now edges mark) }
{
    let text = format!(in alloc; "{name}: {edges} edges, more than 8 times the mark {mark}")?;
    Ok(text)
}

// The line that is said of a refused plan.
fn plan_line(
    alloc: Global,
    name: &str,
    bytes: &[u8],
    error: PlanError,
) -> Result<String, OutOfMemory>
    ensures { IfOk result (λ said. string_bytes said ≡ plan_line name.now bytes.now error) }
{
    match error {
        PlanError::Grammar { line }
        | PlanError::UnknownWord { line }
        | PlanError::Number { line }
        | PlanError::Range { line }
        | PlanError::TooMany { line }
        | PlanError::JoinNotLast { line } => line_at(alloc, name, bytes, line),
        PlanError::NoStage => plain_line(alloc, name, ": no line says a stage"),
        PlanError::TooLong { bytes } => length_line(alloc, name, bytes, MAX_PLAN_BYTES),
        PlanError::Crowded { edges, mark } => crowded_line(alloc, name, edges, mark),
        PlanError::OutOfMemory => Err(OutOfMemory),
    }
}

/// What is said of the bytes of a plan, in a line without its end: the first thing that is refused in
/// it, where it stands in the file, and what may stand there. None where the bytes are a plan.
#[tactic(auto, unfolding(crate::specs::WordFaults::plan_fault))]
pub fn plan_fault(alloc: Global, name: &str, bytes: &[u8]) -> Result<Option<String>, OutOfMemory>
    ensures line { IfOk result (λ fault. option_map string_bytes fault ≡ plan_fault name.now bytes.now) }

    // Nothing is said exactly where the bytes are a plan.
    ensures accepted { IfOk result (λ fault. is_none fault ≡ is_ok (plan_of bytes.now)) }
{
    match read_plan(alloc, bytes) {
        Ok(_) => Ok(None),
        Err(PlanError::OutOfMemory) => Err(OutOfMemory),
        Err(error) => {
            let line = plan_line(alloc, name, bytes, error)?;
            Ok(Some(line))
        }
    }
}
