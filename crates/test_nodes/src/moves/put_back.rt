// What an operator keeps, put back entry by entry.
ghost use Rattle.std.specs.Prelude.{◌≡◌, None};
ghost use Rattle.stream_ops.specs.Spec.{IsSpec};

use crate::answer::is_so;
use crate::moves::rows::{crossing, given, join, keep, last, step_on, total, window};
use std::alloc::Global;
use std::process::Abort;
use std::test::Fail;
use stream_ops::{OpSpec, OpState};
use tuple_edge::{Entry, OutOfMemory, Row};

// Puts entries back.
fn put_all(state: &mut OpState, entries: &[Entry]) -> Result<(), OutOfMemory>
    requires { state.old.old ≡ None }
{
    for entry in entries {
        state.put_entry(*entry)?;
    }
    Ok(())
}

// An operator of which these entries were put back.
fn put_back(alloc: Global, spec: OpSpec, entries: &[Entry]) -> Result<OpState, OutOfMemory>
    requires { IsSpec spec }
{
    let mut state = OpState::new(alloc, spec);
    put_all(&mut state, entries)?;
    Ok(state)
}

// Whether an operator has these entries.
fn has_entries(alloc: Global, state: &OpState, kept: &[Entry]) -> Result<bool, OutOfMemory> {
    Ok(state.entries(alloc)?.as_slice() == kept && state.entry_count() == kept.len() as u64)
}

// Such an operator has these entries.
fn second_of(rt: &impl Abort, alloc: Global, spec: OpSpec, kept: &[Entry]) -> Result<OpState, Fail>
    requires { IsSpec spec }
{
    let second = put_back(alloc, spec, kept)?;
    assert!(rt; has_entries(alloc, &second, kept)?);
    Ok(second)
}

fn second(rt: &impl Abort, alloc: Global, spec: OpSpec, first: &OpState) -> Result<OpState, Fail>
    requires { IsSpec spec }
{
    let kept = first.entries(alloc)?;
    second_of(rt, alloc, spec, &kept)
}

// What it answers to sixty rows more.
fn answers(alloc: Global, state: &mut OpState) -> Result<Vec<Row>, OutOfMemory> {
    let mut answers = Vec::new(alloc);
    step_on(state, 60, 120, &mut answers)?;
    Ok(answers)
}

// Whether both answer alike, and not with nothing.
fn answer_alike(
    alloc: Global,
    first: &mut OpState,
    second: &mut OpState,
) -> Result<bool, OutOfMemory> {
    let answers_of_first = answers(alloc, first)?;
    let answers_of_second = answers(alloc, second)?;
    Ok(!answers_of_first.is_empty() && answers_of_second == answers_of_first)
}

// An operator of which all entries were put back has the same entries, and answers as the first one.
fn is_put_back(
    rt: &impl Abort,
    alloc: Global,
    spec: OpSpec,
    first: &mut OpState,
) -> Result<(), Fail>
    requires { IsSpec spec }
{
    let mut second = second(rt, alloc, spec, first)?;
    let alike = answer_alike(alloc, first, &mut second);
    drop(second);
    is_so(alike?)
}

fn puts_back(rt: &impl Abort, alloc: Global, spec: OpSpec) -> Result<(), Fail>
    requires { IsSpec spec }
{
    let mut first = given(alloc, spec, 60)?;
    let well = is_put_back(rt, alloc, spec, &mut first);
    drop(first);
    well
}

#[test]
fn each_operator_is_put_back(rt: HostRuntime) -> Result<(), Fail> {
    let alloc = rt.alloc();
    puts_back(&rt, alloc, total())?;
    puts_back(&rt, alloc, last())?;
    puts_back(&rt, alloc, window())?;
    puts_back(&rt, alloc, crossing())?;
    puts_back(&rt, alloc, join())?;
    puts_back(&rt, alloc, keep())
}
