// Plans and scripts of texts, events without their lines, and the fault of a table.
use failure_script::{Script, read_script};
use plan_reader::{Plan, read_plan};
use run_journal::Lined;
use std::alloc::Global;
use std::test::Fail;
use test_kit::TWO;
use tuple_edge::Event;

/// The plan of two stages.
pub(crate) fn two(alloc: Global) -> Result<Plan, Fail> {
    Ok(read_plan(alloc, TWO)?)
}

/// The script that a text says for a plan.
pub(crate) fn script(alloc: Global, plan: &[u8], text: &[u8]) -> Result<Script, Fail> {
    let plan = read_plan(alloc, plan)?;
    Ok(read_script(alloc, text, &plan)?)
}

/// The events without their lines.
pub(crate) fn events(alloc: Global, lined: &[Lined]) -> Result<Vec<Event>, Fail> {
    let mut events = Vec::new(alloc);
    events.reserve(lined.len())?;
    for one in lined {
        events.push(one.event)?;
    }
    Ok(events)
}

/// No place of a table may be wrong. Tests go over their tables in functions that answer, and here is the one place that
/// says what fails: a loop that asserts is dear to prove.
pub(crate) fn none_is_wrong(wrong: Option<usize>) -> Result<(), Fail> {
    match wrong {
        None => Ok(()),
        Some(place) => Err(Fail::new(format_args!("not so at {place}"))),
    }
}
