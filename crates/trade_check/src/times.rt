// Trades whose times fall.
ghost use Rattle.std.specs.Prelude.{◌≡◌, ◌++◌, ◌∷◌, ◌<◌, ◌^◌, [], IfOk, OnOk, filter, length};
ghost use Rattle.trade_check.specs.Times.{fall_at, falls, falls_behind, goes_by_times, has_windows, is_over_midnight, is_told, told_falls};

use crate::warning::Fall;
use plan_check::is_window;
use plan_reader::{Plan, Stage};
use std::alloc::Global;
use tuple_edge::{OutOfMemory, Row};

// The seconds of a day, and of half a day.
const DAY: i64 = 86_400;

const HALF_DAY: i64 = 43_200;

// Whether times of day go over midnight at a fall.
pub(crate) fn is_over_midnight(fall: &Fall) -> bool
    ensures { result ≡ is_over_midnight fall.now }
{
    HALF_DAY <= fall.from && fall.from < DAY && fall.to <= fall.from - HALF_DAY
}

// Whether one of the stages is a `window`.
fn has_windows(stages: &[Stage]) -> bool
    ensures { result ≡ has_windows stages.now }
{
    stages.iter().any(|stage| is_window(&stage.op))
}

// Whether the order of times says what a plan gives.
fn goes_by_times(plan: &Plan) -> bool
    ensures { result ≡ goes_by_times plan.now }
{
    plan.version() > 1 || has_windows(plan.stages())
}

// Whether a fall is warned of.
fn is_told(plan: &Plan, fall: &Fall) -> bool
    ensures { result ≡ is_told plan.now fall.now }
{
    if is_over_midnight(fall) {
        return goes_by_times(plan);
    }
    plan.version() == 1 && has_windows(plan.stages())
}

// Appends a fall, where the second time is the earlier one.
fn push_fall(found: &mut Vec<Fall>, number: u64, from: i64, to: i64) -> Result<(), OutOfMemory>
    ensures { OnOk result (found.new.items ≡ found.old.items ++ fall_at number from to) }
{
    if to < from {
        found.push(Fall { number, from, to })?;
    }
    Ok(())
}

// Appends the falls of trades that follow one of this time, which is record 2.
fn push_behind(found: &mut Vec<Fall>, first: i64, rows: &[Row]) -> Result<(), OutOfMemory>
    requires { length rows.now < 2 ^ 63 }
    ensures { OnOk result (found.new.items ≡ found.old.items ++ falls_behind 3 first rows.now) }
{
    let mut time = first;
    for (place, row) in rows.iter().enumerate() {
        push_fall(found, place as u64 + 3, time, row.time)?;
        time = row.time;
    }
    Ok(())
}

// The falls of the trades of a file.
fn falls(alloc: Global, rows: &[Row]) -> Result<Vec<Fall>, OutOfMemory>
    ensures { IfOk result (λ found. found.items ≡ falls rows.now) }
{
    let mut found = Vec::new(alloc);
    match rows.split_first() {
        None => {}
        Some((first, others)) => push_behind(&mut found, first.time, others)?,
    }
    Ok(found)
}

// Appends a fall, where it is warned of.
fn push_told(found: &mut Vec<Fall>, plan: &Plan, fall: &Fall) -> Result<(), OutOfMemory>
    ensures { OnOk result (found.new.items ≡ found.old.items ++ filter (is_told plan.now) (fall.now ∷ [])) }
{
    if is_told(plan, fall) {
        found.push(*fall)?;
    }
    Ok(())
}

// Appends those of these falls that are warned of.
fn push_each_told(told: &mut Vec<Fall>, plan: &Plan, found: &[Fall]) -> Result<(), OutOfMemory>
    ensures { OnOk result (told.new.items ≡ told.old.items ++ filter (is_told plan.now) found.now) }
{
    for fall in found {
        push_told(told, plan, fall)?;
    }
    Ok(())
}

/// The falls of trades that a plan is warned of.
pub(crate) fn told_falls(alloc: Global, plan: &Plan, rows: &[Row]) -> Result<Vec<Fall>, OutOfMemory>
    ensures { IfOk result (λ told. told.items ≡ told_falls plan.now rows.now) }
{
    let found = falls(alloc, rows)?;
    let mut told = Vec::new(alloc);
    push_each_told(&mut told, plan, &found)?;
    Ok(told)
}
