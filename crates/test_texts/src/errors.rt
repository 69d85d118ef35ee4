// What each error says of itself, printed: a line of `flux` says no more of a text that is refused.
use crate::fixture::none_is_wrong;
use bucket_move::MovesError;
use failure_script::ScriptError;
use plan_reader::PlanError;
use run_journal::EventsError;
use std::alloc::Global;
use std::fmt::Display;
use std::test::Fail;
use trade_text::{CashError, CashField, Field, FileField, ReadError, TradeError};
use tuple_edge::OutOfMemory;

// Whether an error prints itself so.
fn says<E: Display + Copy>(alloc: Global, error: E, text: &str) -> Result<bool, OutOfMemory> {
    let printed = format!(in alloc; "{error}")?;
    Ok(printed.as_str() == text)
}

// The first error that doesn't.
fn first_wrong<E: Display + Copy>(
    alloc: Global,
    errors: &[(E, &str)],
) -> Result<Option<usize>, OutOfMemory> {
    for (place, (error, text)) in errors.iter().enumerate() {
        if !says(alloc, *error, text)? {
            return Ok(Some(place));
        }
    }
    Ok(None)
}

fn say<E: Display + Copy>(alloc: Global, errors: &[(E, &str)]) -> Result<(), Fail> {
    none_is_wrong(first_wrong(alloc, errors)?)
}

// Whether a fault of a field names it.
fn names_form<F: FileField>(alloc: Global, field: F, name: &str) -> Result<bool, OutOfMemory> {
    let form = format!(in alloc; "record 7: field {name}")?;
    says(alloc, ReadError::Field { rec: 7, field }, form.as_str())
}

fn names_range<F: FileField>(alloc: Global, field: F, name: &str) -> Result<bool, OutOfMemory> {
    let range = format!(in alloc; "record 7: range {name}")?;
    says(alloc, ReadError::Range { rec: 7, field }, range.as_str())
}

// The first field that its faults don't name.
fn first_unnamed<F: FileField>(
    alloc: Global,
    fields: &[(F, &str)],
) -> Result<Option<usize>, OutOfMemory> {
    for (place, (field, name)) in fields.iter().enumerate() {
        if !names_form(alloc, *field, name)? || !names_range(alloc, *field, name)? {
            return Ok(Some(place));
        }
    }
    Ok(None)
}

fn name<F: FileField>(alloc: Global, fields: &[(F, &str)]) -> Result<(), Fail> {
    none_is_wrong(first_unnamed(alloc, fields)?)
}

const PLANS: &[(PlanError, &str)] = &[
    (PlanError::Grammar { line: 7 }, "line 7: grammar"),
    (PlanError::UnknownWord { line: 7 }, "line 7: unknown word"),
    (PlanError::Number { line: 7 }, "line 7: number"),
    (PlanError::Range { line: 7 }, "line 7: range"),
    (PlanError::NoStage, "no stage"),
    (PlanError::TooMany { line: 7 }, "line 7: too many stages"),
    (PlanError::TooLong { bytes: 65_537 }, "too long"),
    (
        PlanError::Crowded { edges: 9, mark: 1 },
        "crowded, edges 9, mark 1",
    ),
    (PlanError::OutOfMemory, "out of memory"),
    (
        PlanError::JoinNotLast { line: 7 },
        "line 7: stage after join",
    ),
];

#[test]
fn plans(rt: HostRuntime) -> Result<(), Fail> {
    say(rt.alloc(), PLANS)
}

const SCRIPTS: &[(ScriptError, &str)] = &[
    (ScriptError::Grammar { line: 7 }, "line 7: grammar"),
    (
        ScriptError::NoSuchReplica { line: 7 },
        "line 7: no such replica",
    ),
    (ScriptError::Range { line: 7 }, "line 7: range"),
    (ScriptError::Twice { line: 7 }, "line 7: twice"),
    (ScriptError::TooLong { bytes: 65_537 }, "too long"),
    (ScriptError::OutOfMemory, "out of memory"),
];

#[test]
fn scripts(rt: HostRuntime) -> Result<(), Fail> {
    say(rt.alloc(), SCRIPTS)
}

const EVENTS: &[(EventsError, &str)] = &[
    (EventsError::Header, "header"),
    (EventsError::Grammar { line: 7 }, "line 7: grammar"),
    (EventsError::NoSuchNode { line: 7 }, "line 7: no such node"),
    (EventsError::Range { line: 7 }, "line 7: range"),
    (EventsError::TooMany, "too many events"),
    (EventsError::TooLong { bytes: 536_870_913 }, "too long"),
    (EventsError::OutOfMemory, "out of memory"),
];

#[test]
fn events(rt: HostRuntime) -> Result<(), Fail> {
    say(rt.alloc(), EVENTS)
}

const MOVES: &[(MovesError, &str)] = &[
    (MovesError::Header, "header"),
    (MovesError::Grammar { line: 7 }, "line 7: grammar"),
    (MovesError::Range { line: 7 }, "line 7: range"),
    (MovesError::NotRising { line: 7 }, "line 7: not rising"),
    (MovesError::TooLong { bytes: 65_537 }, "too long"),
    (MovesError::OutOfMemory, "out of memory"),
];

#[test]
fn moves(rt: HostRuntime) -> Result<(), Fail> {
    say(rt.alloc(), MOVES)
}

const TRADE_FIELDS: &[(Field, &str)] = &[
    (Field::Time, "time"),
    (Field::Account, "account"),
    (Field::Symbol, "symbol"),
    (Field::Side, "side"),
    (Field::Qty, "qty"),
    (Field::Price, "price"),
];

const TRADES: &[(TradeError, &str)] = &[
    (TradeError::Header, "header"),
    (TradeError::Row { rec: 7 }, "record 7: fields"),
    (TradeError::TooMany, "too many trades"),
    (TradeError::TooLong { bytes: 16_777_217 }, "too long"),
    (TradeError::OutOfMemory, "out of memory"),
];

#[test]
fn trades(rt: HostRuntime) -> Result<(), Fail> {
    name(rt.alloc(), TRADE_FIELDS)?;
    say(rt.alloc(), TRADES)
}

const MOVEMENT_FIELDS: &[(CashField, &str)] = &[
    (CashField::Time, "time"),
    (CashField::Account, "account"),
    (CashField::Amount, "amount"),
];

const MOVEMENTS: &[(CashError, &str)] = &[
    (CashError::Header, "header"),
    (CashError::Row { rec: 7 }, "record 7: fields"),
    (CashError::TooMany, "too many movements"),
    (CashError::TooLong { bytes: 16_777_217 }, "too long"),
    (CashError::OutOfMemory, "out of memory"),
];

#[test]
fn movements(rt: HostRuntime) -> Result<(), Fail> {
    name(rt.alloc(), MOVEMENT_FIELDS)?;
    say(rt.alloc(), MOVEMENTS)
}

const NO_MEMORY: &[(OutOfMemory, &str)] = &[(OutOfMemory, "out of memory")];

#[test]
fn want_of_memory(rt: HostRuntime) -> Result<(), Fail> {
    say(rt.alloc(), NO_MEMORY)
}
