// Operators, and the rows that they are given.
ghost use Rattle.std.specs.Prelude.{◌≡◌, ◌≤◌};
ghost use Rattle.stream_ops.specs.Spec.{IsSpec};
ghost use Rattle.stream_ops.specs.Times.{IsTimely};

use std::alloc::Global;
use stream_ops::{By, Compare, OpSpec, OpState};
use tuple_edge::{Column, Item, OutOfMemory, Row};

// Each operator with settings that keep something of the rows below.
pub(crate) fn total() -> OpSpec
    ensures { IsSpec result }
{
    OpSpec::Total { by: By::Account }
}

pub(crate) fn last() -> OpSpec
    ensures { IsSpec result }
{
    OpSpec::Last {
        by: By::Both,
        rows: 4,
    }
}

pub(crate) fn window() -> OpSpec
    ensures { IsSpec result }
{
    OpSpec::Window {
        by: By::Symbol,
        width: 60,
    }
}

pub(crate) fn crossing() -> OpSpec
    ensures { IsSpec result }
{
    OpSpec::Crossing {
        by: By::Both,
        limit: 500,
    }
}

pub(crate) fn keep() -> OpSpec
    ensures { IsSpec result }
{
    OpSpec::Keep {
        column: Column::Qty,
        compare: Compare::Less,
        limit: 3,
    }
}

// A join of the rows of one symbol with those of the others.
pub(crate) fn join() -> OpSpec
    ensures { IsSpec result }
{
    OpSpec::Join {
        by: By::Account,
        width: 60,
        rows: 3,
        column: Column::Symbol,
        compare: Compare::Equal,
        limit: 0,
    }
}

// A number as if by chance, below a bound.
fn drawn(nth: u64, below: u64) -> i64
    requires { 1 ≤ below }
{
    let mixed = nth
        .wrapping_mul(6_364_136_223_846_793_005)
        .wrapping_add(1_442_695_040_888_963_407);
    ((mixed.wrapping_mul(mixed) >> 33) % below) as i64
}

// A row as if by chance, of one of a few keys.
pub(crate) fn row(nth: u16) -> Item
    ensures { IsTimely result }
{
    let at = u64::from(nth);
    let row = Row {
        time: i64::from(nth) * 7,
        account: drawn(at, 5),
        symbol: drawn(at + 1000, 3),
        qty: drawn(at + 2000, 11).saturating_sub(5),
        value: drawn(at + 3000, 2001).saturating_sub(1000),
    };
    Item::Row { stamp: at, row }
}

// Gives an operator the rows from one up to another.
pub(crate) fn step_on(
    state: &mut OpState,
    from: u16,
    upto: u16,
    out: &mut Vec<Row>,
) -> Result<(), OutOfMemory>
    ensures { state.new.old ≡ state.old.old }
{
    for nth in from..upto {
        state.step(row(nth), out)?;
    }
    Ok(())
}

// The same, where nobody looks at what it answers.
pub(crate) fn go_on(
    alloc: Global,
    state: &mut OpState,
    from: u16,
    upto: u16,
) -> Result<(), OutOfMemory>
    ensures { state.new.old ≡ state.old.old }
{
    let mut out = Vec::new(alloc);
    step_on(state, from, upto, &mut out)
}

// An operator that was given so many rows.
pub(crate) fn given(alloc: Global, spec: OpSpec, rows: u16) -> Result<OpState, OutOfMemory>
    requires { IsSpec spec }
{
    let mut state = OpState::new(alloc, spec);
    go_on(alloc, &mut state, 0, rows)?;
    Ok(state)
}
