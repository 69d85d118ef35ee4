// Each operator is moved as it was when its move began.
ghost use Rattle.std.specs.Prelude.{◌≡◌, IfOk, Some, length};
ghost use Rattle.stream_ops.specs.Spec.{IsSpec};

use crate::answer::is_so;
use crate::moves::edges::{has_produced, has_taken};
use crate::moves::passing::{hold, moved};
use crate::moves::rows::{crossing, join, keep, last, total, window};
use crate::moves::survivor::{Survivor, opened};
use catch_up::{CaughtUp, Newcomer};
use std::alloc::Global;
use std::process::Abort;
use std::test::Fail;
use stream_ops::{OpSpec, OpState};
use tuple_edge::{Entry, Item, OutOfMemory};

// A newcomer that holds the third and the fifth item of the first in-edge, one that it has, and one
// of the second in-edge past a gap.
fn hold_some(newcomer: &mut Newcomer) -> Result<(), OutOfMemory>
    requires { length newcomer.old.held ≡ 2 }
    ensures { length newcomer.new.held ≡ 2 }
{
    hold(newcomer, 0, 3)?;
    hold(newcomer, 0, 5)?;
    hold(newcomer, 0, 1)?;
    hold(newcomer, 1, 2)?;
    Ok(())
}

fn newcomer(alloc: Global) -> Result<Newcomer, OutOfMemory>
    ensures { IfOk result (λ newcomer. length newcomer.held ≡ 2) }
{
    let mut newcomer = Newcomer::begin(alloc, 2, 2)?;
    hold_some(&mut newcomer)?;
    Ok(newcomer)
}

// The third item is folded in, and the others that were held are not. What was produced is kept.
fn has_edges(caught: &CaughtUp) -> bool {
    let last = Some(Item::Mark { stamp: 1 });
    has_taken(&caught.consumer, 0, 3, 3)
        && has_taken(&caught.consumer, 1, 0, 0)
        && has_produced(&caught.producer, 0, 1, 2, last)
        && has_produced(&caught.producer, 1, 3, 0, None)
}

// Whether an operator has these entries.
fn has_entries(alloc: Global, state: &OpState, kept: &[Entry]) -> Result<bool, OutOfMemory> {
    Ok(state.entries(alloc)?.as_slice() == kept)
}

fn is_caught_up(alloc: Global, caught: &CaughtUp, kept: &[Entry]) -> Result<bool, OutOfMemory> {
    Ok(has_edges(caught) && has_entries(alloc, &caught.state, kept)?)
}

// All of an operator is moved to a newcomer, which goes on with it. Nothing is left to take then.
fn catch_up(
    rt: &impl Abort,
    alloc: Global,
    survivor: &mut Survivor,
    newcomer: &mut Newcomer,
    spec: OpSpec,
) -> Result<CaughtUp, Fail>
    requires spec { IsSpec spec }
    requires watched { survivor.old.state.old ≡ Some survivor.old.state.entries }
    requires edges { length newcomer.old.held ≡ 2 }
{
    let count = moved(alloc, survivor, newcomer)?;
    let ended = newcomer.end(2, count, spec, 1, 0, 2)?;
    assert!(rt; newcomer.taken() == 0);
    Ok(ended.ok_or("not caught up")?)
}

fn caught_up(
    rt: &impl Abort,
    alloc: Global,
    survivor: &mut Survivor,
    spec: OpSpec,
) -> Result<CaughtUp, Fail>
    requires spec { IsSpec spec }
    requires watched { survivor.old.state.old ≡ Some survivor.old.state.entries }
{
    let mut newcomer = newcomer(alloc)?;
    let caught = catch_up(rt, alloc, survivor, &mut newcomer, spec);
    drop(newcomer);
    caught
}

// What is rebuilt of an operator that keeps these entries is as it was when its move began.
fn moves_kept(
    rt: &impl Abort,
    alloc: Global,
    survivor: &mut Survivor,
    spec: OpSpec,
    kept: &[Entry],
) -> Result<(), Fail>
    requires spec { IsSpec spec }
    requires watched { survivor.old.state.old ≡ Some survivor.old.state.entries }
{
    let caught = caught_up(rt, alloc, survivor, spec)?;
    let same = is_caught_up(alloc, &caught, kept);
    drop(caught);
    is_so(same?)
}

// Moves an operator with its edges, and looks at what was rebuilt. Meanwhile what it keeps has changed.
fn is_moved(
    rt: &impl Abort,
    alloc: Global,
    survivor: &mut Survivor,
    spec: OpSpec,
) -> Result<(), Fail>
    requires { IsSpec spec }
{
    survivor.prepare(alloc)?;
    let kept = survivor.state.entries(alloc)?;
    moves_kept(rt, alloc, survivor, spec, &kept)?;
    is_so(has_entries(alloc, &survivor.state, &kept)? == kept.is_empty())
}

fn moves(rt: &impl Abort, alloc: Global, spec: OpSpec) -> Result<(), Fail>
    requires { IsSpec spec }
{
    let mut survivor = opened(rt, alloc, spec)?;
    let moved = is_moved(rt, alloc, &mut survivor, spec);
    drop(survivor);
    moved
}

#[test]
fn each_operator_is_moved(rt: HostRuntime) -> Result<(), Fail> {
    let alloc = rt.alloc();
    moves(&rt, alloc, total())?;
    moves(&rt, alloc, last())?;
    moves(&rt, alloc, window())?;
    moves(&rt, alloc, crossing())?;
    moves(&rt, alloc, join())?;
    moves(&rt, alloc, keep())
}
