// A move, given to a newcomer part by part while the operator goes on.
ghost use Rattle.state_mover.specs.MoverView.{IsMidway};
ghost use Rattle.std.specs.Prelude.{◌≡◌, ◌<◌, IfSome, IsSome, OnOk, Some, length};

use crate::moves::rows::go_on;
use crate::moves::survivor::Survivor;
use catch_up::{Hold, Newcomer};
use state_mover::{Moved, Mover};
use std::alloc::Global;
use stream_ops::OpState;
use tuple_edge::{Item, OutOfMemory};

// Holds an item.
pub(crate) fn hold(newcomer: &mut Newcomer, edge: u32, number: u64) -> Result<Hold, OutOfMemory>
    requires { edge < length newcomer.old.held }
    ensures { length newcomer.new.held ≡ length newcomer.old.held }
{
    newcomer.hold(edge, number, Item::Mark { stamp: number })
}

// Gives the next part of a move to its newcomer, where it is an entry.
fn pass_one(mover: &mut Mover, state: &OpState, newcomer: &mut Newcomer) -> Result<(), OutOfMemory>
    requires watched { IsSome state.now.old }
    requires midway { IfSome state.now.old (IsMidway mover.old) }
    ensures midway { OnOk result (IfSome state.now.old (IsMidway mover.new)) }
    ensures held { OnOk result (newcomer.new.held ≡ newcomer.old.held) }
{
    if let Some(Moved::Chunk { number, entry }) = mover.next(state) {
        let _took = newcomer.chunk(mover.target(), number, entry)?;
    }
    Ok(())
}

// Gives all parts of a move to its newcomer, and a hundred rows to the operator after each of them.
fn pass_all(
    alloc: Global,
    mover: &mut Mover,
    state: &mut OpState,
    newcomer: &mut Newcomer,
) -> Result<(), OutOfMemory>
    requires watched { IsSome state.old.old }
    requires midway { IfSome state.old.old (IsMidway mover.old) }
    ensures held { OnOk result (newcomer.new.held ≡ newcomer.old.held) }
{
    for _part in 0..mover.total() {
        pass_one(mover, state, newcomer)?;
        go_on(alloc, state, 100, 200)?;
    }
    Ok(())
}

// Moves a watched operator with its edges to a newcomer, and gives how many entries that took.
pub(crate) fn moved(
    alloc: Global,
    survivor: &mut Survivor,
    newcomer: &mut Newcomer,
) -> Result<u64, OutOfMemory>
    requires watched { survivor.old.state.old ≡ Some survivor.old.state.entries }
    ensures held { OnOk result (newcomer.new.held ≡ newcomer.old.held) }
{
    let mut mover = survivor.mover(alloc, 2)?;
    let passed = pass_all(alloc, &mut mover, &mut survivor.state, newcomer);
    let entries = mover.total() - 1;
    drop(mover);
    passed?;
    Ok(entries)
}
