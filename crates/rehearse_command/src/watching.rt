// The events of a run, watched from the opening on.
ghost use Rattle.flux_core.specs.CoreView.{inputs_of};
ghost use Rattle.flux_core.specs.Follows.{AreNamed, IsFollowed, events_of};
ghost use Rattle.flux_core.specs.Stands.{IsCore, StandsFor};
ghost use Rattle.pair_machine.specs.Machine.{opening};
ghost use Rattle.rehearse_command.specs.Rehearsals.{columns};
ghost use Rattle.rehearse_command.specs.Watches.{IsWant, LeadOn};
ghost use Rattle.run_watch.specs.Columns.{frames_from};
ghost use Rattle.run_watch.specs.Watching.{told_from};
ghost use Rattle.std.specs.Prelude.{◌≡◌, true, IfOk, OnOk};

use flux_core::{ApplyError, Core};
use run_journal::Lined;
use run_watch::{WatchError, WatchedRun, watch};
use std::alloc::Global;
use tuple_edge::OutOfMemory;

// Into how many columns of pixels the events are cut at most.
const COLUMNS: u32 = 960;

// Why legal events were not watched to their end: none of them is refused, so memory was wanting.
fn want_of(error: WatchError) -> OutOfMemory
    requires { IsWant error }
{
    match error {
        WatchError::OutOfMemory => OutOfMemory,
        WatchError::Stopped(stopped) => match stopped.error {
            ApplyError::OutOfMemory => OutOfMemory,
            _ => unreachable!(),
        },
    }
}

/// Applies the events of a run to a core as it opens, and tells what happened. They are legal: only memory can be wanting.
pub(crate) fn watched(
    alloc: Global,
    core: &mut Core,
    lines: &[Lined],
) -> Result<WatchedRun, OutOfMemory>
    requires named { AreNamed core.old.plan lines.now }
    requires whole { core.old.whole ≡ true }
    requires opens { StandsFor core.old opening }
    requires legal { LeadOn core.old lines.now }
    ensures followed { OnOk result (IsFollowed core.old core.new (events_of lines.now)) }
    ensures told { IfOk result (λ w. w.told.items ≡ told_from core.old.plan (inputs_of core.old) opening lines.now) }
    ensures frames { IfOk result (λ w. w.frames.items ≡ frames_from core.old.plan (inputs_of core.old) columns opening lines.now) }
    ensures plan { core.new.plan ≡ core.old.plan }
    ensures core { IsCore core.new }
{
    match watch(alloc, core, lines, COLUMNS) {
        Ok(watched) => Ok(watched),
        Err(error) => Err(want_of(error)),
    }
}
