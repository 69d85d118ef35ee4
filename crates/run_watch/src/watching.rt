// A list of events, watched.
ghost use Rattle.flux_core.specs.CoreView.{flow_in, inputs_of};
ghost use Rattle.flux_core.specs.Follows.{AreNamed, IsFollowed, events_of};
ghost use Rattle.flux_core.specs.Stands.{IsCore, StandsFor};
ghost use Rattle.pair_machine.specs.Machine.{State};
ghost use Rattle.pair_machine.specs.Sound.{IsSound};
ghost use Rattle.run_watch.specs.Columns.{frames_from};
ghost use Rattle.run_watch.specs.Seen.{HasStopped};
ghost use Rattle.run_watch.specs.Watching.{told_from};
ghost use Rattle.run_watch.specs.declared.watching.WatchError.TheVariants as error;
ghost use Rattle.std.specs.Prelude.{◌≡◌, ◌≤◌, true, IfErr, IfOk, OnOk};

use crate::frame::Frame;
use crate::framing::push_frame;
use crate::happening::Told;
use crate::seeing::walk;
use crate::trace::Trace;
use flux_core::{Core, Stopped};
use run_journal::Lined;
use std::alloc::Global;
use tuple_edge::OutOfMemory;

/// What a run came to, as it is watched.
#[derive(Drop)]
pub struct WatchedRun {
    /// What happened, in order.
    pub told: Vec<Told>,
    /// What the run is at the end of each column.
    pub frames: Vec<Frame>,
}

/// Why a list is not watched to its end.
#[derive(Clone, Copy)]
pub enum WatchError {
    /// An event is no step: those before it are applied.
    Stopped(Stopped),
    /// Memory is wanting.
    OutOfMemory,
}

impl From<OutOfMemory> for WatchError {
    ghost from_gives = { λ _ e. e ≡ error.OutOfMemory };

    fn from(_want: OutOfMemory) -> WatchError {
        WatchError::OutOfMemory
    }
}

/// Applies events of the plan one after another, as `Core::follow` does, and tells what happens at each. The list is
/// cut into so many columns at most, of equal numbers of events, where the first ones have one more if they don't come
/// out even; the frames are at their ends, and the last one is after the last event.
pub fn watch(
    alloc: Global,
    core: &mut Core,
    events: &[Lined],
    columns: u32,
) -> Result<WatchedRun, WatchError>
    requires named { AreNamed core.old.plan events.now }
    requires whole { core.old.whole ≡ true }
    requires some { 1 ≤ columns }
    ensures followed { OnOk result (IsFollowed core.old core.new (events_of events.now)) }
    ensures told { IfOk result (λ w. (s : State) → StandsFor core.old s → IsSound (flow_in core.old) s
        → w.told.items ≡ told_from core.old.plan (inputs_of core.old) s events.now) }
    ensures frames { IfOk result (λ w. (s : State) → StandsFor core.old s → IsSound (flow_in core.old) s
        → w.frames.items ≡ frames_from core.old.plan (inputs_of core.old) columns s events.now) }
    ensures stopped { IfErr result (HasStopped core.old core.new events.now) }
    ensures plan { core.new.plan ≡ core.old.plan }
    ensures inputs { inputs_of core.new ≡ inputs_of core.old }
    ensures whole { core.new.whole ≡ core.old.whole }
    ensures core { IsCore core.new }
{
    core.known();
    let mut trace = Trace::new(alloc);
    let mut frames = Vec::new(alloc);
    let many = (columns as usize).min(events.len());
    let mut start = 0;
    for column in 0..many {
        let left = events.len() - start;
        let end = start + left.div_ceil(many - column);
        walk(core, &mut trace, &events[start..end])?;
        let place = trace.place();
        push_frame(&mut frames, alloc, core, place)?;
        start = end;
    }
    Ok(WatchedRun {
        told: trace.into_told(),
        frames,
    })
}
