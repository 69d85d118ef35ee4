// An operator with its edges, of which a move gives all to a newcomer.
ghost use Rattle.state_mover.specs.MoverView.{IsMidway};
ghost use Rattle.std.specs.Prelude.{◌≡◌, IfOk, IfSome, OnOk, Some};
ghost use Rattle.stream_ops.specs.Spec.{IsSpec};

use crate::moves::edges::{consumer, producer};
use crate::moves::rows::go_on;
use flux_consumer::Consumer;
use flux_producer::Producer;
use state_mover::Mover;
use std::alloc::Global;
use std::process::Abort;
use stream_ops::{OpSpec, OpState};
use tuple_edge::OutOfMemory;

// Who has one lets it go by one `drop`, and not at each `?`: each place where it is let go is dear to prove.
#[derive(Drop)]
pub(crate) struct Survivor {
    consumer: Consumer,
    producer: Producer,
    pub(crate) state: OpState,
}

// An operator of these settings that was given no row.
pub(crate) fn opened(rt: &impl Abort, alloc: Global, spec: OpSpec) -> Result<Survivor, OutOfMemory>
    requires { IsSpec spec }
{
    let consumer = consumer(alloc)?;
    let producer = producer(rt, alloc)?;
    let state = OpState::new(alloc, spec);
    Ok(Survivor {
        consumer,
        producer,
        state,
    })
}

impl Survivor {
    // A move of a watched operator to an incarnation.
    pub(crate) fn mover(&self, alloc: Global, target: u64) -> Result<Mover, OutOfMemory>
        requires watched { self.now.state.old ≡ Some self.now.state.entries }
        ensures midway { IfOk result (λ mover. IfSome self.now.state.old (IsMidway mover)) }
    {
        let entries = self.state.entry_count();
        if entries > 1000 {
            return Err(OutOfMemory);
        }
        Mover::begin(alloc, target, &self.consumer, &self.producer, entries)
    }

    // Begins a move, and gives its first part to nobody.
    fn begin_another(&mut self, alloc: Global) -> Result<(), OutOfMemory> {
        self.state.watch();
        let mut mover = self.mover(alloc, 1)?;
        let _part = mover.next(&self.state);
        Ok(())
    }

    // It is watched after thirty rows. A move had begun after twenty, which another one replaces.
    pub(crate) fn prepare(&mut self, alloc: Global) -> Result<(), OutOfMemory>
        ensures { OnOk result (self.new.state.old ≡ Some self.new.state.entries) }
    {
        go_on(alloc, &mut self.state, 0, 20)?;
        self.begin_another(alloc)?;
        go_on(alloc, &mut self.state, 20, 30)?;
        self.state.watch();
        Ok(())
    }
}
