// What was told so far.
ghost use Rattle.run_watch.specs.Happenings.{each};
ghost use Rattle.run_watch.specs.Stamps.{seen_happenings, stamped};
ghost use Rattle.run_watch.specs.TraceView.{fall_in};
ghost use Rattle.run_watch.specs.Watching.{fallen, fell_at, nowhere};
ghost use Rattle.std.specs.Prelude.{◌≡◌, ◌<◌, ◌+◌, ◌++◌, ◌^◌, [], OnOk, map};

use crate::glimpse::Glimpse;
use crate::happening::{Fell, Happening, Told};
use crate::telling::{happened, named, recalled};
use std::alloc::Global;
use std::collections::BTreeMap;
use tuple_edge::{Event, NodeId, OutOfMemory, Which};

/// Where in a run something happens: the place of the event, its line, and how far ingress and egress are then.
#[derive(Clone, Copy)]
pub struct At {
    pub place: u64,
    pub line: u64,
    pub made: u64,
    pub emitted: u64,
}

/// Where a replica fell last, and how; one that never did is as if it had before the first event.
#[derive(Clone, Copy)]
pub struct Fall {
    pub place: u64,
    pub how: Fell,
}

/// What was told so far, where each replica last fell, and how many events there were.
#[derive(Drop)]
pub struct Trace {
    told: Vec<Told>,
    falls: BTreeMap<NodeId, Fall>,
    place: u64,
}

// Tells what happened, where something did.
fn tell(told: &mut Vec<Told>, at: &At, happening: Option<Happening>) -> Result<(), OutOfMemory>
    ensures { OnOk result (told.new.items ≡ told.old.items ++ map (stamped at.now) (each happening)) }
{
    let Some(happening) = happening else {
        return Ok(());
    };
    told.push(Told {
        place: at.place,
        line: at.line,
        made: at.made,
        emitted: at.emitted,
        happening,
    })?;
    Ok(())
}

impl Trace {
    // A trace of no event.
    pub(crate) fn new(alloc: Global) -> Trace
        ensures told { result.told.items ≡ [] }
        ensures falls { fall_in result.falls ≡ nowhere }
        ensures place { result.place ≡ 0 }
    {
        Trace {
            told: Vec::new(alloc),
            falls: BTreeMap::new(alloc),
            place: 0,
        }
    }

    // How many events there were.
    pub(crate) fn place(&self) -> u64
        ensures { result ≡ self.now.place }
    {
        self.place
    }

    // What was told.
    pub(crate) fn into_told(self) -> Vec<Told>
        ensures { result.items ≡ self.told.items }
    {
        self.told
    }

    // Tells what happens at an event of a node, and to its pair.
    pub(crate) fn note(
        &mut self,
        at: &At,
        event: &Event,
        node: NodeId,
        before: &Glimpse,
        after: &Glimpse,
        loss: Option<Happening>,
    ) -> Result<(), OutOfMemory>
        ensures told { OnOk result (self.new.told.items ≡ self.old.told.items
            ++ map (stamped at.now) (seen_happenings at.now.place (fall_in self.old.falls) event.now node before.now after.now loss)) }
        ensures falls { fall_in self.new.falls ≡ fall_in self.old.falls }
        ensures place { self.new.place ≡ self.old.place }
    {
        let named = named(at.place, &self.falls, node, before, after);
        tell(&mut self.told, at, happened(event, before, after))?;
        tell(&mut self.told, at, named)?;
        tell(&mut self.told, at, recalled(node, Which::A, before, after))?;
        tell(&mut self.told, at, recalled(node, Which::B, before, after))?;
        tell(&mut self.told, at, loss)
    }

    // A replica falls.
    fn fall(&mut self, node: NodeId, fall: Fall) -> Result<(), OutOfMemory>
        ensures told { self.new.told.items ≡ self.old.told.items }
        ensures falls { OnOk result (fall_in self.new.falls ≡ fell_at fall node (fall_in self.old.falls)) }
        ensures place { self.new.place ≡ self.old.place }
    {
        self.falls.insert(node, fall)?;
        Ok(())
    }

    // Goes past an event.
    pub(crate) fn pass(&mut self, event: &Event) -> Result<(), OutOfMemory>
        requires { self.old.place + 1 < 2 ^ 64 }
        ensures told { self.new.told.items ≡ self.old.told.items }
        ensures falls { OnOk result (fall_in self.new.falls ≡ fallen (self.old.place + 1) event.now (fall_in self.old.falls)) }
        ensures place { OnOk result (self.new.place ≡ self.old.place + 1) }
    {
        let place = self.place + 1;
        self.place = place;
        match *event {
            Event::Kill { node } => self.fall(
                node,
                Fall {
                    place,
                    how: Fell::Failed,
                },
            ),
            Event::AskStop { node } => self.fall(
                node,
                Fall {
                    place,
                    how: Fell::AskedStop,
                },
            ),
            Event::Take { .. }
            | Event::Work { .. }
            | Event::Make
            | Event::AskBack { .. }
            | Event::Pull { .. } => Ok(()),
        }
    }
}
