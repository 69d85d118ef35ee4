// A core that is driven event by event, and all by which its state can differ from another one.
ghost use Rattle.std.specs.Prelude.{◌≡◌, true};

use crate::nodes::{NODES, consumer_of, low_of, mark_of, producer_of, replica_of};
use flux_core::{ApplyError, Core};
use state_text::write_state;
use std::alloc::Global;
use test_kit::SmallRun;
use tuple_edge::{Event, NodeId, OutOfMemory, Which};

/// A move as it began: for which incarnation it is, and the numbers of the replica that gives its state.
#[derive(Clone, Copy, Debug)]
struct Begun {
    target: u64,
    mark: u64,
    count: u64,
    low: u64,
}

/// A core that was made as its plan opens, so that every packet that was ever sent is there, and the moves under way.
#[derive(Drop)]
pub(crate) struct Story {
    pub(crate) core: Core,
    from_a: Option<Begun>,
    from_b: Option<Begun>,
    ghost whole: { core.whole ≡ true },
}

// The move that a replica has under way, as if it began now.
fn move_of(core: &Core, which: Which) -> Option<Begun> {
    let replica = replica_of(core, which)?;
    let target = replica.mover()?.target();
    let mark = mark_of(consumer_of(core, which)?);
    let low = low_of(producer_of(core, which)?)?;
    let count = replica.count();
    Some(Begun {
        target,
        mark,
        count,
        low,
    })
}

// The move that is under way after a step: the one from before, or one that began then.
fn under_way(before: Option<Begun>, now: Option<Begun>) -> Option<Begun> {
    match (before, now) {
        (Some(before), Some(now)) if before.target == now.target => Some(before),
        (_, now) => now,
    }
}

// Appends what a node sent to another one, packet by packet.
fn push_sent(text: &mut String, core: &Core, from: NodeId, to: NodeId) -> Result<(), OutOfMemory> {
    if !core.plan().has(from) {
        return Ok(());
    }
    let log = core.sent_by(from);
    for nth in 0..log.len() {
        if let Some((receiver, body)) = log.get(nth)
            && receiver == to
        {
            writeln!(text, "{body:?}")?;
        }
    }
    Ok(())
}

// Appends what a node sent, link by link.
fn push_links(text: &mut String, core: &Core, from: NodeId) -> Result<(), OutOfMemory> {
    for to in NODES {
        push_sent(text, core, from, to)?;
        text.push_str("\n")?;
    }
    Ok(())
}

impl Story {
    /// The run as it opens.
    pub(crate) fn opened(alloc: Global, run: &SmallRun) -> Result<Story, OutOfMemory> {
        let core = Core::new(alloc, &run.plan, &run.trades)?;
        let (from_a, from_b) = (None, None);
        Ok(Story {
            core,
            from_a,
            from_b,
        })
    }

    /// Applies an event, and says whether it is a step. One that isn't changes nothing.
    pub(crate) fn steps(&mut self, event: Event) -> Result<bool, OutOfMemory> {
        if !self.core.plan().names(&event) {
            return Ok(false);
        }
        match self.core.apply(event) {
            Ok(()) => {
                self.from_a = under_way(self.from_a, move_of(&self.core, Which::A));
                self.from_b = under_way(self.from_b, move_of(&self.core, Which::B));
                Ok(true)
            }
            Err(ApplyError::OutOfMemory) => Err(OutOfMemory),
            Err(_) => Ok(false),
        }
    }

    /// The text of its state, and what that text leaves open: what the packets on each link say, and how moves began.
    pub(crate) fn state(&self, alloc: Global, run: &SmallRun) -> Result<Vec<u8>, OutOfMemory> {
        let mut state = write_state(&self.core, alloc, &run.trades)?;
        let (from_a, from_b) = (self.from_a, self.from_b);
        let mut more = format!(in alloc; "{from_a:?} {from_b:?}\n")?;
        for from in NODES {
            push_links(&mut more, &self.core, from)?;
        }
        state.extend_from_slice(more.as_bytes())?;
        Ok(state)
    }
}
