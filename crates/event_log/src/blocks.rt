// A list of events in which the same one mostly comes right after itself.
ghost use Rattle.std.specs.Prelude.{◌≡◌, ◌≤◌, ◌<◌, ◌+◌, ◌++◌, ◌∷◌, [], IsTrue, OnOk, OnErr, replicate};

use crate::block_reader::BlockReader;
use std::alloc::Global;
use std::marker::Model;
use tuple_edge::{Event, OutOfMemory};

/// So many times the same event.
#[derive(Clone, Copy)]
pub(crate) struct Block {
    pub(crate) event: Event,
    pub(crate) count: u64,
}

/// A list of any events, without clocks. A make, a piece of work or a pull that comes right after itself takes no memory,
/// as in a drain.
#[derive(Drop)]
pub struct EventBlocks {
    blocks: Vec<Block>,
    // The block after them, which still grows.
    last: Event,
    count: u64,
}

impl Model for EventBlocks {
    ghost use Rattle.event_log.specs.Blocks.{BlocksView, events_in};
    ghost use Rattle.std.specs.Prelude.{◌-◌, ◌++◌, replicate, vec_capacity, vec_len};

    ghost Value = { BlocksView };

    ghost view = { λ b. record {
      events = events_in b.blocks.items ++ replicate b.count b.last;
      spare = vec_capacity b.blocks - vec_len b.blocks;
    } };
}

// Whether an event comes again, of those that a drain does. Any other has a block of its own each time.
fn repeats(event: Event, last: Event) -> bool
    ensures { IsTrue result → last ≡ event }
{
    match (event, last) {
        (Event::Make, Event::Make) => true,
        (Event::Work { node }, Event::Work { node: before }) => before == node,
        (
            Event::Pull { from, to },
            Event::Pull {
                from: from_before,
                to: to_before,
            },
        ) => from_before == from && to_before == to,
        _ => false,
    }
}

// Appends an event so many times.
fn push_times(events: &mut Vec<Event>, event: Event, count: u64) -> Result<(), OutOfMemory>
    ensures { OnOk result (events.new.items ≡ events.old.items ++ replicate count event) }
{
    for _nth in 0..count {
        events.push(event)?;
    }
    Ok(())
}

impl EventBlocks {
    ghost use Rattle.event_log.specs.Blocks.{events_in};

    /// No events.
    pub fn new(alloc: Global) -> EventBlocks
        ensures { result ≡ record { events = []; spare = 0 } }
    {
        EventBlocks {
            blocks: Vec::new(alloc),
            last: Event::Make,
            count: 0,
        }
    }

    /// Makes room for this many further events. Where there is room already it is never refused.
    pub fn reserve(&mut self, events: usize) -> Result<(), OutOfMemory>
        ensures events { self.new.events ≡ self.old.events }
        ensures spare { OnOk result (events ≤ self.new.spare) }
        ensures kept { self.old.spare ≤ self.new.spare }
        ensures unchanged { OnErr result (self.new ≡ self.old) }

        // What is there already is never refused.
        ensures refused { OnErr result (self.old.spare < events) }
    {
        self.blocks.reserve(events)?;
        Ok(())
    }

    /// Appends an event. It takes at most one place of the room, and can't fail.
    pub fn push_reserved(&mut self, event: Event)
        requires { 1 ≤ self.old.spare }
        ensures events { self.new.events ≡ self.old.events ++ event ∷ [] }
        ensures spare { self.old.spare ≤ self.new.spare + 1 }
    {
        if repeats(event, self.last) && self.count < u64::MAX {
            self.count += 1;
            return;
        }
        self.blocks.push_reserved(Block {
            event: self.last,
            count: self.count,
        });
        self.last = event;
        self.count = 1;
    }

    /// A reader of its events, from the first on.
    pub fn reader(&self) -> BlockReader<'_>
        ensures { result.events ≡ self.now.events }
    {
        BlockReader::new(
            &self.blocks,
            Block {
                event: self.last,
                count: self.count,
            },
        )
    }

    /// Appends all of its events to others.
    pub fn append_to(&self, events: &mut Vec<Event>) -> Result<(), OutOfMemory>
        ensures { OnOk result (events.new.items ≡ events.old.items ++ self.now.events) }
    {
        for block in &self.blocks {
            push_times(events, block.event, block.count)?;
        }
        push_times(events, self.last, self.count)
    }
}
