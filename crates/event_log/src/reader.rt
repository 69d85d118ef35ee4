// Reading a log.
ghost use Rattle.std.specs.Prelude.{◌≡◌, IfOk, [], ◌∷◌};

use crate::counting::count;
use crate::entry::Entry;
use crate::entry_reader::EntryReader;
use std::alloc::Global;
use std::marker::Model;
use tuple_edge::{Event, LinkId, NodeId, OutOfMemory, Stamped};

/// The events of a log that are still to be read.
#[derive(Drop)]
pub struct Reader<'a> {
    node: NodeId,
    senders: &'a [NodeId],
    whole: &'a [Stamped],
    entries: EntryReader<'a>,
    clock: u64,
    taken: Vec<u64>,
    used: usize,
}

impl<'a> Model for Reader<'a> {
    ghost use Rattle.std.specs.Prelude.{List};
    ghost use Rattle.tuple_edge.specs.declared.event.Stamped.{Stamped};
    ghost use Rattle.event_log.specs.Reading.{CanBeRead, names_of, progress_of, reading};

    ghost Value = { List Stamped };

    ghost view = { λ r. reading (names_of r.node r.senders.now r.whole.now) (progress_of r.clock r.taken.items r.used) r.entries };

    ghost invariant = { λ r. CanBeRead r.senders.now r.whole.now r.taken.items r.used r.entries };
}

impl<'a> Reader<'a> {
    ghost use Rattle.std.specs.Prelude.{length, slice_get, drop};
    ghost use Rattle.event_log.specs.Reading.{AreKnown, at_start, names_of, reading};

    /// A reader of entries from the first on.
    pub(crate) fn new(
        alloc: Global,
        node: NodeId,
        senders: &'a [NodeId],
        whole: &'a [Stamped],
        entries: EntryReader<'a>,
    ) -> Result<Reader<'a>, OutOfMemory>
        requires { AreKnown (length senders.now) 0 (length whole.now) entries }
        ensures { IfOk result (λ reader. reader ≡ reading (names_of node senders.now whole.now) at_start entries.entry) }
    {
        let taken = vec![in alloc; 0u64; senders.len()]?;
        Ok(Reader {
            node,
            senders,
            whole,
            entries,
            clock: 0,
            taken,
            used: 0,
        })
    }

    /// The next event, which stays. None exactly where there is none.
    pub fn peek(&self) -> Option<Stamped>
        ensures { result ≡ slice_get self.now 0 }
    {
        let entry = self.entries.first()?;
        Some(match entry {
            Entry::Work { rise } => Stamped {
                clock: self.clock.saturating_add(u64::from(rise)),
                event: Event::Work { node: self.node },
            },
            Entry::Make { rise } => Stamped {
                clock: self.clock.saturating_add(u64::from(rise)),
                event: Event::Make,
            },
            Entry::Take { sender, rise } => Stamped {
                clock: self.clock.saturating_add(u64::from(rise)),
                event: Event::Take {
                    link: LinkId {
                        from: self.senders[usize::from(sender)],
                        to: self.node,
                    },
                    index: self.taken[usize::from(sender)].saturating_add(1),
                },
            },
            Entry::Jump { .. } | Entry::Whole => self.whole[self.used],
        })
    }

    /// Takes the next event. None exactly where there is none.
    pub fn next(&mut self) -> Option<Stamped>
        ensures first { result ≡ slice_get self.old 0 }
        ensures rest { self.new ≡ drop 1 self.old }
    {
        let stamped = self.peek()?;
        let entry = self.entries.next()?;
        count(&mut self.taken, entry, stamped.event);
        self.used += entry.needed();
        self.clock = stamped.clock;
        Some(stamped)
    }
}
