// What of a log is still to be written.
ghost use Rattle.std.specs.Prelude.{◌≡◌, ◌++◌, IfOk, OnOk, drop, map, string_bytes, take};
ghost use Rattle.tuple_edge.specs.declared.event.Stamped.{Stamped};
ghost use Rattle.journal_writer.specs.Lines.{lines_of};
ghost use Rattle.journal_writer.specs.Merged.{first_clock};

use crate::lines::Lines;
use event_log::{Log, Reader};
use std::alloc::Global;
use std::marker::Model;
use tuple_edge::OutOfMemory;

/// The events of a log that are still to be written.
#[derive(Drop)]
pub(crate) struct Source<'a> {
    reader: Reader<'a>,
    // The clock of the next one, if there is one.
    clock: Option<u64>,
    lines: Lines,
}

impl<'a> Model for Source<'a> {
    ghost use Rattle.std.specs.Prelude.{◌≡◌};
    ghost use Rattle.journal_writer.specs.Merged.{Named, first_clock};

    ghost Value = { Named };

    ghost view = { λ s. (s.lines, s.reader) };

    ghost invariant = { λ s. s.clock ≡ first_clock s.reader };
}

impl<'a> Source<'a> {
    /// All events of a log.
    pub(crate) fn new(alloc: Global, log: &'a Log) -> Result<Source<'a>, OutOfMemory>
        ensures { IfOk result (λ source. source ≡ (log.now.node, log.now.entries)) }
    {
        let lines = Lines::new(alloc, log.node())?;
        let reader = log.reader(alloc)?;
        let clock = reader.peek().map(|stamped| stamped.clock);
        Ok(Source {
            reader,
            clock,
            lines,
        })
    }

    /// The clock of the next event, if there is one.
    pub(crate) fn clock(&self) -> Option<u64>
        ensures { result ≡ first_clock self.now.1 }
    {
        self.clock
    }

    /// Writes the next event, if there is one.
    pub(crate) fn put(&mut self, alloc: Global, text: &mut String) -> Result<(), OutOfMemory>
        ensures node { self.new.0 ≡ self.old.0 }
        ensures rest { self.new.1 ≡ drop 1 self.old.1 }
        ensures text { OnOk result (string_bytes text.new ≡ string_bytes text.old ++ lines_of (map (λ (s : Stamped). s.event) (take 1 self.old.1))) }
    {
        let Some(stamped) = self.reader.next() else {
            return Ok(());
        };
        self.clock = self.reader.peek().map(|next| next.clock);
        self.lines.push(alloc, text, stamped.event)
    }
}
