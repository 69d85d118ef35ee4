// What a run comes to.
ghost use Rattle.std.specs.Prelude.{◌≡◌, IfOk};
ghost use Rattle.run_journal.specs.Text.{events_text};

use event_log::{EventBlocks, Keeps, Log};
use flux_core::Core;
use journal_writer::write_logs;
use std::alloc::Global;
use std::marker::Model;
use tuple_edge::{Drained, OutOfMemory, Row};

/// A run that has ended.
///
/// Contracts see its rows, its events and how it ended. Where the events are written, it has a journal.
#[derive(Drop)]
pub struct Ended<K: Keeps = Log> {
    pub(crate) core: Core,
    // What happened on the threads, node by node: written, or as proofs alone know it.
    pub(crate) logs: Vec<K>,
    // What the drain did then.
    pub(crate) drain: EventBlocks,
    pub(crate) drained: Drained,
}

impl<K: Keeps> Model for Ended<K> {
    ghost use Rattle.drained_run.specs.Ended.{EndedView};
    ghost use Rattle.flux_core.specs.CoreView.{emitted_by};
    ghost use Rattle.journal_writer.specs.Merged.{AreMergeable, merged_events};
    ghost use Rattle.partition_runner.specs.Parts.{named_kept};
    ghost use Rattle.std.specs.Prelude.{◌++◌};

    ghost Value = { EndedView };

    ghost view = { λ e. record {
      rows = emitted_by e.core;
      events = merged_events (named_kept K.kept e.logs.items) ++ e.drain.events;
      drained = e.drained;
    } };

    ghost invariant = { λ e. AreMergeable (named_kept K.kept e.logs.items) };
}

impl<K: Keeps> Ended<K> {
    /// The rows that were emitted, in order.
    pub fn rows(&self) -> &[Row]
        ensures { result.now ≡ self.now.rows }
    {
        self.core.emitted()
    }

    /// How it ended: whole, or with the first lost pair.
    pub fn drained(&self) -> Drained
        ensures { result ≡ self.now.drained }
    {
        self.drained
    }
}

impl Ended<Log> {
    /// The journal: the canonical text of what happened at all nodes, in one order, on the threads and then in the
    /// drain. The order is made by this call, line by line, since only a journal needs it.
    pub fn journal(&self, alloc: Global) -> Result<Vec<u8>, OutOfMemory>
        ensures { IfOk result (λ text. text.items ≡ events_text self.now.events) }
    {
        write_logs(alloc, &self.logs, &self.drain)
    }
}
