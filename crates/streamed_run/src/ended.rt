// What a run comes to whose inputs came while it went on.
ghost use Rattle.std.specs.Prelude.{◌≡◌, ◌++◌};

use event_log::EventBlocks;
use flux_core::{Core, HeldRows};
use partition_runner::Unwritten;
use std::marker::Model;
use tuple_edge::{Drained, Input, Row};

/// A run that has ended, to which inputs came while it went on.
///
/// Contracts see what came, how the run ended, and the rows that were handed on while it went on.
#[derive(Drop)]
pub struct StreamEnded {
    pub(crate) core: Core<HeldRows>,
    // What happened on the threads, node by node. Proofs alone know it.
    pub(crate) logs: Vec<Unwritten>,
    // What the drain did then.
    pub(crate) drain: EventBlocks,
    pub(crate) drained: Drained,
    // The input that the source gave last, where ingress found no memory for it.
    pub(crate) held: Option<Input>,
    // Whether ingress was told by the source that no more come.
    pub(crate) told: bool,
}

impl Model for StreamEnded {
    ghost use Rattle.event_log.specs.Views.{named_logs};
    ghost use Rattle.flux_core.specs.CoreView.{emitted_by, gone_by, inputs_of};
    ghost use Rattle.journal_writer.specs.Merged.{merged_events};
    ghost use Rattle.std.specs.Prelude.{◌++◌};
    ghost use Rattle.streamed_run.specs.Streamed.{StreamView};

    ghost Value = { StreamView };

    ghost view = { λ e. record {
      came = record { inputs = inputs_of e.core; ended = e.told; held = e.held };
      run = record {
        rows = emitted_by e.core;
        events = merged_events (named_logs e.logs.items) ++ e.drain.events;
        drained = e.drained;
      };
      gone = gone_by e.core;
    } };
}

impl StreamEnded {
    /// The rows that were emitted and not handed on, in order.
    pub fn held(&self) -> &[Row]
        ensures { self.now.gone ++ result.now ≡ self.now.run.rows }
    {
        self.core.held()
    }

    /// How it ended: whole, or with the first lost pair.
    pub fn drained(&self) -> Drained
        ensures { result ≡ self.now.run.drained }
    {
        self.drained
    }

    /// Whether ingress had been told by the source that no more inputs come, so that those that came are all.
    pub fn input_ended(&self) -> bool
        ensures { result ≡ self.now.came.ended }
    {
        self.told
    }
}
