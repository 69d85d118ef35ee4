// How a rehearsal ends.
ghost use Rattle.pair_machine.specs.Output.{output};
ghost use Rattle.rehearse_command.specs.Rehearsals.{end_of, ending_after, rows_in_all};
ghost use Rattle.command_course.specs.Feeds.{IsFed};
ghost use Rattle.std.specs.Prelude.{◌≡◌, IfOk};
ghost use Rattle.trade_text.specs.TradesView.{inputs_in};
ghost use Rattle.tuple_edge.specs.declared.event.Drained.TheVariants as drained;

use command_course::{Ending, Feed};
use evaluation::evaluate;
use listed_run::Listed;
use run_end::RunEnd;
use std::alloc::Global;
use tuple_edge::{Drained, OutOfMemory};

/// How a run stands that ended so.
pub(crate) fn end_of(drained: Drained) -> RunEnd
    ensures { result ≡ end_of drained }
{
    match drained {
        Drained::Whole => RunEnd::Done,
        Drained::Lost { stage, part } => RunEnd::Lost { stage, part },
    }
}

/// How the program ends: a lost pair comes first, and then whether every order was obeyed.
pub(crate) fn ending_after(obeyed: bool, drained: Drained) -> Ending
    ensures { result ≡ ending_after obeyed drained }
{
    match drained {
        Drained::Whole => { if obeyed { Ending::Done } else { Ending::Warned } }
        Drained::Lost { stage, part } => Ending::Lost { stage, part },
    }
}

/// How many rows the plan gives: those of a run that is whole. Where a pair is lost, all are computed.
pub(crate) fn rows_in_all(alloc: Global, feed: &Feed, listed: &Listed) -> Result<u64, OutOfMemory>
    requires fed { IsFed feed.now }
    requires whole { listed.now.drained ≡ drained.Whole → listed.now.rows.items ≡ output feed.now.plan (inputs_in feed.now.trades) }
    ensures { IfOk result (λ all. all ≡ rows_in_all feed.now.plan (inputs_in feed.now.trades)) }
{
    match listed.drained {
        Drained::Whole => Ok(listed.rows.len() as u64),
        Drained::Lost { .. } => {
            let rows = evaluate(alloc, &feed.plan, &feed.trades)?;
            Ok(rows.len() as u64)
        }
    }
}
