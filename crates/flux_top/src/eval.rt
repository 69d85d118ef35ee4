// The command `eval`: the output of a plan, on one thread.
ghost use Rattle.std.specs.Prelude.{◌≡◌, IfErr, IfOk, option_map};
ghost use Rattle.pair_machine.specs.Output.{output};
ghost use Rattle.trade_text.specs.Text.{text};
ghost use Rattle.trade_text.specs.TradesView.{inputs_in};
ghost use Rattle.command_course.specs.Course.{Came, Writes};
ghost use Rattle.command_course.specs.Feeds.{IsFed};
ghost use Rattle.command_course.specs.Steps.{OnlyReads, StopsOf};
ghost use Rattle.flux_top.specs.Outcome.{eval_course};

use command_course::{Feed, Stop, feed_at};
use evaluation::evaluate;
use flux_outside::Files;
use std::alloc::Global;
use trade_text::write_output;
use tuple_edge::OutOfMemory;

/// The text that `eval` writes.
#[tactic(auto, using(crate::proofs::Courses::reads_passed, crate::proofs::Courses::reads_then))]
pub(crate) fn eval_text<F: Files>(
    alloc: Global,
    files: &mut F,
    plan: &str,
    trades: &str,
    cash: Option<&str>,
) -> Result<Vec<u8>, Stop>
    ensures comes { IfOk result (λ bytes. Came (F.told files.old) (F.told files.new) (eval_course plan.now trades.now (option_map (λ name. name.now) cash.entry)) (Writes bytes.items)) }
    ensures stops { IfErr result (λ stop. StopsOf (F.told files.old) (F.told files.new) (eval_course plan.now trades.now (option_map (λ name. name.now) cash.entry)) stop) }
    ensures reads { OnlyReads (F.told files.old) (F.told files.new) result }
{
    let feed = feed_at(alloc, files, plan, trades, cash)?;
    written(alloc, &feed)
}

// The text of the output of a plan.
fn output_text(alloc: Global, feed: &Feed) -> Result<Vec<u8>, OutOfMemory>
    requires { IsFed feed.now }
    ensures { IfOk result (λ bytes. bytes.items ≡ text feed.now.trades.symbols (output feed.now.plan (inputs_in feed.now.trades))) }
{
    let rows = evaluate(alloc, &feed.plan, &feed.trades)?;
    write_output(alloc, &rows, &feed.trades, true)
}

// The same, where want of memory is why the command stops.
fn written(alloc: Global, feed: &Feed) -> Result<Vec<u8>, Stop>
    requires { IsFed feed.now }
    ensures text { IfOk result (λ bytes. bytes.items ≡ text feed.now.trades.symbols (output feed.now.plan (inputs_in feed.now.trades))) }
    ensures want { IfErr result (λ stop. stop ≡ Stop.OutOfMemory) }
{
    let text = output_text(alloc, feed)?;
    Ok(text)
}
