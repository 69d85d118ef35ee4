// The command `trace`.
ghost use Rattle.command_course.specs.Feeds.{feed_of};
ghost use Rattle.command_course.specs.Steps.{GivesBy, OnlyReads, StopsBy};
ghost use Rattle.command_course.specs.Answers.{answer, answer_of};
ghost use Rattle.command_course.specs.declared.answer.Ending.TheVariants.{Done};
ghost use Rattle.std.specs.Prelude.{◌≡◌, IfErr, IfOk, false, option_map};
ghost use Rattle.trace_command.specs.Courses.{behind_plan, lined_way, place_in, trace_way, traced};
ghost use Rattle.trade_line.specs.Order.{spot_at};
ghost use Rattle.trade_text.specs.TradesView.{inputs_in};

use crate::lined::{LinedFile, LinedTrades};
use command_course::{Answer, Ending, Feed, Stop, input_at, movements_at, plan_at};
use flux_outside::Files;
use plan_reader::Plan;
use reach_finder::passages;
use reach_text::{Question, write_trace};
use std::alloc::Global;
use trade_line::{Spot, place_among, spot_at};
use trade_text::Trades;

/// What `trace` writes: what became of the trade that stands in a line of a file of trades.
#[tactic(auto, using(crate::proofs::Ways::reads_on, crate::proofs::Ways::reads_passed, crate::proofs::Ways::reads_then))]
pub fn trace_report<F: Files>(
    alloc: Global,
    files: &mut F,
    plan: &str,
    trades: &str,
    line: u64,
    cash: Option<&str>,
) -> Result<Answer, Stop>
    ensures gives { IfOk result (λ answer. GivesBy (F.told files.old) (F.told files.new) (trace_way plan.now trades.now line (option_map (λ name. name.now) cash.entry)) (answer_of answer)) }
    ensures stops { IfErr result (λ stop. StopsBy (F.told files.old) (F.told files.new) (trace_way plan.now trades.now line (option_map (λ name. name.now) cash.entry)) stop) }
    ensures reads { OnlyReads (F.told files.old) (F.told files.new) result }
{
    let plan = plan_at(alloc, files, plan, cash)?;
    lined_report(alloc, files, plan, trades, line, cash)
}

// The same behind the plan.
#[tactic(auto, using(crate::proofs::Ways::reads_on, crate::proofs::Ways::reads_passed, crate::proofs::Ways::reads_then))]
fn lined_report<F: Files>(
    alloc: Global,
    files: &mut F,
    plan: Plan,
    trades: &str,
    line: u64,
    cash: Option<&str>,
) -> Result<Answer, Stop>
    ensures gives { IfOk result (λ answer. GivesBy (F.told files.old) (F.told files.new) (behind_plan trades.now line (option_map (λ name. name.now) cash.entry) plan) (answer_of answer)) }
    ensures stops { IfErr result (λ stop. StopsBy (F.told files.old) (F.told files.new) (behind_plan trades.now line (option_map (λ name. name.now) cash.entry) plan) stop) }
    ensures reads { OnlyReads (F.told files.old) (F.told files.new) result }
{
    let lined = input_at(alloc, files, trades, &LinedFile { line })?;
    fed_report(alloc, files, plan, trades, line, lined, cash)
}

// The same behind the trades.
#[tactic(auto, using(crate::proofs::Ways::reads_on, crate::proofs::Ways::reads_passed, crate::proofs::Ways::reads_then))]
fn fed_report<F: Files>(
    alloc: Global,
    files: &mut F,
    plan: Plan,
    name: &str,
    line: u64,
    lined: LinedTrades,
    cash: Option<&str>,
) -> Result<Answer, Stop>
    requires { lined.trades.merged ≡ false }
    ensures gives { IfOk result (λ answer. GivesBy (F.told files.old) (F.told files.new) (lined_way name.now line (option_map (λ name. name.now) cash.entry) plan lined) (answer_of answer)) }
    ensures stops { IfErr result (λ stop. StopsBy (F.told files.old) (F.told files.new) (lined_way name.now line (option_map (λ name. name.now) cash.entry) plan lined) stop) }
    ensures reads { OnlyReads (F.told files.old) (F.told files.new) result }
{
    let spot = spot_at(lined.trades.rows(), lined.place);
    let feed = movements_at(alloc, files, plan, lined.trades, cash)?;
    traced(alloc, name, line, &spot, &feed)
}

// Where a trade stands among the inputs.
fn place_in(spot: &Option<Spot>, inputs: &Trades) -> usize
    ensures { result ≡ place_in spot.now (inputs_in inputs.now) }
{
    match spot {
        None => inputs.rows().len(),
        Some(spot) => place_among(inputs, spot),
    }
}

// What became of the trade, where want of memory is why the command stops.
fn traced(
    alloc: Global,
    name: &str,
    line: u64,
    spot: &Option<Spot>,
    feed: &Feed,
) -> Result<Answer, Stop>
    ensures answer { IfOk result (λ it. answer_of it ≡ answer Done (traced name.now line spot.now (feed_of feed.now))) }
    ensures want { IfErr result (λ stop. stop ≡ Stop.OutOfMemory) }
{
    let place = place_in(spot, &feed.trades);
    let found = passages(alloc, &feed.plan, &feed.trades, place)?;
    let stages = feed.plan.stages();
    let question = Question {
        line,
        file: name,
        stages,
        inputs: &feed.trades,
    };
    let text = write_trace(alloc, &question, found.as_slice())?;
    Ok(Answer {
        text,
        ending: Ending::Done,
        saved: None,
    })
}
