// Plans with their trades and scripts.
ghost use Rattle.pair_machine.specs.Output.{output};
ghost use Rattle.std.specs.Prelude.{◌≡◌, ◌≤◌, ◌<◌, IfOk};
ghost use Rattle.trade_text.specs.Limits.{max_inputs};
ghost use Rattle.trade_text.specs.TradesView.{inputs_in};

use evaluation::evaluate;
use failure_script::{Script, read_script};
use plan_reader::{Plan, read_plan};
use std::alloc::Global;
use trade_maker::make_trades;
use trade_text::{Trades, read_trades};
use tuple_edge::{OutOfMemory, Row};

/// A plan with its trades, a script, and the rows that the plan gives.
#[derive(Drop)]
pub struct Story {
    pub plan: Plan,
    pub trades: Trades,
    pub script: Script,
    pub output: Vec<Row>,
}

/// The story of these three texts, where the plan is of version 1; a text that is refused is taken as want of memory.
pub fn told(alloc: Global, plan: &[u8], trades: &[u8], script: &[u8]) -> Result<Story, OutOfMemory>
    ensures output { IfOk result (λ story. story.output.items ≡ output story.plan (inputs_in story.trades)) }
{
    let Ok(plan) = read_plan(alloc, plan) else {
        return Err(OutOfMemory);
    };
    let Ok(trades) = read_trades(alloc, trades) else {
        return Err(OutOfMemory);
    };
    let Ok(script) = read_script(alloc, script, &plan) else {
        return Err(OutOfMemory);
    };
    if plan.version() != 1 {
        return Err(OutOfMemory);
    }
    let output = evaluate(alloc, &plan, &trades)?;
    Ok(Story {
        plan,
        trades,
        script,
        output,
    })
}

/// The story of a plan and a script over so many trades that are made from a number.
pub fn made(
    alloc: Global,
    plan: &[u8],
    start: u32,
    count: u32,
    script: &[u8],
) -> Result<Story, OutOfMemory>
    requires start { start < 100 }
    requires count { count ≤ max_inputs }
    ensures output { IfOk result (λ story. story.output.items ≡ output story.plan (inputs_in story.trades)) }
{
    let trades = make_trades(alloc, start, count)?;
    told(alloc, plan, &trades, script)
}
