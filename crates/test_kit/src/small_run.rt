// The run whose orders are tried.
ghost use Rattle.pair_machine.specs.Output.{output};
ghost use Rattle.std.specs.Prelude.{◌≡◌, IfOk};
ghost use Rattle.trade_text.specs.TradesView.{inputs_in};

use crate::plans::ONE;
use crate::story::told;
use plan_reader::Plan;
use std::alloc::Global;
use trade_text::Trades;
use tuple_edge::{OutOfMemory, Row};

const TRADES: &[u8] = b"time,account,symbol,side,qty,price
34200,7,A,B,1,1
34201,7,A,B,2,1
";

/// A plan of one stage of one partition, two trades, and the rows that they give.
#[derive(Drop)]
pub struct SmallRun {
    pub plan: Plan,
    pub trades: Trades,
    pub rows: Vec<Row>,
}

impl SmallRun {
    /// The one that is tried.
    pub fn new(alloc: Global) -> Result<SmallRun, OutOfMemory>
        ensures rows { IfOk result (λ run. run.rows.items ≡ output run.plan (inputs_in run.trades)) }
    {
        let story = told(alloc, ONE, TRADES, b"")?;
        Ok(SmallRun {
            plan: story.plan,
            trades: story.trades,
            rows: story.output,
        })
    }
}
