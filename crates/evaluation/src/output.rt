// The output of a plan, stage by stage, without stamps: what answers a row comes from one partition, in order and with
// that row's stamp, so the answers row by row are in the merged order. Only those to the end need an order of their own.
ghost use Rattle.std.specs.Prelude.{◌≡◌, ◌↔◌, true, IfOk};
ghost use Rattle.trade_text.specs.TradesView.{inputs_in};
ghost use Rattle.pair_machine.specs.Output.{output};

use crate::stage::passed;
use plan_reader::Plan;
use std::alloc::Global;
use trade_text::Trades;
use tuple_edge::{OutOfMemory, Row};

/// The rows that a plan gives for trades, and for the cash movements that were merged with them. They are
/// merged for a plan of version 2, which has that source, and for no other.
pub fn evaluate(alloc: Global, plan: &Plan, trades: &Trades) -> Result<Vec<Row>, OutOfMemory>
    requires { (trades.now.merged ≡ true) ↔ (plan.now.version ≡ 2) }
    ensures { IfOk result (λ out. out.items ≡ output plan.now (inputs_in trades.now)) }
{
    let Some((first, later)) = plan.stages().split_first() else {
        // No plan is without a stage.
        return Ok(Vec::new(alloc));
    };
    let mut rows = passed(alloc, first, trades.rows(), &[])?;
    for stage in later {
        rows = passed(alloc, stage, &rows.early, &rows.late)?;
    }
    let mut out = rows.early;
    out.extend_from_slice(&rows.late)?;
    Ok(out)
}
