// The warnings of orders to whose counts replicas don't come in time.
ghost use Rattle.std.specs.Prelude.{◌≡◌, ◌++◌, ◌↔◌, flat_map, true, false, IfOk, IfSome, OnOk, option_map};
ghost use Rattle.trade_check.specs.Counts.{back_warnings, both_inputs, count_warnings, items_at, items_of, known_inputs, order_warnings, orders_warnings, script_warnings};
ghost use Rattle.trade_text.specs.TradesView.{inputs_in};

use crate::GivenTrades;
use crate::warning::CountWarning;
use failure_script::Script;
use item_counts::items_merged;
use node_tasks::PORTION_UNDER_ORDERS;
use pair_machine::Order;
use plan_reader::Plan;
use std::alloc::Global;
use trade_text::{Cash, MAX_INPUTS, Trades};
use tuple_edge::{NodeId, OutOfMemory};

// Trades with the movements that are given, where a plan takes so many.
fn with_movements(mut trades: Trades, cash: Option<&Cash>) -> Result<Option<Trades>, OutOfMemory>
    requires { trades.merged ≡ false }
    ensures inputs { IfOk result (λ known. option_map inputs_in known ≡ both_inputs trades.rows (option_map (λ c. c.now) cash.entry)) }
    ensures merged { IfOk result (λ known. IfSome known (λ it. it.merged ≡ true)) }
{
    let Some(cash) = cash else {
        return Ok(None);
    };
    if trades.rows().len() + cash.rows().len() > MAX_INPUTS {
        return Ok(None);
    }
    trades.merge_cash(cash)?;
    Ok(Some(trades))
}

// The inputs of a plan, where all of them are known.
fn known_inputs(
    plan: &Plan,
    trades: Trades,
    cash: Option<&Cash>,
) -> Result<Option<Trades>, OutOfMemory>
    requires { trades.merged ≡ false }
    ensures inputs { IfOk result (λ known. option_map inputs_in known ≡ known_inputs plan.now trades (option_map (λ c. c.now) cash.entry)) }
    ensures merged { IfOk result (λ known. IfSome known (λ it. (it.merged ≡ true) ↔ (plan.now.version ≡ 2))) }
{
    if plan.version() == 1 {
        return Ok(Some(trades));
    }
    with_movements(trades, cash)
}

// How many items each replica of a partition merges.
fn items_at(
    alloc: Global,
    plan: &Plan,
    inputs: &Trades,
    stage: u32,
    part: u32,
) -> Result<u64, OutOfMemory>
    requires { (inputs.now.merged ≡ true) ↔ (plan.now.version ≡ 2) }
    ensures { IfOk result (λ items. items ≡ items_at plan.now (inputs_in inputs.now) stage part) }
{
    if 0 < stage && stage as usize <= plan.stages().len() {
        return items_merged(alloc, plan, inputs, stage as usize, part);
    }
    Ok(0)
}

// The same of a node.
fn items_of(alloc: Global, plan: &Plan, inputs: &Trades, node: NodeId) -> Result<u64, OutOfMemory>
    requires { (inputs.now.merged ≡ true) ↔ (plan.now.version ≡ 2) }
    ensures { IfOk result (λ items. items ≡ items_of plan.now (inputs_in inputs.now) node) }
{
    match node {
        NodeId::Replica { stage, part, .. } => items_at(alloc, plan, inputs, stage, part),
        NodeId::Ingress | NodeId::Control { .. } | NodeId::Egress => Ok(0),
    }
}

// Appends the warning of a count, where a replica that merges so many items doesn't come to it in time.
fn push_count(
    warnings: &mut Vec<CountWarning>,
    order: &Order,
    replica: NodeId,
    count: u64,
    items: u64,
) -> Result<(), OutOfMemory>
    ensures { OnOk result (warnings.new.items ≡ warnings.old.items ++ count_warnings order.now replica count items) }
{
    if items.saturating_sub(count) < PORTION_UNDER_ORDERS {
        warnings.push(CountWarning {
            order: *order,
            replica,
            count,
            items,
        })?;
    }
    Ok(())
}

// Appends that of the count at which an order's replica is asked back.
fn push_back(warnings: &mut Vec<CountWarning>, order: &Order, items: u64) -> Result<(), OutOfMemory>
    ensures { OnOk result (warnings.new.items ≡ warnings.old.items ++ back_warnings order.now order.now.back items) }
{
    match order.back {
        None => Ok(()),
        Some(back) => push_count(warnings, order, order.node.partner(), back, items),
    }
}

// Appends those of an order.
fn push_order(
    warnings: &mut Vec<CountWarning>,
    order: &Order,
    items: u64,
) -> Result<(), OutOfMemory>
    ensures { OnOk result (warnings.new.items ≡ warnings.old.items ++ order_warnings order.now items) }
{
    push_count(warnings, order, order.node, order.at, items)?;
    if items < order.at {
        return Ok(());
    }
    push_back(warnings, order, items)
}

// Appends those of all orders.
fn push_orders(
    warnings: &mut Vec<CountWarning>,
    alloc: Global,
    plan: &Plan,
    inputs: &Trades,
    orders: &[Order],
) -> Result<(), OutOfMemory>
    requires { (inputs.now.merged ≡ true) ↔ (plan.now.version ≡ 2) }
    ensures { OnOk result (warnings.new.items ≡ warnings.old.items ++ flat_map (λ o. order_warnings o (items_of plan.now (inputs_in inputs.now) o.node)) orders.now) }
{
    for order in orders {
        let items = items_of(alloc, plan, inputs, order.node)?;
        push_order(warnings, order, items)?;
    }
    Ok(())
}

// The warnings of orders, where the inputs are known.
fn orders_warnings(
    alloc: Global,
    plan: &Plan,
    trades: Trades,
    cash: Option<&Cash>,
    orders: &[Order],
) -> Result<Vec<CountWarning>, OutOfMemory>
    requires { trades.merged ≡ false }
    ensures { IfOk result (λ warnings. warnings.items ≡ orders_warnings plan.now (known_inputs plan.now trades (option_map (λ c. c.now) cash.entry)) orders.now) }
{
    let mut warnings = Vec::new(alloc);
    if let Some(inputs) = known_inputs(plan, trades, cash)? {
        push_orders(&mut warnings, alloc, plan, &inputs, orders)?;
    }
    Ok(warnings)
}

/// The warnings of the counts of a script, where trades and a script are given.
pub(crate) fn script_warnings(
    alloc: Global,
    plan: &Plan,
    given: Option<GivenTrades>,
    cash: Option<&Cash>,
    script: Option<&Script>,
) -> Result<Vec<CountWarning>, OutOfMemory>
    ensures { IfOk result (λ warnings. warnings.items ≡ script_warnings plan.now given (option_map (λ c. c.now) cash.entry) (option_map (λ s. s.now) script.entry)) }
{
    match (given, script) {
        (Some(given), Some(script)) => {
            orders_warnings(alloc, plan, given.into_trades(), cash, script.orders())
        }
        _ => Ok(Vec::new(alloc)),
    }
}
