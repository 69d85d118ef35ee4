// The story of a run as JSON.
ghost use Rattle.flux_core.specs.CoreView.{flow_in, inputs_of};
ghost use Rattle.flux_core.specs.Stands.{StandsFor};
ghost use Rattle.look_json.specs.Lines.{line_of, word_or_null};
ghost use Rattle.look_json.specs.StoryJson.{end_data, end_word, how_data, lost_pair, never_data, order_lines, rows_data, story_json, unasked_line, unfired_line};
ghost use Rattle.pair_machine.specs.Machine.{State};
ghost use Rattle.run_end.specs.Ends.{end_in};
ghost use Rattle.run_watch.specs.Watching.{emitted_in};
ghost use Rattle.serde_json.specs.View.{view};
ghost use Rattle.std.specs.List.{flat_map};
ghost use Rattle.std.specs.Prelude.{◌≡◌, ◌++◌, IfOk, OnOk};

use crate::happening::push_told;
use crate::line::push_line;
use crate::parts::{name_of_node, pair_name};
use flux_core::Core;
use pair_machine::Order;
use run_end::{RunEnd, run_end};
use run_story::{has_fired, is_asked_back, order_word, takeovers};
use run_watch::{Told, WatchedRun};
use serde_json::{Value, json};
use std::alloc::Global;
use tuple_edge::{NodeId, OutOfMemory};

// What never happened to a replica, as a value.
fn never_value(alloc: Global, what: &str, node: NodeId, at: u64) -> Result<Value, OutOfMemory>
    ensures { IfOk result (λ value. view value ≡ never_data what.now node at) }
{
    let name = name_of_node(alloc, node)?;
    let value = json!(in alloc; {"at": at, "never": what, "node": name})?;
    Ok(value)
}

// Appends what never happened to a replica.
fn push_never(
    text: &mut Vec<u8>,
    alloc: Global,
    what: &str,
    node: NodeId,
    at: u64,
) -> Result<(), OutOfMemory>
    ensures { OnOk result (text.new.items ≡ text.old.items ++ line_of (never_data what.now node at)) }
{
    let value = never_value(alloc, what, node, at)?;
    push_line(text, alloc, &value)
}

// Appends an order that never fired.
fn push_unfired(
    text: &mut Vec<u8>,
    alloc: Global,
    order: &Order,
    fired: bool,
) -> Result<(), OutOfMemory>
    ensures { OnOk result (text.new.items ≡ text.old.items ++ unfired_line order.now fired) }
{
    if fired {
        return Ok(());
    }
    push_never(text, alloc, order_word(order.kill), order.node, order.at)
}

// Appends an order whose replica was never asked back.
fn push_unasked(
    text: &mut Vec<u8>,
    alloc: Global,
    node: NodeId,
    back: Option<u64>,
    asked: bool,
) -> Result<(), OutOfMemory>
    ensures { OnOk result (text.new.items ≡ text.old.items ++ unasked_line node back asked) }
{
    match back {
        Some(back) if !asked => push_never(text, alloc, "back", node, back),
        Some(_) | None => Ok(()),
    }
}

// Appends what of an order never happened.
fn push_order(
    text: &mut Vec<u8>,
    alloc: Global,
    told: &[Told],
    order: &Order,
) -> Result<(), OutOfMemory>
    ensures { OnOk result (text.new.items ≡ text.old.items ++ order_lines told.now order.now) }
{
    push_unfired(text, alloc, order, has_fired(told, order))?;
    let asked = is_asked_back(told, order.node);
    push_unasked(text, alloc, order.node, order.back, asked)
}

// Appends what of these orders never happened.
fn push_orders(
    text: &mut Vec<u8>,
    alloc: Global,
    told: &[Told],
    orders: &[Order],
) -> Result<(), OutOfMemory>
    ensures { OnOk result (text.new.items ≡ text.old.items ++ flat_map (order_lines told.now) orders.now) }
{
    for order in orders {
        push_order(text, alloc, told, order)?;
    }
    Ok(())
}

// How a run ends, in a word.
fn end_word(end: RunEnd) -> &'static str
    ensures { result.now ≡ end_word end }
{
    match end {
        RunEnd::Done => "done",
        RunEnd::Lost { .. } => "lost",
        RunEnd::NotDone => "not done",
    }
}

// The pair that is lost, as a value.
fn lost_value(alloc: Global, end: RunEnd) -> Result<Value, OutOfMemory>
    ensures { IfOk result (λ value. view value ≡ word_or_null (lost_pair end)) }
{
    match end {
        RunEnd::Lost { stage, part } => {
            let name = pair_name(alloc, stage, part)?;
            Ok(Value::from(name))
        }
        RunEnd::Done | RunEnd::NotDone => Ok(Value::Null),
    }
}

// How a run ends, as a value, and which pair is lost.
fn how_value(alloc: Global, end: RunEnd) -> Result<Value, OutOfMemory>
    ensures { IfOk result (λ value. view value ≡ how_data end) }
{
    let pair = lost_value(alloc, end)?;
    let value = json!(in alloc; {"how": end_word(end), "pair": &pair})?;
    Ok(value)
}

// Rows, as a value: all that the plan gives, and those that egress has emitted.
fn rows_value(alloc: Global, rows: u64, all: u64) -> Result<Value, OutOfMemory>
    ensures { IfOk result (λ value. view value ≡ rows_data rows all) }
{
    let value = json!(in alloc; {"all": all, "emitted": rows})?;
    Ok(value)
}

// How a run stands and ends, as a value.
fn end_value(
    alloc: Global,
    takeovers: usize,
    rows: u64,
    end: RunEnd,
    all: u64,
) -> Result<Value, OutOfMemory>
    ensures { IfOk result (λ value. view value ≡ end_data takeovers rows end all) }
{
    let how = how_value(alloc, end)?;
    let rows = rows_value(alloc, rows, all)?;
    let value = json!(in alloc; {"end": &how, "rows": &rows, "takeovers": takeovers})?;
    Ok(value)
}

// Appends how a run stands and ends.
#[tactic(auto, using(crate::proofs::Floats::end_has_none))]
fn push_end(
    text: &mut Vec<u8>,
    alloc: Global,
    takeovers: usize,
    rows: u64,
    end: RunEnd,
    all: u64,
) -> Result<(), OutOfMemory>
    ensures { OnOk result (text.new.items ≡ text.old.items ++ line_of (end_data takeovers rows end all)) }
{
    let value = end_value(alloc, takeovers, rows, end, all)?;
    push_line(text, alloc, &value)
}

/// The lines of what was told of a run, of the orders that never fired, and of how the run stands and ends, of whatever
/// state the core stands for, where the plan gives so many rows in all.
pub fn write_story_json(
    alloc: Global,
    orders: &[Order],
    watched: &WatchedRun,
    core: &Core,
    all: u64,
) -> Result<Vec<u8>, OutOfMemory>
    ensures { IfOk result (λ text. (s : State) → StandsFor core.now s → text.items
        ≡ story_json watched.now.told.items orders.now (emitted_in core.now.plan (inputs_of core.now) s) (end_in (flow_in core.now) s) all) }
{
    core.known();
    let rows = core.emitted().len() as u64;
    let end = run_end(core);
    let mut text = Vec::new(alloc);
    push_told(&mut text, alloc, &watched.told)?;
    push_orders(&mut text, alloc, &watched.told, orders)?;
    push_end(&mut text, alloc, takeovers(&watched.told), rows, end, all)?;
    Ok(text)
}
