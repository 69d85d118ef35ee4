// The plan, the trades and the events of a story, from their files.
ghost use Rattle.std.specs.Prelude.{◌≡◌, IfOk, false};

use crate::again::again;
use crate::fault::Fault;
use crate::listed::Listed;
use plan_reader::{Plan, read_plan};
use run_journal::{Lined, read_events};
use std::alloc::Global;
use std::fs;
use trade_text::{MAX_INPUTS, Trades, read_cash, read_trades};

/// A plan, its trades with their cash movements, and events.
#[derive(Drop)]
pub(crate) struct Inputs {
    pub(crate) plan: Plan,
    pub(crate) trades: Trades,
    pub(crate) events: Vec<Lined>,
}

/// The bytes of a file.
pub(crate) fn bytes_of(rt: &HostRuntime, name: &str) -> Result<Vec<u8>, Fault> {
    again(|| match fs::read(rt, name) {
        Ok(bytes) => Ok(bytes),
        Err(_) => Err(Fault::CannotRead),
    })
}

// The plan of a text.
fn plan_of(alloc: Global, text: &[u8]) -> Result<Plan, Fault> {
    match read_plan(alloc, text) {
        Ok(plan) => Ok(plan),
        Err(_) => Err(Fault::Form),
    }
}

// The trades of a text.
fn trades_of(alloc: Global, text: &[u8]) -> Result<Trades, Fault>
    ensures { IfOk result (λ trades. trades.merged ≡ false) }
{
    match read_trades(alloc, text) {
        Ok(trades) => Ok(trades),
        Err(_) => Err(Fault::Form),
    }
}

// The trades and the movements of two texts.
fn both_of(alloc: Global, trades: &[u8], cash: &[u8]) -> Result<Trades, Fault> {
    let mut trades = trades_of(alloc, trades)?;
    let room = (MAX_INPUTS - trades.rows().len()) as u32;
    let Ok(cash) = read_cash(alloc, cash, room) else {
        return Err(Fault::Form);
    };
    trades.merge_cash(&cash)?;
    Ok(trades)
}

// The trades of a story, with its movements where it has some.
fn all_trades(rt: &HostRuntime, alloc: Global, listed: &Listed<'_>) -> Result<Trades, Fault> {
    let trades = bytes_of(rt, listed.trades)?;
    let Some(cash) = listed.cash else {
        return again(|| trades_of(alloc, &trades));
    };
    let cash = bytes_of(rt, cash)?;
    again(|| both_of(alloc, &trades, &cash))
}

// The events of a text.
fn events_of(alloc: Global, text: &[u8], plan: &Plan) -> Result<Vec<Lined>, Fault> {
    match read_events(alloc, text, plan) {
        Ok(events) => Ok(events),
        Err(_) => Err(Fault::Form),
    }
}

// The events of a story: its file's first ones, as many as it says.
fn front_of(
    rt: &HostRuntime,
    alloc: Global,
    listed: &Listed<'_>,
    plan: &Plan,
) -> Result<Vec<Lined>, Fault> {
    let Some(name) = listed.events else {
        return Ok(Vec::new(alloc));
    };
    let text = bytes_of(rt, name)?;
    let mut events = again(|| events_of(alloc, &text, plan))?;
    if let Some(count) = listed.front {
        events.truncate(count as usize);
    }
    Ok(events)
}

/// The inputs of a story.
pub(crate) fn inputs_of(
    rt: &HostRuntime,
    alloc: Global,
    listed: &Listed<'_>,
) -> Result<Inputs, Fault> {
    let text = bytes_of(rt, listed.plan)?;
    let plan = again(|| plan_of(alloc, &text))?;
    let events = front_of(rt, alloc, listed, &plan)?;
    let trades = all_trades(rt, alloc, listed)?;
    Ok(Inputs {
        plan,
        trades,
        events,
    })
}
