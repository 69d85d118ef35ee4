// The canonical text of what was read.
use crate::buckets::{TWO_PARTS, plan_by_key};
use crate::fixture::{events, script, two};
use bucket_move::{Shift, read_moves};
use failure_script::Order;
use plan_reader::{read_plan, write_plan};
use run_journal::{read_events, write_events};
use std::alloc::Global;
use std::process::Abort;
use std::test::Fail;
use test_kit::TWO;
use tuple_edge::{NodeId, Which};

/// What a text is.
#[derive(Clone, Copy)]
pub(crate) enum Kind {
    Plan,
    Script,
    Events,
    Moves,
}

fn plan_text(alloc: Global, text: &[u8]) -> Result<Vec<u8>, Fail> {
    let plan = read_plan(alloc, text)?;
    Ok(write_plan(alloc, &plan)?)
}

// Appends the replica of an order.
fn push_replica(text: &mut String, node: NodeId) -> Result<(), Fail> {
    match node {
        NodeId::Replica { stage, part, which } => {
            let name = if which == Which::A { "a" } else { "b" };
            write!(text, "{stage}.{part}.{name}")?;
        }
        _ => text.push_str("no replica")?,
    }
    Ok(())
}

// Appends when the replica of an order comes back.
fn push_back(text: &mut String, back: Option<u64>) -> Result<(), Fail> {
    match back {
        None => text.push_str("never\n")?,
        Some(back) => write!(text, "{back}\n")?,
    }
    Ok(())
}

// Appends an order as a line of a script.
fn push_order(text: &mut String, order: &Order) -> Result<(), Fail> {
    text.push_str(if order.kill { "kill " } else { "stop " })?;
    push_replica(text, order.node)?;
    let at = order.at;
    write!(text, " at {at} back ")?;
    push_back(text, order.back)
}

fn script_text(alloc: Global, text: &[u8]) -> Result<Vec<u8>, Fail> {
    let script = script(alloc, TWO, text)?;
    let mut text = String::new(alloc);
    for order in script.orders() {
        push_order(&mut text, order)?;
    }
    Ok(text.into_bytes())
}

fn events_text(alloc: Global, text: &[u8]) -> Result<Vec<u8>, Fail> {
    let lined = read_events(alloc, text, &two(alloc)?)?;
    Ok(write_events(alloc, &events(alloc, &lined)?)?)
}

// Appends a move: its stamp, its bucket and its partition.
fn push_shift(text: &mut String, shift: &Shift) -> Result<(), Fail> {
    let (at, bucket, to) = (shift.at, shift.bucket, shift.to);
    write!(text, "{at} {bucket} {to}\n")?;
    Ok(())
}

fn moves_text(rt: &impl Abort, alloc: Global, text: &[u8]) -> Result<Vec<u8>, Fail> {
    let plan = plan_by_key(rt, alloc, TWO_PARTS)?;
    let moves = read_moves(alloc, text, &plan)?;
    let mut text = String::new(alloc);
    for shift in moves.list() {
        push_shift(&mut text, shift)?;
    }
    Ok(text.into_bytes())
}

/// The canonical text of what a text says.
pub(crate) fn canonical(
    rt: &impl Abort,
    alloc: Global,
    kind: Kind,
    text: &[u8],
) -> Result<Vec<u8>, Fail> {
    match kind {
        Kind::Plan => plan_text(alloc, text),
        Kind::Script => script_text(alloc, text),
        Kind::Events => events_text(alloc, text),
        Kind::Moves => moves_text(rt, alloc, text),
    }
}
