// The longest texts that are read, and the first ones that are too long, handed in at once.
ghost use Rattle.std.specs.Prelude.{IsTrue};
ghost use Rattle.bucket_move.specs.ByKey.{is_by_key};

use crate::buckets::{TWO_PARTS, plan_by_key};
use crate::fixture::two;
use bucket_move::{MAX_MOVES_BYTES, MovesError, read_moves};
use failure_script::{MAX_SCRIPT_BYTES, ScriptError, read_script};
use plan_reader::{MAX_PLAN_BYTES, Plan, PlanError, read_plan};
use run_journal::{EventsError, MAX_EVENTS, read_events};
use std::alloc::Global;
use std::test::Fail;
use trade_text::{MAX_INPUT_BYTES, TradeError, read_trades};

// How many bytes a plan is said to have that is refused as too long.
fn long_plan(alloc: Global, text: &[u8]) -> Option<u64> {
    match read_plan(alloc, text) {
        Err(PlanError::TooLong { bytes }) => Some(bytes),
        _ => None,
    }
}

// The same of trades, a script and moves.
fn long_trades(alloc: Global, text: &[u8]) -> Option<u64> {
    match read_trades(alloc, text) {
        Err(TradeError::TooLong { bytes }) => Some(bytes),
        _ => None,
    }
}

fn long_script(alloc: Global, plan: &Plan, text: &[u8]) -> Option<u64> {
    match read_script(alloc, text, plan) {
        Err(ScriptError::TooLong { bytes }) => Some(bytes),
        _ => None,
    }
}

fn long_moves(alloc: Global, plan: &Plan, text: &[u8]) -> Option<u64>
    requires { IsTrue (is_by_key plan.now) }
{
    match read_moves(alloc, text, plan) {
        Err(MovesError::TooLong { bytes }) => Some(bytes),
        _ => None,
    }
}

// So many bytes of a comment, and one more.
fn at_the_limit(alloc: Global, bytes: usize) -> Result<(Vec<u8>, Vec<u8>), Fail> {
    let most = vec![in alloc; b'#'; bytes]?;
    let mut more = most.clone()?;
    more.push(b'#')?;
    Ok((most, more))
}

#[test]
fn refuses_the_first_byte_too_many_of_a_plan(rt: HostRuntime) -> Result<(), Fail> {
    let (most, more) = at_the_limit(rt.alloc(), 65_536)?;
    assert!(rt; MAX_PLAN_BYTES == 65_536);
    assert!(rt; long_plan(rt.alloc(), &most).is_none());
    assert!(rt; long_plan(rt.alloc(), &more) == Some(65_537));
    Ok(())
}

#[test]
fn refuses_the_first_byte_too_many_of_trades(rt: HostRuntime) -> Result<(), Fail> {
    let (most, more) = at_the_limit(rt.alloc(), 16_777_216)?;
    assert!(rt; MAX_INPUT_BYTES == 16_777_216);
    assert!(rt; long_trades(rt.alloc(), &most).is_none());
    assert!(rt; long_trades(rt.alloc(), &more) == Some(16_777_217));
    Ok(())
}

#[test]
fn refuses_the_first_byte_too_many_of_a_script(rt: HostRuntime) -> Result<(), Fail> {
    let (most, more) = at_the_limit(rt.alloc(), 65_536)?;
    let plan = two(rt.alloc())?;
    assert!(rt; MAX_SCRIPT_BYTES == 65_536);
    assert!(rt; long_script(rt.alloc(), &plan, &most).is_none());
    assert!(rt; long_script(rt.alloc(), &plan, &more) == Some(65_537));
    Ok(())
}

#[test]
fn refuses_the_first_byte_too_many_of_moves(rt: HostRuntime) -> Result<(), Fail> {
    let (most, more) = at_the_limit(rt.alloc(), 65_536)?;
    let plan = plan_by_key(&rt, rt.alloc(), TWO_PARTS)?;
    assert!(rt; MAX_MOVES_BYTES == 65_536);
    assert!(rt; long_moves(rt.alloc(), &plan, &most).is_none());
    assert!(rt; long_moves(rt.alloc(), &plan, &more) == Some(65_537));
    Ok(())
}

// A make, and 20,000,000 more.
fn too_many_makes(alloc: Global) -> Result<String, Fail> {
    let mut text = String::from_str(alloc, "events 1\nmake\n")?;
    for _line in 0..20 {
        text.push_str("make 1000000\n")?;
    }
    Ok(text)
}

// There may be 20,000,000 events, and the line that says one more is refused before its events are made.
#[test]
fn refuses_too_many_events(rt: HostRuntime) -> Result<(), Fail> {
    let text = too_many_makes(rt.alloc())?;
    let plan = two(rt.alloc())?;
    let error = read_events(rt.alloc(), text.as_bytes(), &plan).err();
    assert!(rt; MAX_EVENTS == 20_000_000);
    assert!(rt; error == Some(EventsError::TooMany));
    Ok(())
}
