// The whole text.
ghost use Rattle.flux_core.specs.CoreView.{flow_in, inputs_of};
ghost use Rattle.flux_core.specs.Stands.{StandsFor};
ghost use Rattle.pair_machine.specs.Machine.{State};
ghost use Rattle.run_end.specs.Ends.{end_in};
ghost use Rattle.run_story.specs.StoryText.{orders_in, story_text};
ghost use Rattle.run_watch.specs.Watching.{emitted_in};
ghost use Rattle.std.specs.Prelude.{◌≡◌, IfOk, option_map, string_bytes};

use crate::ends::{push_end, takeovers};
use crate::lines::push_told;
use crate::orders::push_orders;
use failure_script::Script;
use flux_core::Core;
use pair_machine::Order;
use run_end::{RunEnd, run_end};
use run_watch::{Told, WatchedRun};
use std::alloc::Global;
use tuple_edge::OutOfMemory;

// The text, of a run with these numbers at its end.
fn story_of(
    alloc: Global,
    told: &[Told],
    orders: &[Order],
    rows: u64,
    end: RunEnd,
    all: u64,
) -> Result<String, OutOfMemory>
    ensures { IfOk result (λ text. string_bytes text ≡ story_text told.now orders.now rows end all) }
{
    let mut text = String::new(alloc);
    text.push_str("story 2\n")?;
    push_told(&mut text, told)?;
    push_orders(&mut text, told, orders)?;
    push_end(&mut text, takeovers(told), rows, end, all)?;
    Ok(text)
}

// The same, with a script or with none.
fn scripted(
    alloc: Global,
    script: Option<&Script>,
    told: &[Told],
    rows: u64,
    end: RunEnd,
    all: u64,
) -> Result<String, OutOfMemory>
    ensures { IfOk result (λ text. string_bytes text ≡ story_text told.now (orders_in (option_map (λ script. script.now) script.entry)) rows end all) }
{
    match script {
        Some(script) => story_of(alloc, told, script.orders(), rows, end, all),
        None => story_of(alloc, told, &[], rows, end, all),
    }
}

/// The text of what was told of a run: a line for each happening, then the orders that never fired, and how the run
/// stands and ends, of whatever state the core stands for, where the plan gives so many rows in all.
pub fn write_story(
    alloc: Global,
    script: Option<&Script>,
    watched: &WatchedRun,
    core: &Core,
    all: u64,
) -> Result<Vec<u8>, OutOfMemory>
    ensures { IfOk result (λ text. (s : State) → StandsFor core.now s → text.items
        ≡ story_text watched.now.told.items (orders_in (option_map (λ script. script.now) script.entry))
        (emitted_in core.now.plan (inputs_of core.now) s) (end_in (flow_in core.now) s) all) }
{
    core.known();
    let rows = core.emitted().len() as u64;
    let end = run_end(core);
    let text = scripted(alloc, script, &watched.told, rows, end, all)?;
    Ok(text.into_bytes())
}
