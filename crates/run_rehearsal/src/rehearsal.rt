// The whole text.
ghost use Rattle.flux_core.specs.Stands.{StandsFor};
ghost use Rattle.pair_machine.specs.Machine.{State};
ghost use Rattle.run_rehearsal.specs.Merged.{merged_in, merged_seen};
ghost use Rattle.run_rehearsal.specs.RehearsalText.{rehearsal_text};
ghost use Rattle.std.specs.Prelude.{◌≡◌, IfOk, string_bytes};

use crate::ends::push_end;
use crate::fates::count_obeyed;
use crate::follows::push_follows;
use crate::orders::push_orders;
use flux_core::Core;
use pair_machine::Order;
use run_end::RunEnd;
use run_watch::Told;
use std::alloc::Global;
use tuple_edge::OutOfMemory;

// The text, by what a core holds at the end.
fn text_of(
    alloc: Global,
    told: &[Told],
    orders: &[Order],
    core: &Core,
    rows: u64,
    end: RunEnd,
    all: u64,
) -> Result<String, OutOfMemory>
    ensures { IfOk result (λ text. string_bytes text ≡ rehearsal_text told.now orders.now (merged_seen core.now) rows end all) }
{
    let mut text = String::new(alloc);
    text.push_str("rehearsal 1\n")?;
    push_orders(&mut text, told, core, orders)?;
    push_follows(&mut text, told)?;
    push_end(
        &mut text,
        count_obeyed(told, orders),
        orders.len(),
        rows,
        end,
        all,
    )?;
    Ok(text)
}

/// The text of a run under these orders, of which this was told, and which ended so with so many rows of all that the
/// plan gives: what became of each order, how each takeover and each catch-up went, and how the run ended, of whatever
/// state the core stands for.
pub fn write_rehearsal(
    alloc: Global,
    told: &[Told],
    orders: &[Order],
    core: &Core,
    rows: u64,
    end: RunEnd,
    all: u64,
) -> Result<Vec<u8>, OutOfMemory>
    ensures { IfOk result (λ text. (s : State) → StandsFor core.now s → text.items
        ≡ rehearsal_text told.now orders.now (merged_in core.now.plan s) rows end all) }
{
    let text = text_of(alloc, told, orders, core, rows, end, all)?;
    Ok(text.into_bytes())
}
