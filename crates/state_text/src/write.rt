// The text of the state that a core stands for.
ghost use Rattle.flux_core.specs.CoreView.{emitted_by, flow_in};
ghost use Rattle.flux_core.specs.Stands.{StandsFor};
ghost use Rattle.pair_machine.specs.Machine.{State, egress_in, ingress_in};
ghost use Rattle.state_text.specs.StateText.{egress_text, ingress_text, state_lines, state_text};
ghost use Rattle.std.specs.Prelude.{◌≡◌, ◌++◌, IfOk, OnOk, codes, string_bytes};
ghost use Rattle.tuple_edge.specs.declared.node.NodeId.TheVariants as node;

use crate::ends::{push_egress, push_ingress};
use crate::links::push_links;
use crate::pairs::push_pairs;
use crate::rows::push_rows;
use flux_core::Core;
use std::alloc::Global;
use trade_text::Trades;
use tuple_edge::OutOfMemory;

// The bytes for which there is room at first, without those of the rows.
const FIRST_BYTES: usize = 16_384;

// Appends the lines of a core's ingress.
fn push_ingress_of(text: &mut String, alloc: Global, core: &Core) -> Result<(), OutOfMemory>
    ensures { OnOk result ((s : State) → StandsFor core.now s
        → string_bytes text.new ≡ string_bytes text.old ++ ingress_text (flow_in core.now) (ingress_in (s.nodes node.Ingress))) }
{
    core.known();
    push_ingress(text, alloc, core.ingress())?;
    Ok(())
}

// Appends the lines of a core's egress.
fn push_egress_of(text: &mut String, core: &Core) -> Result<(), OutOfMemory>
    ensures { OnOk result ((s : State) → StandsFor core.now s
        → string_bytes text.new ≡ string_bytes text.old ++ egress_text (flow_in core.now) (egress_in (s.nodes node.Egress))) }
{
    core.known();
    let egress = core.egress();
    // Asked only for what its contract says: when the end was merged, by the machine's numbers.
    let _done = egress.done();
    push_egress(text, egress)?;
    Ok(())
}

// The first line.
fn first_line(alloc: Global) -> Result<String, OutOfMemory>
    ensures { IfOk result (λ text. string_bytes text ≡ codes "state 1\n") }
{
    let mut text = String::with_capacity(alloc, FIRST_BYTES)?;
    text.push_str("state 1\n")?;
    Ok(text)
}

// The lines of all nodes and links.
fn lines_of(core: &Core, alloc: Global) -> Result<String, OutOfMemory>
    ensures { IfOk result (λ text. (s : State) → StandsFor core.now s → string_bytes text ≡ state_lines (flow_in core.now) s) }
{
    let mut text = first_line(alloc)?;
    push_ingress_of(&mut text, alloc, core)?;
    push_pairs(&mut text, alloc, core)?;
    push_egress_of(&mut text, core)?;
    push_links(&mut text, alloc, core)?;
    Ok(text)
}

/// The text of the state that a core stands for: a line for what each node has and for each of its edges, how many
/// packets each link has, and the rows that egress has emitted, with their symbols by the names that the trades give
/// them. Its room is made a few times, and none for a line.
pub fn write_state(core: &Core, alloc: Global, trades: &Trades) -> Result<Vec<u8>, OutOfMemory>
    ensures { IfOk result (λ text. (s : State) → StandsFor core.now s
        → text.items ≡ state_text (flow_in core.now) s trades.now.symbols (emitted_by core.now)) }
{
    let text = lines_of(core, alloc)?;
    let mut out = text.into_bytes();
    push_rows(&mut out, trades, core.emitted())?;
    Ok(out)
}
