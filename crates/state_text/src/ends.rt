// The lines of ingress and egress.
ghost use Rattle.state_text.specs.Shown.{egress_shown, ingress_shown, out_edges_shown};
ghost use Rattle.state_text.specs.StateText.{source_name};
ghost use Rattle.std.specs.Prelude.{◌≡◌, ◌<◌, ◌++◌, OnOk, length, string_bytes};
ghost use Rattle.ingress_egress.specs.IngressView.{producer_at};

use crate::edges::{push_in_edges, push_out_edges};
use crate::names::{flag_word, source_name};
use ingress_egress::{Egress, Ingress};
use std::alloc::Global;
use tuple_edge::OutOfMemory;

// Appends the lines of the edges of a source of ingress.
fn push_source(
    text: &mut String,
    alloc: Global,
    ingress: &Ingress,
    source: u32,
) -> Result<(), OutOfMemory>
    requires { source < length ingress.now.producers }
    ensures { OnOk result (string_bytes text.new ≡ string_bytes text.old
        ++ out_edges_shown (source_name (length ingress.now.producers) source) (producer_at ingress.now source)) }
{
    let name = source_name(alloc, ingress.sources(), source)?;
    push_out_edges(text, &name, ingress.producer(source))
}

// Appends the lines of ingress.
#[tactic(auto, using(crate::proofs::Below::lines_next))]
pub(crate) fn push_ingress(
    text: &mut String,
    alloc: Global,
    ingress: &Ingress,
) -> Result<(), OutOfMemory>
    ensures { OnOk result (string_bytes text.new ≡ string_bytes text.old ++ ingress_shown ingress.now) }
{
    let makes = ingress.makes();
    write!(text, "in makes={makes}\n")?;
    let sources = ingress.sources();
    for source in 0..sources {
        push_source(text, alloc, ingress, source)?;
    }
    Ok(())
}

// Appends the lines of egress.
pub(crate) fn push_egress(text: &mut String, egress: &Egress) -> Result<(), OutOfMemory>
    ensures { OnOk result (string_bytes text.new ≡ string_bytes text.old ++ egress_shown egress.now) }
{
    let count = egress.consumer().merge().count();
    let done = flag_word(egress.done());
    write!(text, "out count={count} done={done}\n")?;
    push_in_edges(text, "out", egress.consumer())
}
