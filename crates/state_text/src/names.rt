// The names of nodes, and short words.
ghost use Rattle.run_journal.specs.Text.{node_name};
ghost use Rattle.state_text.specs.StateText.{flag_word, source_name};
ghost use Rattle.std.specs.Prelude.{◌≡◌, IfOk, string_bytes};

use run_journal::push_node;
use std::alloc::Global;
use tuple_edge::{NodeId, OutOfMemory};

// A truth value as a digit.
pub(crate) fn flag_word(flag: bool) -> &'static str
    ensures { result.now ≡ flag_word flag }
{
    if flag { "1" } else { "0" }
}

// The name of a node.
pub(crate) fn name_of(alloc: Global, node: NodeId) -> Result<String, OutOfMemory>
    ensures { IfOk result (λ name. string_bytes name ≡ node_name node) }
{
    let mut name = String::new(alloc);
    push_node(&mut name, node)?;
    Ok(name)
}

// The name of a source of ingress.
pub(crate) fn source_name(alloc: Global, sources: u32, source: u32) -> Result<String, OutOfMemory>
    ensures { IfOk result (λ name. string_bytes name ≡ source_name sources source) }
{
    let mut name = String::new(alloc);
    if sources == 1 {
        name.push_str("in")?;
    } else {
        write!(name, "in {source}")?;
    }
    Ok(name)
}
