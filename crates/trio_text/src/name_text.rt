// The names of the nodes of groups, as texts have them.
ghost use Rattle.std.specs.Prelude.{◌≡◌, ◌++◌, OnOk, string_bytes};
ghost use Rattle.trio_text.specs.Text.{trio_node_name};

use run_journal::push_member;
use trio_machine::TrioNode;
use tuple_edge::OutOfMemory;

/// Appends the name of a node: `in`, `out`, or for a node of a group its stage, its partition and which replica it is,
/// or `c`, as `2.0.1`.
pub fn push_trio_node(text: &mut String, node: TrioNode) -> Result<(), OutOfMemory>
    ensures { OnOk result (string_bytes text.new ≡ string_bytes text.old ++ trio_node_name node) }
{
    match node {
        TrioNode::Ingress => {
            text.push_str("in")?;
            Ok(())
        }
        TrioNode::Replica { stage, part, copy } => {
            write!(text, "{stage}.{part}.{copy}")?;
            Ok(())
        }
        TrioNode::Control { stage, part } => push_member(text, stage, part, "c"),
        TrioNode::Egress => {
            text.push_str("out")?;
            Ok(())
        }
    }
}
