// The names of nodes, as texts have them.
ghost use Rattle.std.specs.Prelude.{◌≡◌, ◌++◌, OnOk, string_bytes};
ghost use Rattle.run_journal.specs.Text.{letter_of, member_name, node_name};

use tuple_edge::{NodeId, OutOfMemory, Which};

/// The letter of a replica of a pair: `a` or `b`.
pub fn letter_of(which: Which) -> &'static str
    ensures { result.now ≡ letter_of which }
{
    match which {
        Which::A => "a",
        Which::B => "b",
    }
}

/// Appends the name of a node of those that run this partition of this stage, which this letter tells from the others.
pub fn push_member(
    text: &mut String,
    stage: u32,
    part: u32,
    letter: &str,
) -> Result<(), OutOfMemory>
    ensures { OnOk result (string_bytes text.new ≡ string_bytes text.old ++ member_name stage part letter.now) }
{
    write!(text, "{stage}.{part}.{letter}")?;
    Ok(())
}

/// Appends the name of a node: `in`, `out`, or for a node of a pair its stage, its partition and `a`, `b` or `c`,
/// as `2.0.a`.
pub fn push_node(text: &mut String, node: NodeId) -> Result<(), OutOfMemory>
    ensures { OnOk result (string_bytes text.new ≡ string_bytes text.old ++ node_name node) }
{
    match node {
        NodeId::Ingress => {
            text.push_str("in")?;
            Ok(())
        }
        NodeId::Replica { stage, part, which } => push_member(text, stage, part, letter_of(which)),
        NodeId::Control { stage, part } => push_member(text, stage, part, "c"),
        NodeId::Egress => {
            text.push_str("out")?;
            Ok(())
        }
    }
}
