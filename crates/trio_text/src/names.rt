// The names of the nodes and links of groups.
ghost use Rattle.std.specs.Prelude.{◌≡◌};
ghost use Rattle.trio_text.specs.Names.{ends_named, group_node_named, member_named, trio_node_named};

use plan_reader::{cut_at, place_named};
use text_words::is_word;
use trio_machine::TrioNode;

// The two nodes of a link.
#[derive(Clone, Copy)]
pub(crate) struct Ends {
    pub(crate) from: TrioNode,
    pub(crate) to: TrioNode,
}

// A node of the group that runs this partition of this stage.
fn member_named(stage: u32, part: u32, word: &[u8]) -> Option<TrioNode>
    ensures { result ≡ member_named stage part word.now }
{
    if is_word(word, "0") {
        Some(TrioNode::Replica {
            stage,
            part,
            copy: 0,
        })
    } else if is_word(word, "1") {
        Some(TrioNode::Replica {
            stage,
            part,
            copy: 1,
        })
    } else if is_word(word, "2") {
        Some(TrioNode::Replica {
            stage,
            part,
            copy: 2,
        })
    } else if is_word(word, "c") {
        Some(TrioNode::Control { stage, part })
    } else {
        None
    }
}

// The replica or controller that a word names.
#[tactic(auto, unfolding(crate::specs::Names::group_node_named))]
fn group_node_named(word: &[u8]) -> Option<TrioNode>
    ensures { result ≡ group_node_named word.now }
{
    let (stage, rest) = cut_at(word, b'.')?;
    let (part, copy) = cut_at(rest, b'.')?;
    let stage = place_named(stage)?;
    let part = place_named(part)?;
    member_named(stage, part, copy)
}

// The node that a word names: `in`, `out`, or for a node of a group its stage, its partition and `0`, `1`, `2` or `c`.
#[tactic(auto, unfolding(crate::specs::Names::trio_node_named))]
pub(crate) fn node_named(word: &[u8]) -> Option<TrioNode>
    ensures { result ≡ trio_node_named word.now }
{
    if is_word(word, "in") {
        Some(TrioNode::Ingress)
    } else if is_word(word, "out") {
        Some(TrioNode::Egress)
    } else {
        group_node_named(word)
    }
}

// The two nodes that a word names, with `>` between them.
#[tactic(auto, unfolding(crate::specs::Names::ends_named))]
pub(crate) fn ends_named(word: &[u8]) -> Option<Ends>
    ensures { result ≡ ends_named word.now }
{
    let (from, to) = cut_at(word, b'>')?;
    let from = node_named(from)?;
    let to = node_named(to)?;
    Some(Ends { from, to })
}
