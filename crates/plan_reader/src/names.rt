// The names of nodes.
ghost use Rattle.std.specs.Prelude.{◌≡◌, ◌<◌, ◌==◌, IfSome, MatchOption, length, position};
ghost use Rattle.plan_reader.specs.Names.{cut_at, member_named, node_named, pair_node_named, place_named};

use text_words::{is_word, number_of};
use tuple_edge::{NodeId, Which};

/// The greatest number of digits of a stage and of a partition in a node's name.
pub const MAX_NAME_DIGITS: usize = 9;

// Where the first such byte of a word stands.
fn place_of(word: &[u8], mark: u8) -> Option<usize>
    ensures value { result ≡ position (λ b. b == mark) word.now }
    ensures within { IfSome result (λ place. place < length word.now) }
{
    word.iter().position(|b| *b == mark)
}

/// What stands before and behind the first such byte of a word. None where it has none.
#[tactic(auto, unfolding(crate::specs::Names::cut_at))]
pub fn cut_at(word: &[u8], mark: u8) -> Option<(&[u8], &[u8])>
    ensures { MatchOption result (cut_at mark word.now ≡ None) (λ x. cut_at mark word.now ≡ Some (x.0.now, x.1.now)) }
{
    let place = place_of(word, mark)?;
    let (front, _) = word.split_at(place);
    let (_, back) = word.split_at(place + 1);
    Some((front, back))
}

/// The stage or partition that a word names: a number of 1 to [`MAX_NAME_DIGITS`] digits. None for every other word.
#[tactic(auto, unfolding(crate::specs::Names::place_named))]
pub fn place_named(word: &[u8]) -> Option<u32>
    ensures { result ≡ place_named word.now }
{
    if word.len() > MAX_NAME_DIGITS {
        return None;
    }
    let n = number_of(word)?;
    Some(n as u32)
}

// A node of the pair that runs this partition of this stage.
fn member_named(stage: u32, part: u32, letter: &[u8]) -> Option<NodeId>
    ensures { result ≡ member_named stage part letter.now }
{
    if is_word(letter, "a") {
        Some(NodeId::Replica {
            stage,
            part,
            which: Which::A,
        })
    } else if is_word(letter, "b") {
        Some(NodeId::Replica {
            stage,
            part,
            which: Which::B,
        })
    } else if is_word(letter, "c") {
        Some(NodeId::Control { stage, part })
    } else {
        None
    }
}

// The replica or controller that a word names.
#[tactic(auto, unfolding(crate::specs::Names::pair_node_named))]
fn pair_node_named(word: &[u8]) -> Option<NodeId>
    ensures { result ≡ pair_node_named word.now }
{
    let (stage, rest) = cut_at(word, b'.')?;
    let (part, letter) = cut_at(rest, b'.')?;
    let stage = place_named(stage)?;
    let part = place_named(part)?;
    member_named(stage, part, letter)
}

/// The node that a word names: `in`, `out`, or for a node of a pair its stage, its partition and `a`, `b` or `c`,
/// as `2.0.a`, where both numbers have 1 to [`MAX_NAME_DIGITS`] digits. None for every other word.
#[tactic(auto, unfolding(crate::specs::Names::node_named))]
pub fn node_named(word: &[u8]) -> Option<NodeId>
    ensures { result ≡ node_named word.now }
{
    if is_word(word, "in") {
        Some(NodeId::Ingress)
    } else if is_word(word, "out") {
        Some(NodeId::Egress)
    } else {
        pair_node_named(word)
    }
}
