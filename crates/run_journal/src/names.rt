// The names of links.
ghost use Rattle.std.specs.Prelude.{◌≡◌};
ghost use Rattle.run_journal.specs.Names.{link_named};

use plan_reader::{cut_at, node_named};
use tuple_edge::LinkId;

// The link that a word names.
#[tactic(auto, unfolding(crate::specs::Names::link_named))]
pub(crate) fn link_named(word: &[u8]) -> Option<LinkId>
    ensures { result ≡ link_named word.now }
{
    let (from, to) = cut_at(word, b'>')?;
    let from = node_named(from)?;
    let to = node_named(to)?;
    Some(LinkId { from, to })
}
