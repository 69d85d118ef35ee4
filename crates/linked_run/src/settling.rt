// With all nodes in one hand: what each took is seen to be what the others sent.
ghost use Rattle.pair_machine.specs.Lists.{Each};
ghost use Rattle.linked_run.specs.Linked.{AreLinked};
ghost use Rattle.linked_run.specs.Runs.{AreSettled, IsFirstWith, IsSettled, view_at};
ghost use Rattle.run_node.specs.Ends.{InLink};
ghost use Rattle.run_node.specs.NodeView.{NodeView, name_of};
ghost use Rattle.std.specs.Prelude.{◌≡◌, ◌<◌, MatchOption, None, Some, length, map, slice_get};

use event_log::Keeps;
use node_tasks::Acts;
use run_node::{Draws, Links, Node, RunNames};
use tuple_edge::NodeId;

// The place of the first node with an id.
fn place_of<N: RunNames, A: Acts, K: Keeps, M: Links, T: Draws>(
    nodes: &[Node<N, A, K, M, T>],
    id: NodeId,
) -> Option<usize>
    ensures { MatchOption result (view_at A.id nodes.now id ≡ None) (λ place. IsFirstWith A.id nodes.now id place) }
{
    for place in 0..nodes.len() {
        let node = &nodes[place];
        if node.has_id(id) {
            return Some(place);
        }
    }
    None
}

// Settles one in-link of one node.
fn settle_link<N: RunNames, A: Acts, K: Keeps, M: Links, T: Draws>(
    links: &mut M,
    nodes: &mut [Node<N, A, K, M, T>],
    to: usize,
    inlet: usize,
)
    requires to { to < length nodes.old }
    requires inlet { (v : NodeView _ _) → slice_get nodes.old to ≡ Some v → inlet < length v.ins }
    requires linked { AreLinked (map (name_of A.id) nodes.old) (map (name_of A.id) nodes.old) }
    ensures same { nodes.new ≡ nodes.old }
    ensures settled { (v : NodeView _ _) (l : InLink) → slice_get nodes.old to ≡ Some v → slice_get v.ins inlet ≡ Some l → IsSettled A.id nodes.old (A.id v.state) l }
{
    let node = &nodes[to];
    let sender = node.sender(inlet);
    let Some(from) = place_of(nodes, sender) else {
        return;
    };
    if from < to {
        let (left, right) = nodes.split_at_mut(to);
        right[0].settle(inlet, &mut left[from], links);
    } else if to < from {
        let (left, right) = nodes.split_at_mut(from);
        left[to].settle(inlet, &mut right[0], links);
    }
}

// Settles all in-links of one node.
fn settle_node<N: RunNames, A: Acts, K: Keeps, M: Links, T: Draws>(
    links: &mut M,
    nodes: &mut [Node<N, A, K, M, T>],
    to: usize,
)
    requires to { to < length nodes.old }
    requires linked { AreLinked (map (name_of A.id) nodes.old) (map (name_of A.id) nodes.old) }
    ensures same { nodes.new ≡ nodes.old }
    ensures settled { (v : NodeView _ _) → slice_get nodes.old to ≡ Some v → Each (IsSettled A.id nodes.old (A.id v.state)) v.ins }
{
    let node = &nodes[to];
    for inlet in 0..node.inlets() {
        settle_link(links, nodes, to, inlet);
    }
}

/// Settles all links: what all nodes took was sent.
pub(crate) fn settle_all<N: RunNames, A: Acts, K: Keeps, M: Links, T: Draws>(
    links: &mut M,
    nodes: &mut [Node<N, A, K, M, T>],
)
    requires { AreLinked (map (name_of A.id) nodes.old) (map (name_of A.id) nodes.old) }
    ensures same { nodes.new ≡ nodes.old }
    ensures settled { AreSettled A.id nodes.old nodes.old }
{
    for to in 0..nodes.len() {
        settle_node(links, nodes, to);
    }
}
