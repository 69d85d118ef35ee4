// With the sender of an in-link in the same hand: what the node took is seen to be what was sent.
ghost use Rattle.flux_link.specs.Arrivals.{WasSent};
ghost use Rattle.pair_machine.specs.Lists.{Each};
ghost use Rattle.pair_machine.specs.Numbers.{is_node};
ghost use Rattle.run_node.specs.Ends.{InLink, emitted_to};
ghost use Rattle.run_node.specs.FirstLinks.{identity_to};
ghost use Rattle.run_node.specs.NodeView.{out_names};
ghost use Rattle.std.specs.Prelude.{◌≡◌, ◌<◌, Some, length, slice_get};

use crate::draws::Draws;
use crate::in_end::InEnd;
use crate::links::Links;
use crate::names::RunNames;
use crate::node::Node;
use crate::out_end::OutEnd;
use crate::outs::Outs;
use crate::sending::place_to;
use event_log::Keeps;
use node_tasks::Acts;
use tuple_edge::NodeId;

// Settles the two ends of a link.
fn settle_ends<M: Links>(links: &mut M, out: &mut OutEnd<M::Out>, end: &mut InEnd<M::In>)
    requires { end.old.link.identity ≡ out.old.link.identity }
    ensures same { (out.new ≡ out.old) × (end.new.link ≡ end.old.link) }
    ensures settled { Each (WasSent out.old.link.emitted) end.old.link.given }
{
    links.settle(&mut out.outlet, &mut end.inlet);
}

// Settles an in-link of a node with the ends of the node that sends on it.
fn settle_to<M: Links>(links: &mut M, outs: &mut Outs<M::Out>, to: NodeId, end: &mut InEnd<M::In>)
    requires { identity_to (out_names outs.old.links) to ≡ Some end.old.link.identity }
    ensures same { (outs.new ≡ outs.old) × (end.new.link ≡ end.old.link) }
    ensures settled { Each (WasSent (emitted_to outs.old.links to)) end.old.link.given }
{
    let Some(place) = place_to(&outs.ends, to) else {
        return;
    };
    settle_ends(links, &mut outs.ends[place], end);
}

impl<N: RunNames, A: Acts, K: Keeps, M: Links, T: Draws> Node<N, A, K, M, T> {
    /// Whether this is its id.
    pub fn has_id(&self, id: NodeId) -> bool
        ensures { result ≡ is_node (A.id self.now.state) id }
    {
        self.state.id() == id
    }

    /// How many in-links it has.
    pub fn inlets(&self) -> usize
        ensures { result ≡ length self.now.ins }
    {
        self.ins.len()
    }

    /// From where an in-link comes.
    pub fn sender(&self, inlet: usize) -> NodeId
        requires { inlet < length self.now.ins }
        ensures { (l : InLink) → slice_get self.now.ins inlet ≡ Some l → result ≡ l.from }
    {
        let end = &self.ins[inlet];
        end.from()
    }

    /// Settles one of its in-links with the node from which it comes.
    pub fn settle(&mut self, inlet: usize, sender: &mut Node<N, A, K, M, T>, links: &mut M)
        requires inlet { inlet < length self.old.ins }
        requires link { (l : InLink) → slice_get self.old.ins inlet ≡ Some l → identity_to (out_names sender.old.outs) (A.id self.old.state) ≡ Some l.identity }
        ensures same { (self.new ≡ self.old) × (sender.new ≡ sender.old) }
        ensures settled { (l : InLink) → slice_get self.old.ins inlet ≡ Some l → Each (WasSent (emitted_to sender.old.outs (A.id self.old.state))) l.given }
    {
        let me = self.state.id();
        settle_to(links, &mut sender.outs, me, &mut self.ins[inlet]);
    }
}
