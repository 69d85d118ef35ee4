// A node while its links are made.
ghost use Rattle.pair_machine.specs.Counts.{flow_of};
ghost use Rattle.pair_machine.specs.Links.{HasNode, link};
ghost use Rattle.pair_machine.specs.Machine.{new_node};
ghost use Rattle.plan_reader.specs.Nodes.{has_link};
ghost use Rattle.plan_reader.specs.PlanView.{IsPlan};
ghost use Rattle.run_node.specs.FirstLinks.{identity_to};
ghost use Rattle.run_node.specs.NodeView.{name_of};
ghost use Rattle.run_node.specs.SoundNode.{TapFits};
ghost use Rattle.std.specs.Prelude.{◌≡◌, ◌++◌, ◌∷◌, [], IsSome, IsTrue, List, OnOk, is_some};
ghost use Rattle.tuple_edge.specs.Input.{Input};
ghost use Rattle.tuple_edge.specs.declared.node.NodeId.{NodeId};

use crate::draws::Draws;
use crate::in_end::InEnd;
use crate::links::Links;
use crate::names::RunNames;
use crate::node::Node;
use crate::out_end::OutEnd;
use crate::sending::place_to;
use event_log::Keeps;
use node_tasks::Acts;
use std::alloc::Global;
use std::marker::{Model, PhantomData};
use tuple_edge::{NodeId, OutOfMemory};

/// A node as it opens, with the links that it has got so far.
#[derive(Drop)]
pub struct Draft<N: RunNames, A: Acts, M: Links, T: Draws> {
    state: A,
    ins: Vec<InEnd<M::In>>,
    outs: Vec<OutEnd<M::Out>>,
    tap: Option<T>,
    of: PhantomData<N>,
}

impl<N: RunNames, A: Acts, M: Links, T: Draws> Model for Draft<N, A, M, T> {
    ghost use Rattle.run_node.specs.Ends.{links_in, links_of};
    ghost use Rattle.run_node.specs.Fresh.{IsFresh};
    ghost use Rattle.run_node.specs.NodeView.{NodeName, in_names, out_names};
    ghost use Rattle.std.specs.Prelude.{is_some};

    ghost Value = { NodeName };

    ghost view = { λ d. record { id = A.id d.state; ins = in_names (links_in d.ins.items); outs = out_names (links_of d.outs.items); tapped = is_some d.tap } };

    ghost invariant = { λ d. IsFresh T.lets_go T.given A.id A.of_plan A.stands A.rows A.gone A.admits N.plan d.state (links_of d.outs.items) d.tap };
}

impl<N: RunNames, A: Acts, M: Links, T: Draws> Draft<N, A, M, T> {
    /// A node that has no link yet.
    pub fn new(alloc: Global, state: A, tap: Option<T>) -> Draft<N, A, M, T>
        requires of_plan { A.of_plan N.plan state }
        requires opening { (inputs : List Input) → A.admits state inputs → A.stands N.plan inputs state (new_node (A.id state)) }
        requires tap { TapFits T.lets_go T.given A.rows A.gone tap state }
        ensures { result ≡ record { id = A.id state; ins = []; outs = []; tapped = is_some tap } }
    {
        Draft {
            state,
            ins: Vec::new(alloc),
            outs: Vec::new(alloc),
            tap,
            of: PhantomData,
        }
    }

    /// Its name.
    pub fn id(&self) -> NodeId
        ensures { result ≡ self.now.id }
    {
        self.state.id()
    }

    /// Whether it has a link to a node.
    pub fn leads_to(&self, to: NodeId) -> bool
        ensures { result ≡ is_some (identity_to self.now.outs to) }
    {
        match place_to(&self.outs, to) {
            None => false,
            Some(_place) => true,
        }
    }

    /// Gives it the end of a link to another node.
    pub fn add_out(&mut self, alloc: Global, to: NodeId, outlet: M::Out) -> Result<(), OutOfMemory>
        requires { M.Out.sent outlet ≡ [] }
        ensures { OnOk result (self.new ≡ record self.old { outs = self.old.outs ++ (to, M.Out.identity outlet) ∷ [] }) }
    {
        self.outs.push(OutEnd::new(alloc, to, outlet))?;
        Ok(())
    }

    /// Gives it the end of a link from another node.
    pub fn add_in(&mut self, from: NodeId, inlet: M::In) -> Result<(), OutOfMemory>
        requires { M.In.given inlet ≡ [] }
        ensures { OnOk result (self.new ≡ record self.old { ins = self.old.ins ++ (from, M.In.identity inlet) ∷ [] }) }
    {
        self.ins.push(InEnd::new(from, inlet))?;
        Ok(())
    }

    /// The node, which has its links now.
    pub fn finish<K: Keeps>(self, alloc: Global) -> Node<N, A, K, M, T>
        requires planned { IsPlan N.plan }
        requires there { (inputs : List Input) → HasNode (flow_of N.plan inputs) self.id }
        requires linked { (to : NodeId) → IsTrue (has_link N.plan (link self.id to)) → IsSome (identity_to self.outs to) }
        ensures { name_of A.id result ≡ self }
    {
        let Draft {
            state,
            ins,
            outs,
            tap,
            of: _,
        } = self;
        Node::new(alloc, state, ins, outs, tap)
    }
}
