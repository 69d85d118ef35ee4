// The end of a link on which a node receives.
ghost use Rattle.run_node.specs.Fits.{HasNext};
ghost use Rattle.std.specs.Prelude.{◌≡◌, ◌++◌, ◌∷◌, [], IfSome, IsTrue};

use flux_link::Inlet;
use std::marker::Model;
use tuple_edge::{NUMBER_LIMIT, NodeId, Packet};

/// The end of a link on which a node receives.
#[derive(Drop)]
pub(crate) struct InEnd<I: Inlet + Drop> {
    pub(crate) from: NodeId,
    pub(crate) inlet: I,
    came: u64,
}

impl<I: Inlet + Drop> Model for InEnd<I> {
    ghost use Rattle.run_node.specs.Ends.{InEndView};
    ghost use Rattle.std.specs.Prelude.{◌≡◌, length};

    ghost Value = { InEndView };

    ghost view = { λ e. record {
      link = record { from = e.from; identity = I.identity e.inlet; given = I.given e.inlet };
      next = I.next e.inlet;
    } };

    ghost invariant = { λ e. e.came ≡ length (I.given e.inlet) };
}

impl<I: Inlet + Drop> InEnd<I> {
    /// An end on which nothing came yet.
    pub(crate) fn new(from: NodeId, inlet: I) -> InEnd<I>
        requires { I.given inlet ≡ [] }
        ensures { result.link ≡ record { from = from; identity = I.identity inlet; given = [] } }
    {
        InEnd {
            from,
            inlet,
            came: 0,
        }
    }

    /// The node from which it comes.
    pub(crate) fn from(&self) -> NodeId
        ensures { result ≡ self.now.link.from }
    {
        self.from
    }

    /// Looks whether an arrival is to be had, which stays in the link. False also where too many came.
    pub(crate) fn look(&mut self) -> bool
        ensures link { self.new.link ≡ self.old.link }
        ensures next { IsTrue result → HasNext self.new }
    {
        self.came < NUMBER_LIMIT && self.inlet.look()
    }

    /// The packet that is next.
    pub(crate) fn first(&self) -> &Packet
        requires { HasNext self.now }
        ensures { IfSome self.now.next (λ arrival. result.now ≡ arrival.packet) }
    {
        self.inlet.first()
    }

    /// Its index.
    pub(crate) fn index(&self) -> u64
        requires { HasNext self.now }
        ensures { IfSome self.now.next (λ arrival. result ≡ arrival.index) }
    {
        self.inlet.index()
    }

    /// Gives the arrival that is next.
    pub(crate) fn pass(&mut self)
        requires { HasNext self.old }
        ensures { IfSome self.old.next (λ arrival. self.new.link ≡ record self.old.link { given = self.old.link.given ++ arrival ∷ [] }) }
    {
        self.inlet.pass();
        self.came += 1;
    }
}
