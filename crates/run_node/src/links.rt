// What a runner asks of its links.
ghost use Rattle.flux_link.specs.Arrivals.{WasSent};
ghost use Rattle.std.specs.Prelude.{◌≡◌, [], All, IfOk};

use flux_link::{Inlet, Outlet};
use std::alloc::Global;
use tuple_edge::{LinkId, OutOfMemory};

/// How a run makes its links, and sees at its end what went over them.
pub trait Links: Send + Sync {
    type Out: Outlet + Send + Drop;

    type In: Inlet + Send + Drop;

    /// Two ends of one link, with nothing sent and no arrival given.
    fn make(&mut self, alloc: Global, link: LinkId) -> Result<(Self::Out, Self::In), OutOfMemory>
        ensures link { IfOk result (λ ends. Self.Out.identity ends.0 ≡ Self.In.identity ends.1) }
        ensures sent { IfOk result (λ ends. Self.Out.sent ends.0 ≡ []) }
        ensures given { IfOk result (λ ends. Self.In.given ends.1 ≡ []) };

    /// With both ends in one hand: each arrival given has an index from 1 to the number of packets
    /// sent, and its packet is the one sent there. What was sent and what was given stay the same.
    fn settle(&mut self, outlet: &mut Self::Out, inlet: &mut Self::In)
        requires { Self.Out.identity outlet.old ≡ Self.In.identity inlet.old }
        ensures out_link { Self.Out.identity outlet.new ≡ Self.Out.identity outlet.old }
        ensures in_link { Self.In.identity inlet.new ≡ Self.In.identity inlet.old }
        ensures sent { Self.Out.sent outlet.new ≡ Self.Out.sent outlet.old }
        ensures given { Self.In.given inlet.new ≡ Self.In.given inlet.old }
        ensures arrivals { All (WasSent (Self.Out.sent outlet.new)) (Self.In.given inlet.new) };
}
