// Links that are rings.
use flux_link::{RingIn, RingOut, ring};
use run_node::Links;
use std::alloc::Global;
use tuple_edge::{LinkId, OutOfMemory};

/// Makes each link a ring.
#[derive(Clone, Copy, Debug)]
pub struct Rings;

impl Links for Rings {
    type Out = RingOut;

    type In = RingIn;

    fn make(&mut self, alloc: Global, _link: LinkId) -> Result<(RingOut, RingIn), OutOfMemory> {
        ring(alloc)
    }

    fn settle(&mut self, outlet: &mut RingOut, inlet: &mut RingIn) {
        inlet.settle(outlet);
    }
}
