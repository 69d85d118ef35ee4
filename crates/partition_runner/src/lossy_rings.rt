// Links for tests, which drop, repeat and reorder.
ghost use Rattle.flux_link.specs.Arrivals.{WasSent};
ghost use Rattle.flux_link.specs.LossyInlets.{choices_of, given_by, inner_arrivals, inner_of};
ghost use Rattle.std.specs.Prelude.{◌≡◌, [], All, IfOk};

use flux_link::{Choice, LossyIn, RingIn, RingOut, ring};
use run_node::Links;
use std::alloc::Global;
use tuple_edge::{LinkId, OutOfMemory};

/// Makes each link a ring whose inlet treats what comes by choices, which are the same for every link.
#[derive(Drop)]
pub struct LossyRings {
    choices: Vec<Choice>,
}

impl LossyRings {
    /// Rings whose inlets treat the n-th packet by the n-th choice.
    pub fn new(_alloc: Global, choices: Vec<Choice>) -> LossyRings
        ensures { result.choices.items ≡ choices.items }
    {
        LossyRings { choices }
    }
}

impl Links for LossyRings {
    type Out = RingOut;

    type In = LossyIn<RingIn>;

    fn make(
        &mut self,
        alloc: Global,
        _link: LinkId,
    ) -> Result<(RingOut, LossyIn<RingIn>), OutOfMemory>
        ensures link { IfOk result (λ ends. ends.0.identity ≡ (inner_of ends.1).identity) }
        ensures sent { IfOk result (λ ends. ends.0.sent ≡ []) }
        ensures given { IfOk result (λ ends. given_by ends.1 ≡ []) }
        // Of its own packets each link treats the n-th by the n-th choice.
        ensures choices { IfOk result (λ ends. choices_of ends.1 ≡ self.old.choices.items) }
        ensures untouched { IfOk result (λ ends. inner_arrivals ends.1 ≡ []) }
        ensures unchanged { self.new.choices.items ≡ self.old.choices.items }
    {
        let choices = Vec::from_slice(alloc, &self.choices)?;
        let (outlet, inlet) = ring(alloc)?;
        Ok((outlet, LossyIn::new(inlet, choices)))
    }

    fn settle(&mut self, outlet: &mut RingOut, inlet: &mut LossyIn<RingIn>)
        requires { outlet.old.identity ≡ (inner_of inlet.old).identity }
        ensures out_link { outlet.new.identity ≡ outlet.old.identity }
        ensures in_link { (inner_of inlet.new).identity ≡ (inner_of inlet.old).identity }
        ensures sent { outlet.new.sent ≡ outlet.old.sent }
        ensures given { given_by inlet.new ≡ given_by inlet.old }
        ensures arrivals { All (WasSent outlet.new.sent) (given_by inlet.new) }
        ensures unchanged { self.new.choices.items ≡ self.old.choices.items }
    {
        inlet.settle(outlet);
    }
}
