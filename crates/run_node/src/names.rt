// The names of a run.
ghost use Rattle.pair_machine.specs.declared.order.Order.{Order};
ghost use Rattle.plan_reader.specs.PlanView.{PlanView};
ghost use Rattle.std.specs.Prelude.{List, []};

use std::marker::Brand;

/// What all nodes of one run have in common. It has no call, and contracts alone see its members.
pub trait RunNames: Send + Sync {
    /// The plan of the run.
    ghost plan: { PlanView };

    /// The orders of its script.
    ghost script: { List Order };
}

impl RunNames for Brand {
    ghost plan = { record { version = 1; stages = []; mark = 0; hold = 0 } };

    ghost script = { [] };
}
