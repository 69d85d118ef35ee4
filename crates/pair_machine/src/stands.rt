// What a type says of its values that are nodes.
ghost use Rattle.pair_machine.specs.Numbers.{Node};
ghost use Rattle.plan_reader.specs.PlanView.{PlanView};
ghost use Rattle.std.specs.Prelude.{List};
ghost use Rattle.tuple_edge.specs.Input.{Input};

/// A value that is a node of the machine.
pub trait StandsForNode {
    /// For which numbers of a node it stands, under a plan and its inputs: they name what it has.
    ghost stands: { PlanView → List Input → Self → Node → Type 0 };
}
