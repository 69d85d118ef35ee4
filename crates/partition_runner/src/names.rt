// The names of a run whose inputs came before it begins.
ghost use Rattle.std.specs.Prelude.{List, []};
ghost use Rattle.tuple_edge.specs.Input.{Input};

use run_node::RunNames;
use std::marker::Brand;

/// What all nodes of one run have in common, where all of its inputs came before it begins. It has no call, and contracts
/// alone see its members.
pub trait FedNames: RunNames {
    /// The inputs of the run.
    ghost inputs: { List Input };
}

impl FedNames for Brand {
    ghost inputs = { [] };
}
