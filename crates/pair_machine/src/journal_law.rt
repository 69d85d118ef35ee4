// What holds of lists of events put together, as contracts of functions that do nothing.
ghost use Rattle.pair_machine.specs.Journal.{FrontsStayWithin, JournalsGoOn, ListsGoOn, NodesDecide, StepsAreAtOneNode};

/// A step leaves every node as it was but the one at which it is.
#[tactic(auto, using(crate::proofs::Journal::at_one_node))]
pub fn steps_are_at_one_node()
    ensures { StepsAreAtOneNode }
{}

/// One list after another is legal just where the first leads to a state from which the second is legal;
/// and a list leads to one state only.
#[tactic(auto, using(crate::proofs::Journal::go_on))]
pub fn lists_go_on()
    ensures { ListsGoOn }
{}

/// Of events that take no message the nodes alone decide: from any state with the same nodes they are
/// legal too, whatever was sent, and reach the same nodes.
pub fn nodes_decide()
    ensures { NodesDecide }
{}

/// A front of a list within a script is within it, and so is the list with more events that need no order.
#[tactic(auto, using(crate::proofs::Journal::stay_within))]
pub fn fronts_stay_within()
    ensures { FrontsStayWithin }
{}

/// A legal list within a script goes on with events that take no message and need no order, where these
/// are legal from a state with the nodes that it reaches: both are one legal list within the script.
pub fn journals_go_on()
    ensures { JournalsGoOn }
{}
