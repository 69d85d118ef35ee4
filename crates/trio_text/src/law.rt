// What ties the names of groups to their machine, as contracts of functions that do nothing.
ghost use Rattle.trio_text.specs.Laws.{LinksAreThePlans, LinksCarryMessages, NamedEventsAreThere, NodesAreThePlans};

/// A node is one of the machine just where the plan has it.
#[tactic(auto, using(crate::proofs::PlanNodes::nodes_known))]
pub fn nodes_are_the_plans()
    ensures { NodesAreThePlans }
{}

/// A message that a link between nodes of the plan carries stands on a link of the plan.
#[tactic(auto, using(crate::proofs::PlanNodes::links_known))]
pub fn links_are_the_plans()
    ensures { LinksAreThePlans }
{}

/// Each link of the plan carries some message.
#[tactic(auto, using(crate::proofs::PlanNodes::links_carry))]
pub fn links_carry_messages()
    ensures { LinksCarryMessages }
{}

/// An event that names what the plan has is there for the machine.
#[tactic(auto, using(crate::proofs::PlanNodes::named_there))]
pub fn named_events_are_there()
    ensures { NamedEventsAreThere }
{}
