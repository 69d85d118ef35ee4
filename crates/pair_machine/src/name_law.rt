// What ties the machine's names to the plan's, as contracts of functions that do nothing.
ghost use Rattle.pair_machine.specs.PlanNodes.{LinksAreThePlans, LinksCarryMessages, NodesAreThePlans};

/// A node is one of the machine just where the plan has it.
pub fn nodes_are_the_plans()
    ensures { NodesAreThePlans }
{}

/// A message that a link between nodes of the plan carries stands on a link of the plan.
pub fn links_are_the_plans()
    ensures { LinksAreThePlans }
{}

/// Each link of the plan carries some message.
pub fn links_carry_messages()
    ensures { LinksCarryMessages }
{}
