// What holds of the counts of every plan, as contracts of functions that do nothing.
ghost use Rattle.pair_machine.specs.CountLaws.{AllIsMade, EdgesAreMergedInOrder, EdgesAreUsedUp, EndedMergeIsWhole, MovesHaveTheirSize, OutputComesInOrder, PlansAreFlows};

/// The numbers of every plan are those of a flow, over which the machine runs.
#[tactic(auto, using(crate::proofs::PlanFlow::plan_is_flow))]
pub fn plans_are_flows()
    ensures { PlansAreFlows }
{}

/// As long as a merged list goes on, each edge into its partition has an item that is not used; where it
/// ends, all are used.
#[tactic(auto, using(crate::proofs::CountLaws::used_up))]
pub fn edges_are_used_up()
    ensures { EdgesAreUsedUp }
{}

/// Of each edge into a partition the items among those that it merges first are the edge's first items, in
/// their order, each once.
pub fn edges_are_merged_in_order()
    ensures { EdgesAreMergedInOrder }
{}

/// What a partition or ingress has made of an edge is nothing at first, never falls, is the front of the
/// edge, and at the end the whole edge; and what one more item or make adds is what is sent for it.
#[tactic(auto, using(crate::proofs::CountLaws::all_made))]
pub fn all_is_made()
    ensures { AllIsMade }
{}

/// A consumer that has taken all items of its edges is ready until it has merged all.
#[tactic(auto, using(crate::proofs::CountLaws::to_the_end))]
pub fn ended_merge_is_whole()
    ensures { EndedMergeIsWhole }
{}

/// The list of a move has as many entries as its numbers say.
#[tactic(auto, using(crate::proofs::MoveSize::have_their_size))]
pub fn moves_have_their_size()
    ensures { MovesHaveTheirSize }
{}

/// The rows among the items that egress merges first are the first rows of the output.
pub fn output_comes_in_order()
    ensures { OutputComesInOrder }
{}
