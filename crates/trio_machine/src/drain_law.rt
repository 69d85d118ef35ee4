// What holds of the drain of groups, as contracts of functions that do nothing.
ghost use Rattle.trio_machine.specs.Drain.{DrainIsWhole, LostGroupsAreFound};

/// What a search for a lost group finds is the first one of the plan, and where it finds none every group is served.
#[tactic(auto, using(crate::proofs::DrainWhole::finds_lost))]
pub fn lost_groups_are_found()
    ensures { LostGroupsAreFound }
{}

/// From a sound state in which no group is lost the drain's events are legal, and egress merges all by them.
pub fn drain_is_whole()
    ensures { DrainIsWhole }
{}
