// What holds of the drain, as contracts of functions that do nothing.
ghost use Rattle.pair_machine.specs.Drain.{DrainEventsKeepOwed, DrainIsWhole, DrainsAreFree, LostPairsAreFound, RunsAreDrained, SafeRunsAreDrained, SoundStatesAreDrainable};

/// What is found is a pair of the plan, is lost, and the first such; where none is found, every pair is
/// served.
#[tactic(auto, using(crate::proofs::DrainWhole::finds_lost))]
pub fn lost_pairs_are_found()
    ensures { LostPairsAreFound }
{}

/// A make, a pull and the work of a node whose merge is ready keep that the buffers hold what takeover
/// owes and that numbers are within their lengths, whatever was sent; and they send nothing.
pub fn drain_events_keep_owed()
    ensures { DrainEventsKeepOwed }
{}

/// The drain's events take no message and need no order of a script.
#[tactic(auto, using(crate::proofs::DrainWhole::drains_free))]
pub fn drains_are_free()
    ensures { DrainsAreFree }
{}

/// From any state that is owed and within lengths and in which no pair is lost, the drain's events are
/// legal and send nothing, and egress has emitted all of the output where they end.
pub fn drain_is_whole()
    ensures { DrainIsWhole }
{}

/// The drain may begin in any sound state.
#[tactic(auto, using(crate::proofs::DrainAfter::sound_drains))]
pub fn sound_states_are_drainable()
    ensures { SoundStatesAreDrainable }
{}

/// A legal list within a script, and then the drain of any state with the nodes that it reaches, are one
/// legal list within the script where no pair is lost, and egress has then emitted all of the output.
pub fn runs_are_drained()
    ensures { RunsAreDrained }
{}

/// Under a safe script that is so after every legal list within it.
pub fn safe_runs_are_drained()
    ensures { SafeRunsAreDrained }
{}
