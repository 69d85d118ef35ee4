// What holds of the machine of groups, as contracts of functions that do nothing.
ghost use Rattle.trio_machine.specs.Legal.{ListsGoOn};
ghost use Rattle.trio_machine.specs.Laws.{LegalListsReachSoundStates, LostGroupsAreGone, OutputIsAFront, SoundStatesGiveWhatIsAsked, SoundStatesOwe, StepsKeepSound, TheOpeningIsSound, TrioPlansAreFlows};

/// The numbers of a plan of one source are those of a flow of groups of three.
#[tactic(auto, using(crate::proofs::Laws::trio_is_flow))]
pub fn trio_plans_are_flows()
    ensures { TrioPlansAreFlows }
{}

/// One list after another is legal just where the first leads to a state from which the second is legal;
/// and a list leads to one state only.
#[tactic(auto, using(crate::proofs::Legal::go_on))]
pub fn lists_go_on()
    ensures { ListsGoOn }
{}

/// The opening is sound.
#[tactic(auto, using(crate::proofs::Laws::the_opening_is_sound))]
pub fn the_opening_is_sound()
    ensures { TheOpeningIsSound }
{}

/// Every step keeps a state sound, from any sound state.
#[tactic(auto, using(crate::proofs::Laws::steps_keep_sound))]
pub fn steps_keep_sound()
    ensures { StepsKeepSound }
{}

/// In a sound state the buffers hold what takeover owes.
#[tactic(auto, using(crate::proofs::Laws::sound_states_owe))]
pub fn sound_states_owe()
    ensures { SoundStatesOwe }
{}

/// A state that a legal list of events reaches is sound, and the buffers hold what takeover owes there.
pub fn legal_lists_reach_sound_states()
    ensures { LegalListsReachSoundStates }
{}

/// A sound state gives what a node's step asks of its numbers and of the messages that were sent to it.
#[tactic(auto, using(crate::proofs::Laws::sound_gives))]
pub fn sound_states_give_what_is_asked()
    ensures { SoundStatesGiveWhatIsAsked }
{}

/// In a sound state a group is lost only where all three of its replicas are gone.
#[tactic(auto, using(crate::proofs::Laws::lost_groups_are_gone))]
pub fn lost_groups_are_gone()
    ensures { LostGroupsAreGone }
{}

/// After every legal list the rows that egress has merged are the first rows of the output.
pub fn output_is_a_front()
    ensures { OutputIsAFront }
{}
