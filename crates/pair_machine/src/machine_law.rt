// What holds of the pair machine, as contracts of functions that do nothing.
ghost use Rattle.pair_machine.specs.MachineLaws.{CoursesAreLegal, LogsAreLegal, LogsAreThere, LogsAreWithin, NoPairIsLost, NodesStand, SoundStatesGiveWhatIsAsked, SoundStatesOwe, StepsKeepSound, TakeoverIsOwed, TheOpeningIsSound};
ghost use Rattle.pair_machine.specs.Small.{NumbersFit, NumbersStaySmall};

use crate::stands::StandsForNode;

/// The opening is sound.
pub fn the_opening_is_sound()
    ensures { TheOpeningIsSound }
{}

/// Every step keeps a state sound, from any sound state.
pub fn steps_keep_sound()
    ensures { StepsKeepSound }
{}

/// In a sound state the buffers hold what takeover owes.
#[tactic(auto, using(crate::proofs::MachineLaws::sound_owes))]
pub fn sound_states_owe()
    ensures { SoundStatesOwe }
{}

/// In every state along a legal list of events the buffers hold what takeover owes.
pub fn takeover_is_owed()
    ensures { TakeoverIsOwed }
{}

/// A sound state gives what a node's step asks of its numbers and of the messages that were sent to it.
#[tactic(auto, using(crate::proofs::MachineLaws::sound_gives))]
pub fn sound_states_give_what_is_asked()
    ensures { SoundStatesGiveWhatIsAsked }
{}

/// In every state along a legal list of events within a safe script, a counted replica of each pair runs.
pub fn no_pair_is_lost()
    ensures { NoPairIsLost }
{}

/// Where all courses are true and agree, each front of the joint course is legal, and each node's
/// replay up to there gives its numbers in the state that the front reaches.
#[tactic(auto, using(crate::proofs::MachineLaws::plan_courses))]
pub fn courses_are_legal()
    ensures { CoursesAreLegal }
{}

/// Where all nodes' histories are true and links give packets under their indexes, each front of the log
/// of all events is legal, and each node's replay up to there gives its numbers in the state that the
/// front reaches.
#[tactic(auto, using(crate::proofs::RunLaw::logs_legal))]
pub fn logs_are_legal()
    ensures { LogsAreLegal }
{}

/// A node's value stands for the node's numbers in the state that the log of all events reaches, where it
/// keeps that it stands for the numbers of its replay.
pub fn nodes_stand<N: StandsForNode>()
    ensures { NodesStand N.stands }
{}

/// The entries of given histories, by clock and node, are a log of them, where the nodes differ and the
/// clocks of each rise.
pub fn logs_are_there()
    ensures { LogsAreThere }
{}

/// Where moreover each node's history is within a script, so is the log of all events.
pub fn logs_are_within()
    ensures { LogsAreWithin }
{}

/// In the state that a legal list reaches no number of a node or a message is above one more than the
/// number of its events.
pub fn numbers_stay_small()
    ensures { NumbersStaySmall }
{}

/// After fewer than 2^61 events each number is below 2^62 - 1.
pub fn numbers_fit()
    ensures { NumbersFit }
{}
