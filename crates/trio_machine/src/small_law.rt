// How large the numbers of groups grow, as contracts of functions that do nothing.
ghost use Rattle.trio_machine.specs.Small.{NumbersFit, NumbersStaySmall};

/// In the state that a legal list reaches no number of a node or a message is above one more than the
/// number of its events.
#[tactic(auto, using(crate::proofs::SmallKept::numbers_small))]
pub fn numbers_stay_small()
    ensures { NumbersStaySmall }
{}

/// After fewer than 2^61 events each number is below 2^62 - 1.
pub fn numbers_fit()
    ensures { NumbersFit }
{}
