// Why no pair of a safe script is lost, as contracts of functions that do nothing.
ghost use Rattle.machine_parts.specs.SafePairs.{OpeningPairsAreSafe, SafePairsAreServed, SafePairsHoldThroughout, SafePairsStaySafe};

/// At the opening the four facts hold of every pair, whatever the script.
pub fn opening_pairs_are_safe()
    ensures { OpeningPairsAreSafe }
{}

/// Each step within a safe script keeps them, where incarnations are in order and messages stand on
/// their links.
pub fn safe_pairs_stay_safe()
    ensures { SafePairsStaySafe }
{}

/// Where they hold, and incarnations are in order, no pair is lost.
pub fn safe_pairs_are_served()
    ensures { SafePairsAreServed }
{}

/// In every state along a legal list of events within a safe script they hold of every pair.
pub fn safe_pairs_hold_throughout()
    ensures { SafePairsHoldThroughout }
{}
