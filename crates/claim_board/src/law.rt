// What the board's rule comes to, as contracts of functions that do nothing.
ghost use Rattle.claim_board.specs.Laws.{EachIsOnce, AllJoinedIsAlone};

use crate::view::Named;

/// Between any two steps, each place's value is at home, with the place's name, and no seat holds
/// the place; or it is not at home, and exactly one seat holds the place.
pub fn each_is_once<T: Named>()
    ensures { EachIsOnce T.name }
{}

/// A seat that has every number of the board, as its own or of seats joined into it, is the only
/// one left.
pub fn all_joined_is_alone<T: Named>()
    ensures { AllJoinedIsAlone T.name }
{}
