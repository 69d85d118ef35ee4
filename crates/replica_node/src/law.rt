// What holds of a replica's contents and its numbers, as contracts of functions that do nothing.
ghost use Rattle.replica_node.specs.CaughtUp.{NewcomersCatchUp, PiecesHoldNumbers, RunsAreFolded};
ghost use Rattle.replica_node.specs.Moves.{MovesTellTheirNumbers};

/// The list of a move, of what a consumer and a producer hold, is that of the numbers that they stand
/// for.
pub fn moves_tell_their_numbers()
    ensures { MovesTellTheirNumbers }
{}

/// The merge and the buffers of a replica hold what the numbers of its move say.
pub fn pieces_hold_numbers()
    ensures { PiecesHoldNumbers }
{}

/// The machine's run of numbers is the run of what is held: all above the mark up to its end, and not
/// the next one.
pub fn runs_are_folded()
    ensures { RunsAreFolded }
{}

/// A newcomer that took the list of a move, and held items of its in-edges, stands at its end for the
/// machine's replica that has caught up.
pub fn newcomers_catch_up()
    ensures { NewcomersCatchUp }
{}
