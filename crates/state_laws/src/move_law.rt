// What holds of a move over any order of calls, as a contract of a function that does nothing.
ghost use Rattle.state_laws.specs.Moves.{AnyOrderMoves};

/// After any order of beginnings, of calls of `next` and of steps of the operator's state, the parts
/// given since the last beginning are the first ones of the list that the move had when it began, as
/// many as `next` was called since; once all of them were given, the end is given, once.
pub fn any_order_moves()
    ensures { AnyOrderMoves }
{}
