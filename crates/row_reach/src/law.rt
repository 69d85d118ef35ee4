// What holds of the rows that are reached, as contracts of functions that do nothing.
ghost use Rattle.row_reach.specs.Laws.{ReachedFromWhatTheyRestOn};
ghost use Rattle.row_reach.specs.WorkedRows.{WorkedRows};

/// A law: a row that the last of some stages passes on is reached from a row that comes to the first one exactly where it rests on it.
#[tactic(auto, using(crate::proofs::Reached::reached_rest))]
pub fn rows_are_reached_from_what_they_rest_on()
    ensures { ReachedFromWhatTheyRestOn }
{}

/// What was worked by hand: which rows of a plan of two stages are reached from each trade.
#[tactic(auto, using(crate::proofs::WorkedRows::worked))]
pub fn worked_rows()
    ensures { WorkedRows }
{}
