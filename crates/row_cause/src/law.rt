// What holds of causes, as contracts of functions that do nothing.
ghost use Rattle.row_cause.specs.Laws.{EndsRestOnCauses, RowsRestOnCauses};
ghost use Rattle.row_cause.specs.WorkedRows.{WorkedRows};

/// A law: each row that answers a row has one cause, in order, and is the answer over the rows of that cause alone.
#[tactic(auto, using(crate::proofs::Alone::rows_rest))]
pub fn rows_rest_on_their_causes()
    ensures { RowsRestOnCauses }
{}

/// A law: so has each row that answers the end.
#[tactic(auto, using(crate::proofs::Ends::ends_rest))]
pub fn ends_rest_on_their_causes()
    ensures { EndsRestOnCauses }
{}

/// What was worked by hand: of each operator, on which rows an answer rests.
#[tactic(auto, using(crate::proofs::WorkedRows::worked))]
pub fn worked_rows()
    ensures { WorkedRows }
{}
