// What holds of the rows that a stage passes on, as contracts of functions that do nothing.
ghost use Rattle.row_origin.specs.Laws.{PassedRowsRestOnCauses, PassedRowsTellWhatCounts, RowsAreTheOutput};
ghost use Rattle.row_origin.specs.WorkedRows.{WorkedRows};

/// A law: each row that a stage passes on has one cause, in order, and is the answer over the rows of that cause alone.
#[tactic(auto, using(crate::proofs::Stages::passed_rest))]
pub fn passed_rows_rest_on_their_causes()
    ensures { PassedRowsRestOnCauses }
{}

/// A law: the quantity and value of each row of a `total`, `last`, `window` or `crossing` are the sums of the rows that
/// count into it, in their order.
#[tactic(auto, using(crate::proofs::Sums::passed_sums))]
pub fn passed_rows_tell_what_counts()
    ensures { PassedRowsTellWhatCounts }
{}

/// A law: the rows that the last stage of a plan passes on are the plan's output.
#[tactic(auto, using(crate::proofs::Output::output_rows))]
pub fn rows_after_the_last_stage_are_the_output()
    ensures { RowsAreTheOutput }
{}

/// What was worked by hand: on which trades rows of a plan of two stages rest.
#[tactic(auto, using(crate::proofs::WorkedRows::worked))]
pub fn worked_rows()
    ensures { WorkedRows }
{}
