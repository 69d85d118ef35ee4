// The end of drains worked by hand, as the contract of a function that does nothing.
ghost use Rattle.trio_drain.specs.WorkedRows.{WorkedRows};

/// After these lists of events on small plans the drain ends so.
#[tactic(auto, using(crate::proofs::WorkedRows::worked_rows))]
pub fn worked_rows()
    ensures { WorkedRows }
{}
