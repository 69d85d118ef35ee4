// The rows that are worked by hand.
ghost use Rattle.trade_check.specs.WorkedRows.{WorkedRows};

/// Trades that were worked by hand: which of their times fall, where they go over midnight, what some plans are warned of, and which
/// counts of orders are told.
#[tactic(auto, using(crate::proofs::WorkedRows::worked))]
pub fn worked_rows()
    ensures { WorkedRows }
{}
