// The machine of groups worked by hand, as the contract of a function that does nothing.
ghost use Rattle.trio_machine.specs.WorkedRows.{WorkedRows};

/// After these lists of events on small plans the nodes have these numbers, and one more event is
/// refused for this reason.
pub fn worked_rows()
    ensures { WorkedRows }
{}
