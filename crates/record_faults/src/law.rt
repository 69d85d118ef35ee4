// What the faults of all records have to do with what a file says, as contracts of functions that do nothing.
ghost use Rattle.record_faults.specs.Laws.{AcceptedAreAccepted, FirstIsTheRefusal};

/// The first of all faults is that by which a file is refused, and a file without a fault is accepted.
pub fn first_is_the_refusal()
    ensures { FirstIsTheRefusal }
{}

/// The header and the accepted records of a file of trades, as csv writes them, are a file of just their rows.
pub fn accepted_are_accepted()
    ensures { AcceptedAreAccepted }
{}
