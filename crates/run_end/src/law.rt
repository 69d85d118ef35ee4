// How runs stand that are worked by hand, as the contract of a function that does nothing.
ghost use Rattle.run_end.specs.WorkedEnds.{WorkedEnds};

/// These states and words are so.
pub fn worked_ends()
    ensures { WorkedEnds }
{}
