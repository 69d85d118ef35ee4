// What the ending of a drain means, as the contract of a function that does nothing.
ghost use Rattle.trio_drain.specs.Ending.{EndingsAreExact};

/// A drain ends lost by a group just where that is the first lost one and egress has more to merge, and whole
/// just where egress has merged all or a counted replica of each group runs.
pub fn endings_are_exact()
    ensures { EndingsAreExact }
{}
